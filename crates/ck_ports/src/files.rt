ghost use Rattle.std.specs.Prelude.{◌≡◌, ◌≢◌, ◌⊎◌, ◌<◌, ◌≤◌, Some, [], length, take, if◌then◌else◌, is_ok, IsTrue, IfOk, OnOk, OnErr, IsErrOf};
ghost use Rattle.ck_ports.specs.declared.files.Mode.TheVariants.{Closed, Reading, Writing};
ghost use Rattle.ck_ports.specs.Faults.{CountsAt, RisesAt};
ghost use Rattle.ck_ports.specs.Outside.{Outside, SameFiles, SameOtherFiles, IsOpened, IsEmptied, ReadsNext, Appends, AppendsPrefix};

use crate::PortEnd;

/// What a `Files` has open.
#[derive(Clone, Copy, Debug, PartialEq, Eq)]
pub enum Mode {
    Closed,
    Reading,
    Writing,
}

/// Files by name, at most one of them open.
///
/// Each call answers `Failed` only where it counted a fault: reading calls in the reading count, writing
/// calls in the writing count. What clauses say of names and contents holds where the object tells them.
pub trait Files {
    /// The mode, the counts of faults and, where they are told, the files.
    ghost outside: { Self → Outside };

    /// Opens the named file for reading, at its first byte.
    fn open_read(&mut self, name: &str) -> Result<(), PortEnd>
        requires { (outside self.old).mode ≡ Closed }
        ensures mode { (outside self.new).mode ≡ (if is_ok result then Reading else Closed) }
        ensures opened { OnOk result (IsTrue (outside self.old).tells → IsOpened name.now (outside self.old) (outside self.new)) }
        ensures files { SameFiles (outside self.old) (outside self.new) }
        ensures reading { CountsAt (outside self.old).tells name.now (outside self.old).reading (outside self.new).reading }
        ensures failed { IsErrOf result PortEnd.Failed → RisesAt (outside self.old).tells name.now (outside self.old).reading (outside self.new).reading }
        ensures writing { (outside self.new).writing ≡ (outside self.old).writing }
        ensures tells { (outside self.new).tells ≡ (outside self.old).tells };

    /// Reads the next bytes of the open file into the front of `to`, and answers how many: 0 only at its end.
    fn read(&mut self, to: &mut [u8]) -> Result<usize, PortEnd>
        requires mode { (outside self.old).mode ≡ Reading }
        requires room { 0 < length to.old }
        ensures within { IfOk result (λ n. n ≤ length to.old) }
        ensures bytes { IfOk result (λ n. IsTrue (outside self.old).tells → ReadsNext n to.new (outside self.old) (outside self.new)) }
        ensures mode { (outside self.new).mode ≡ Reading }
        ensures open_name { (outside self.new).open_name ≡ (outside self.old).open_name }
        ensures files { SameFiles (outside self.old) (outside self.new) }
        ensures reading { CountsAt (outside self.old).tells (outside self.old).open_name (outside self.old).reading (outside self.new).reading }
        ensures failed { IsErrOf result PortEnd.Failed → RisesAt (outside self.old).tells (outside self.old).open_name (outside self.old).reading (outside self.new).reading }
        ensures writing { (outside self.new).writing ≡ (outside self.old).writing }
        ensures tells { (outside self.new).tells ≡ (outside self.old).tells };

    /// Makes the named file empty, and opens it for writing. After an `Err` that file is as before or empty.
    fn open_write(&mut self, name: &str) -> Result<(), PortEnd>
        requires { (outside self.old).mode ≡ Closed }
        ensures mode { (outside self.new).mode ≡ (if is_ok result then Writing else Closed) }
        ensures opened { OnOk result (IsTrue (outside self.old).tells → IsEmptied name.now (outside self.new)) }
        ensures err { OnErr result (IsTrue (outside self.old).tells → ((outside self.new).file name.now ≡ (outside self.old).file name.now) ⊎ ((outside self.new).file name.now ≡ Some [])) }
        ensures others { SameOtherFiles name.now (outside self.old) (outside self.new) }
        ensures writing { CountsAt (outside self.old).tells name.now (outside self.old).writing (outside self.new).writing }
        ensures failed { IsErrOf result PortEnd.Failed → RisesAt (outside self.old).tells name.now (outside self.old).writing (outside self.new).writing }
        ensures reading { (outside self.new).reading ≡ (outside self.old).reading }
        ensures tells { (outside self.new).tells ≡ (outside self.old).tells };

    /// Appends the first bytes of the piece to the open file, and answers how many. After an `Err` a prefix
    /// of the piece was appended.
    fn write(&mut self, piece: &[u8]) -> Result<usize, PortEnd>
        requires mode { (outside self.old).mode ≡ Writing }
        requires some { 0 < length piece.now }
        ensures within { IfOk result (λ n. (1 ≤ n) × (n ≤ length piece.now)) }
        ensures bytes { IfOk result (λ n. IsTrue (outside self.old).tells → Appends (take n piece.now) (outside self.old) (outside self.new)) }
        ensures err { OnErr result (IsTrue (outside self.old).tells → AppendsPrefix piece.now (outside self.old) (outside self.new)) }
        ensures mode { (outside self.new).mode ≡ Writing }
        ensures open_name { (outside self.new).open_name ≡ (outside self.old).open_name }
        ensures others { SameOtherFiles (outside self.old).open_name (outside self.old) (outside self.new) }
        ensures writing { CountsAt (outside self.old).tells (outside self.old).open_name (outside self.old).writing (outside self.new).writing }
        ensures failed { IsErrOf result PortEnd.Failed → RisesAt (outside self.old).tells (outside self.old).open_name (outside self.old).writing (outside self.new).writing }
        ensures reading { (outside self.new).reading ≡ (outside self.old).reading }
        ensures tells { (outside self.new).tells ≡ (outside self.old).tells };

    /// Closes the open file, whatever it answers.
    fn close(&mut self) -> Result<(), PortEnd>
        requires { (outside self.old).mode ≢ Closed }
        ensures mode { (outside self.new).mode ≡ Closed }
        ensures files { SameFiles (outside self.old) (outside self.new) }
        ensures reading { CountsAt (outside self.old).tells (outside self.old).open_name (outside self.old).reading (outside self.new).reading }
        ensures writing { CountsAt (outside self.old).tells (outside self.old).open_name (outside self.old).writing (outside self.new).writing }
        ensures failed_reading { (outside self.old).mode ≡ Reading → IsErrOf result PortEnd.Failed → RisesAt (outside self.old).tells (outside self.old).open_name (outside self.old).reading (outside self.new).reading }
        ensures failed_writing { (outside self.old).mode ≡ Writing → IsErrOf result PortEnd.Failed → RisesAt (outside self.old).tells (outside self.old).open_name (outside self.old).writing (outside self.new).writing }
        ensures keeps_writing { (outside self.old).mode ≡ Reading → (outside self.new).writing ≡ (outside self.old).writing }
        ensures keeps_reading { (outside self.old).mode ≡ Writing → (outside self.new).reading ≡ (outside self.old).reading }
        ensures tells { (outside self.new).tells ≡ (outside self.old).tells };
}
