ghost use Rattle.std.specs.Prelude.{◌≡◌, ◌<◌, ◌≤◌, length, take, IsTrue, IfOk, OnErr, IsErrOf};
ghost use Rattle.ck_ports.specs.Faults.{Rose};
ghost use Rattle.ck_ports.specs.Written.{Written, Writes, WritesPrefix};

use crate::PortEnd;

/// Where printed bytes go.
pub trait Sink {
    /// The count of faults and, where they are told, the bytes written so far.
    ghost written: { Self → Written };

    /// Writes the first bytes of the piece, and answers how many. After an `Err` a prefix of the piece was
    /// written. `Failed` comes only where a fault was counted.
    fn write(&mut self, piece: &[u8]) -> Result<usize, PortEnd>
        requires { 0 < length piece.now }
        ensures within { IfOk result (λ n. (1 ≤ n) × (n ≤ length piece.now)) }
        ensures bytes { IfOk result (λ n. IsTrue (written self.old).tells → Writes (take n piece.now) (written self.old) (written self.new)) }
        ensures err { OnErr result (IsTrue (written self.old).tells → WritesPrefix piece.now (written self.old) (written self.new)) }
        ensures never_falls { (written self.old).faults ≤ (written self.new).faults }
        ensures failed { IsErrOf result PortEnd.Failed → Rose (written self.old).faults (written self.new).faults }
        ensures tells { (written self.new).tells ≡ (written self.old).tells };
}
