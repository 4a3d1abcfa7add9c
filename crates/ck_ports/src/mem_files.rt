ghost use Rattle.std.specs.Prelude.{◌≡◌, IsSome, string_bytes};
ghost use Rattle.ck_ports.specs.declared.files.Mode.TheVariants.{Writing};
ghost use Rattle.ck_ports.specs.FileMap.{bytes_in};

use crate::calls::Calls;
use crate::fault_count::FaultCount;
use crate::file_map::FileMap;
use crate::{Files, Mode, PortEnd};
use asm_core::Memory;
use std::alloc::Global;

/// Files in memory, some of whose calls may be told to fail.
#[derive(Drop)]
pub struct MemFiles {
    alloc: Global,
    files: FileMap,
    mode: Mode,
    // The name that is open, or the last that was.
    open_name: String,
    place: usize,
    calls: Calls,
    reading: FaultCount,
    writing: FaultCount,
    ghost written_is_there: { mode ≡ Writing → IsSome (bytes_in files (string_bytes open_name)) },
}

impl MemFiles {
    ghost use Rattle.std.specs.Prelude.{◌≡◌, ℕ, List, [], None, Some, true, IfOk, OnOk, OnErr};
    ghost use Rattle.std.specs.Option.{option_copied};
    ghost use Rattle.ck_ports.specs.FaultCount.{faults_with};
    ghost use Rattle.ck_ports.specs.declared.files.Mode.TheVariants.{Closed};
    ghost use Rattle.ck_ports.specs.Outside.{SameOutside, SameOtherFiles};
    ghost use Rattle.ck_ports.specs.MemFiles.{outside_of, calls_of};

    /// No file, and none open. The calls of `Files` are numbered from 1 on, and those with the numbers `fail` are
    /// to fail.
    pub fn new(alloc: Global, fail: &[u64]) -> Result<MemFiles, Memory>
        ensures files { IfOk result (λ files. (name : List ℕ) → (outside_of files).file name ≡ None) }
        ensures mode { IfOk result (λ files. (outside_of files).mode ≡ Closed) }
        ensures reading { IfOk result (λ files. (outside_of files).reading ≡ record { count = 0; name = [] }) }
        ensures writing { IfOk result (λ files. (outside_of files).writing ≡ record { count = 0; name = [] }) }
        ensures tells { IfOk result (λ files. (outside_of files).tells ≡ true) }
        ensures calls { IfOk result (λ files. calls_of files ≡ record { so_far = 0; failing = fail.now }) }
    {
        Ok(MemFiles {
            alloc,
            files: FileMap::new(alloc),
            mode: Mode::Closed,
            open_name: String::new(alloc),
            place: 0,
            calls: Calls::new(alloc, fail)?,
            reading: FaultCount::new(),
            writing: FaultCount::new(),
        })
    }

    /// Makes the named file hold these bytes.
    pub fn put(&mut self, name: &str, bytes: &[u8]) -> Result<(), Memory>
        requires { (outside_of self.old).mode ≡ Closed }

        ensures ok { OnOk result (outside_of self.new ≡ record (outside_of self.old) { file = (outside_of self.new).file }) }
        ensures holds { OnOk result ((outside_of self.new).file name.now ≡ Some bytes.now) }
        ensures others { OnOk result (SameOtherFiles name.now (outside_of self.old) (outside_of self.new)) }
        ensures err { OnErr result (SameOutside (outside_of self.old) (outside_of self.new)) }
        ensures calls { calls_of self.new ≡ calls_of self.old }
    {
        self.files.set(name, bytes)
    }

    /// What the named file holds, or `None` where there is no such file.
    pub fn get(&self, name: &str) -> Option<&[u8]>
        ensures { option_copied result ≡ (outside_of self.now).file name.now }
    {
        self.files.get(name)
    }

    // Takes the memory for the names, before another one is opened: a copy of that one, and one for each count
    // that last rose at the open name.
    fn take_names(&mut self, name: &str) -> Result<String, Memory>
        requires { (outside_of self.old).mode ≡ Closed }

        ensures copy { IfOk result (λ copy. string_bytes copy ≡ name.now) }
        ensures kept { OnOk result ((next : List ℕ) → (faults_with self.new.reading next ≡ (outside_of self.old).reading)
            × (faults_with self.new.writing next ≡ (outside_of self.old).writing)) }
        ensures same { SameOutside (outside_of self.old) (outside_of self.new) }
        ensures files { self.new.files ≡ self.old.files }
        ensures calls { calls_of self.new ≡ calls_of self.old }
    {
        let name = String::from_str(self.alloc, name)?;
        self.reading.keep_name(self.alloc, self.open_name.as_str())?;
        self.writing.keep_name(self.alloc, self.open_name.as_str())?;
        Ok(name)
    }
}

impl Files for MemFiles {
    ghost use Rattle.std.specs.Prelude.{◌≡◌, ◌≢◌, ◌⊎◌, ◌<◌, ◌≤◌, min, None, Some, [], length, take, if◌then◌else◌, is_ok, IsTrue, IsSome, IfOk, OnOk, OnErr, IsErrOf};
    ghost use Rattle.ck_ports.specs.declared.files.Mode.TheVariants.{Closed, Reading, Writing};
    ghost use Rattle.ck_ports.specs.Calls.{IsNextToFail, CallsOnce};
    ghost use Rattle.ck_ports.specs.FaultCount.{raised};
    ghost use Rattle.ck_ports.specs.Faults.{CountsAt, RisesAt};
    ghost use Rattle.ck_ports.specs.Outside.{SameFiles, SameOtherFiles, SameOutside, IsOpened, IsEmptied, ReadsNext, Appends, AppendsPrefix, rest_of};
    ghost use Rattle.ck_ports.specs.MemFiles.{outside_of, calls_of};

    ghost outside = { outside_of };

    fn open_read(&mut self, name: &str) -> Result<(), PortEnd>
        requires { (outside_of self.old).mode ≡ Closed }
        ensures mode { (outside_of self.new).mode ≡ (if is_ok result then Reading else Closed) }
        ensures opened { OnOk result (IsTrue (outside_of self.old).tells → IsOpened name.now (outside_of self.old) (outside_of self.new)) }
        ensures files { SameFiles (outside_of self.old) (outside_of self.new) }
        ensures reading { CountsAt (outside_of self.old).tells name.now (outside_of self.old).reading (outside_of self.new).reading }
        ensures failed { IsErrOf result PortEnd.Failed → RisesAt (outside_of self.old).tells name.now (outside_of self.old).reading (outside_of self.new).reading }
        ensures writing { (outside_of self.new).writing ≡ (outside_of self.old).writing }
        ensures tells { (outside_of self.new).tells ≡ (outside_of self.old).tells }

        // What is known of files in memory besides.
        ensures calls { CallsOnce (calls_of self.old) (calls_of self.new) }
        ensures ok { OnOk result (¬ IsNextToFail (calls_of self.old) × ((outside_of self.new).reading ≡ (outside_of self.old).reading)) }
        ensures cause { IsErrOf result PortEnd.Failed → (IsNextToFail (calls_of self.old) ⊎ ((outside_of self.old).file name.now ≡ None))
            × ((outside_of self.new).reading ≡ raised (outside_of self.old).reading name.now) }
        ensures memory { IsErrOf result PortEnd.Memory → SameOutside (outside_of self.old) (outside_of self.new) }
    {
        let fails = self.calls.next_fails();
        self.open_name = self.take_names(name)?;
        if fails || self.files.get(name).is_none() {
            self.reading.rise();
            return Err(PortEnd::Failed);
        }
        self.mode = Mode::Reading;
        self.place = 0;
        Ok(())
    }

    fn read(&mut self, to: &mut [u8]) -> Result<usize, PortEnd>
        requires mode { (outside_of self.old).mode ≡ Reading }
        requires room { 0 < length to.old }
        ensures within { IfOk result (λ n. n ≤ length to.old) }
        ensures bytes { IfOk result (λ n. IsTrue (outside_of self.old).tells → ReadsNext n to.new (outside_of self.old) (outside_of self.new)) }
        ensures mode { (outside_of self.new).mode ≡ Reading }
        ensures open_name { (outside_of self.new).open_name ≡ (outside_of self.old).open_name }
        ensures files { SameFiles (outside_of self.old) (outside_of self.new) }
        ensures reading { CountsAt (outside_of self.old).tells (outside_of self.old).open_name (outside_of self.old).reading (outside_of self.new).reading }
        ensures failed { IsErrOf result PortEnd.Failed → RisesAt (outside_of self.old).tells (outside_of self.old).open_name (outside_of self.old).reading (outside_of self.new).reading }
        ensures writing { (outside_of self.new).writing ≡ (outside_of self.old).writing }
        ensures tells { (outside_of self.new).tells ≡ (outside_of self.old).tells }

        // What is known of files in memory besides.
        ensures calls { CallsOnce (calls_of self.old) (calls_of self.new) }
        ensures ok { IfOk result (λ n. ¬ IsNextToFail (calls_of self.old) × (n ≡ min (length to.old) (length (rest_of (outside_of self.old))))
            × ((outside_of self.new).reading ≡ (outside_of self.old).reading)) }
        ensures cause { IsErrOf result PortEnd.Failed → IsNextToFail (calls_of self.old)
            × ((outside_of self.new).reading ≡ raised (outside_of self.old).reading (outside_of self.old).open_name)
            × ((outside_of self.new).place ≡ (outside_of self.old).place) }
        ensures memory { IsErrOf result PortEnd.Memory → ⊥ }
    {
        if self.reading.next_fails(&mut self.calls) {
            return Err(PortEnd::Failed);
        }
        let count = self.files.read(self.open_name.as_str(), self.place, to);
        self.place += count;
        Ok(count)
    }

    fn open_write(&mut self, name: &str) -> Result<(), PortEnd>
        requires { (outside_of self.old).mode ≡ Closed }
        ensures mode { (outside_of self.new).mode ≡ (if is_ok result then Writing else Closed) }
        ensures opened { OnOk result (IsTrue (outside_of self.old).tells → IsEmptied name.now (outside_of self.new)) }
        ensures err { OnErr result (IsTrue (outside_of self.old).tells → ((outside_of self.new).file name.now ≡ (outside_of self.old).file name.now) ⊎ ((outside_of self.new).file name.now ≡ Some [])) }
        ensures others { SameOtherFiles name.now (outside_of self.old) (outside_of self.new) }
        ensures writing { CountsAt (outside_of self.old).tells name.now (outside_of self.old).writing (outside_of self.new).writing }
        ensures failed { IsErrOf result PortEnd.Failed → RisesAt (outside_of self.old).tells name.now (outside_of self.old).writing (outside_of self.new).writing }
        ensures reading { (outside_of self.new).reading ≡ (outside_of self.old).reading }
        ensures tells { (outside_of self.new).tells ≡ (outside_of self.old).tells }

        // What is known of files in memory besides.
        ensures calls { CallsOnce (calls_of self.old) (calls_of self.new) }
        ensures ok { OnOk result (¬ IsNextToFail (calls_of self.old) × ((outside_of self.new).writing ≡ (outside_of self.old).writing)) }
        ensures cause { IsErrOf result PortEnd.Failed → IsNextToFail (calls_of self.old)
            × ((outside_of self.new).writing ≡ raised (outside_of self.old).writing name.now)
            × SameFiles (outside_of self.old) (outside_of self.new) }
        ensures memory { IsErrOf result PortEnd.Memory → SameOutside (outside_of self.old) (outside_of self.new) }
    {
        let fails = self.calls.next_fails();
        let open_name = self.take_names(name)?;
        if fails {
            self.open_name = open_name;
            self.writing.rise();
            return Err(PortEnd::Failed);
        }
        self.files.set(name, &[])?;
        self.open_name = open_name;
        self.mode = Mode::Writing;
        Ok(())
    }

    fn write(&mut self, piece: &[u8]) -> Result<usize, PortEnd>
        requires mode { (outside_of self.old).mode ≡ Writing }
        requires some { 0 < length piece.now }
        ensures within { IfOk result (λ n. (1 ≤ n) × (n ≤ length piece.now)) }
        ensures bytes { IfOk result (λ n. IsTrue (outside_of self.old).tells → Appends (take n piece.now) (outside_of self.old) (outside_of self.new)) }
        ensures err { OnErr result (IsTrue (outside_of self.old).tells → AppendsPrefix piece.now (outside_of self.old) (outside_of self.new)) }
        ensures mode { (outside_of self.new).mode ≡ Writing }
        ensures open_name { (outside_of self.new).open_name ≡ (outside_of self.old).open_name }
        ensures others { SameOtherFiles (outside_of self.old).open_name (outside_of self.old) (outside_of self.new) }
        ensures writing { CountsAt (outside_of self.old).tells (outside_of self.old).open_name (outside_of self.old).writing (outside_of self.new).writing }
        ensures failed { IsErrOf result PortEnd.Failed → RisesAt (outside_of self.old).tells (outside_of self.old).open_name (outside_of self.old).writing (outside_of self.new).writing }
        ensures reading { (outside_of self.new).reading ≡ (outside_of self.old).reading }
        ensures tells { (outside_of self.new).tells ≡ (outside_of self.old).tells }

        // What is known of files in memory besides.
        ensures calls { CallsOnce (calls_of self.old) (calls_of self.new) }
        ensures ok { IfOk result (λ n. ¬ IsNextToFail (calls_of self.old) × (n ≡ length piece.now)
            × ((outside_of self.new).writing ≡ (outside_of self.old).writing)) }
        ensures cause { IsErrOf result PortEnd.Failed → IsNextToFail (calls_of self.old)
            × ((outside_of self.new).writing ≡ raised (outside_of self.old).writing (outside_of self.old).open_name)
            × SameFiles (outside_of self.old) (outside_of self.new) }
        ensures memory { IsErrOf result PortEnd.Memory → ¬ IsNextToFail (calls_of self.old) × SameOutside (outside_of self.old) (outside_of self.new) }
    {
        if self.writing.next_fails(&mut self.calls) {
            return Err(PortEnd::Failed);
        }
        self.files.append(self.open_name.as_str(), piece)?;
        Ok(piece.len())
    }

    fn close(&mut self) -> Result<(), PortEnd>
        requires { (outside_of self.old).mode ≢ Closed }
        ensures mode { (outside_of self.new).mode ≡ Closed }
        ensures files { SameFiles (outside_of self.old) (outside_of self.new) }
        ensures reading { CountsAt (outside_of self.old).tells (outside_of self.old).open_name (outside_of self.old).reading (outside_of self.new).reading }
        ensures writing { CountsAt (outside_of self.old).tells (outside_of self.old).open_name (outside_of self.old).writing (outside_of self.new).writing }
        ensures failed_reading { (outside_of self.old).mode ≡ Reading → IsErrOf result PortEnd.Failed → RisesAt (outside_of self.old).tells (outside_of self.old).open_name (outside_of self.old).reading (outside_of self.new).reading }
        ensures failed_writing { (outside_of self.old).mode ≡ Writing → IsErrOf result PortEnd.Failed → RisesAt (outside_of self.old).tells (outside_of self.old).open_name (outside_of self.old).writing (outside_of self.new).writing }
        ensures keeps_writing { (outside_of self.old).mode ≡ Reading → (outside_of self.new).writing ≡ (outside_of self.old).writing }
        ensures keeps_reading { (outside_of self.old).mode ≡ Writing → (outside_of self.new).reading ≡ (outside_of self.old).reading }
        ensures tells { (outside_of self.new).tells ≡ (outside_of self.old).tells }

        // What is known of files in memory besides.
        ensures calls { CallsOnce (calls_of self.old) (calls_of self.new) }
        ensures ok { OnOk result (¬ IsNextToFail (calls_of self.old) × ((outside_of self.new).reading ≡ (outside_of self.old).reading)
            × ((outside_of self.new).writing ≡ (outside_of self.old).writing)) }
        ensures cause { IsErrOf result PortEnd.Failed → IsNextToFail (calls_of self.old) }
        ensures cause_reading { IsErrOf result PortEnd.Failed → (outside_of self.old).mode ≡ Reading → (outside_of self.new).reading ≡ raised (outside_of self.old).reading (outside_of self.old).open_name }
        ensures cause_writing { IsErrOf result PortEnd.Failed → (outside_of self.old).mode ≡ Writing → (outside_of self.new).writing ≡ raised (outside_of self.old).writing (outside_of self.old).open_name }
        ensures memory { IsErrOf result PortEnd.Memory → ⊥ }
    {
        let fails = match self.mode {
            Mode::Reading => self.reading.next_fails(&mut self.calls),
            Mode::Writing => self.writing.next_fails(&mut self.calls),
            Mode::Closed => unreachable!(),
        };
        self.mode = Mode::Closed;
        if fails { Err(PortEnd::Failed) } else { Ok(()) }
    }
}
