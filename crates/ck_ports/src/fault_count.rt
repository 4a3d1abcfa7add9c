ghost use Rattle.std.specs.Prelude.{◌≡◌, ◌≤◌, ◌↔◌, ℕ, List, if◌then◌else◌, None, IsTrue, OnOk, OnErr};
ghost use Rattle.ck_ports.specs.Calls.{IsNextToFail, CallsOnce};
ghost use Rattle.ck_ports.specs.FaultCount.{faults_with};
ghost use Rattle.ck_ports.specs.Saturating.{one_more};

use crate::calls::Calls;
use asm_core::Memory;
use std::alloc::Global;

/// How often calls of one kind have failed, and at which name they last did.
#[derive(Drop)]
pub struct FaultCount {
    pub count: u64,
    /// The name of the last fault, or `None` where that is the name that is open.
    pub name: Option<String>,
}

impl FaultCount {
    pub fn new() -> FaultCount
        ensures { result ≡ record { count = 0; name = None } }
    {
        FaultCount {
            count: 0,
            name: None,
        }
    }

    /// Counts a fault at the name that is open, which takes no memory.
    pub fn rise(&mut self)
        ensures risen { self.new ≡ record { count = one_more self.old.count; name = None } }
        ensures never_falls { self.old.count ≤ self.new.count }
    {
        self.count = self.count.saturating_add(1);
        self.name = None;
    }

    /// Makes the next call, and counts a fault at the open name where it is to fail, as it then tells.
    pub fn next_fails(&mut self, calls: &mut Calls) -> bool
        ensures to_fail { IsTrue result ↔ IsNextToFail calls.old }
        ensures once { CallsOnce calls.old calls.new }
        ensures risen { self.new ≡ (if result then record { count = one_more self.old.count; name = None } else self.old) }
        ensures never_falls { self.old.count ≤ self.new.count }
    {
        let fails = calls.next_fails();
        if fails {
            self.rise();
        }
        fails
    }

    /// Takes the memory to keep the name, so that another one may be opened.
    pub fn keep_name(&mut self, alloc: Global, open_name: &str) -> Result<(), Memory>
        ensures ok { OnOk result ((next : List ℕ) → faults_with self.new next ≡ faults_with self.old open_name.now) }
        ensures err { OnErr result (self.new ≡ self.old) }
    {
        if self.name.is_none() {
            self.name = Some(String::from_str(alloc, open_name)?);
        }
        Ok(())
    }
}
