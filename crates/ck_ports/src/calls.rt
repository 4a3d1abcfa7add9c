ghost use Rattle.std.specs.Prelude.{◌≡◌, ◌↔◌, IsTrue, IfOk};
ghost use Rattle.ck_ports.specs.Calls.{IsNextToFail, CallsOnce};

use asm_core::{Items, Memory};
use std::alloc::Global;

/// The calls made on an object in memory, and which of them are to fail.
///
/// They are numbered from 1 on, and the number stays at its greatest value.
#[derive(Drop)]
pub struct Calls {
    pub so_far: u64,
    pub failing: Items<u64>,
}

impl Calls {
    /// No call, of which those with these numbers are to fail.
    pub fn new(alloc: Global, failing: &[u64]) -> Result<Calls, Memory>
        ensures { IfOk result (λ calls. calls ≡ record { so_far = 0; failing = failing.now }) }
    {
        let failing = Items::from_slice(alloc, failing)?;
        Ok(Calls { so_far: 0, failing })
    }

    /// Counts one more call, and tells whether it is to fail.
    pub fn next_fails(&mut self) -> bool
        ensures to_fail { IsTrue result ↔ IsNextToFail self.old }
        ensures once { CallsOnce self.old self.new }
    {
        self.so_far = self.so_far.saturating_add(1);
        self.failing.as_slice().contains(&self.so_far)
    }
}
