use crate::calls::Calls;
use crate::fault::fault;
use crate::{PortEnd, Sink};
use asm_core::Memory;
use std::alloc::Global;

/// A sink in memory, some of whose calls may be told to fail.
#[derive(Drop)]
pub struct MemSink {
    bytes: Vec<u8>,
    calls: Calls,
    faults: u64,
}

impl MemSink {
    ghost use Rattle.std.specs.Prelude.{◌≡◌, [], true, IfOk};
    ghost use Rattle.ck_ports.specs.MemSink.{written_of, calls_of};

    /// An empty sink. The calls of `write` are numbered from 1 on, and those with the numbers `fail` are to fail.
    pub fn new(alloc: Global, fail: &[u64]) -> Result<MemSink, Memory>
        ensures empty { IfOk result (λ sink. written_of sink ≡ record { faults = 0; tells = true; bytes = [] }) }
        ensures calls { IfOk result (λ sink. calls_of sink ≡ record { so_far = 0; failing = fail.now }) }
    {
        Ok(MemSink {
            bytes: Vec::new(alloc),
            calls: Calls::new(alloc, fail)?,
            faults: 0,
        })
    }

    /// What was written.
    pub fn bytes(&self) -> &[u8]
        ensures { result.now ≡ (written_of self.now).bytes }
    {
        &self.bytes
    }
}

impl Sink for MemSink {
    ghost use Rattle.std.specs.Prelude.{◌≡◌, ◌<◌, ◌≤◌, length, take, IsTrue, IfOk, OnErr, IsErrOf};
    ghost use Rattle.ck_ports.specs.Calls.{IsNextToFail, CallsOnce};
    ghost use Rattle.ck_ports.specs.Saturating.{one_more};
    ghost use Rattle.ck_ports.specs.Faults.{Rose};
    ghost use Rattle.ck_ports.specs.Written.{Written, Writes, WritesPrefix};
    ghost use Rattle.ck_ports.specs.MemSink.{written_of, calls_of};

    ghost written = { written_of };

    fn write(&mut self, piece: &[u8]) -> Result<usize, PortEnd>
        requires { 0 < length piece.now }
        ensures within { IfOk result (λ n. (1 ≤ n) × (n ≤ length piece.now)) }
        ensures bytes { IfOk result (λ n. IsTrue (written_of self.old).tells → Writes (take n piece.now) (written_of self.old) (written_of self.new)) }
        ensures err { OnErr result (IsTrue (written_of self.old).tells → WritesPrefix piece.now (written_of self.old) (written_of self.new)) }
        ensures never_falls { (written_of self.old).faults ≤ (written_of self.new).faults }
        ensures failed { IsErrOf result PortEnd.Failed → Rose (written_of self.old).faults (written_of self.new).faults }
        ensures tells { (written_of self.new).tells ≡ (written_of self.old).tells }

        // What is known of a sink in memory besides.
        ensures calls { CallsOnce (calls_of self.old) (calls_of self.new) }
        ensures whole { IfOk result (λ n. ¬ IsNextToFail (calls_of self.old) × (n ≡ length piece.now) × ((written_of self.new).faults ≡ (written_of self.old).faults)) }
        ensures to_fail { IsErrOf result PortEnd.Failed → IsNextToFail (calls_of self.old)
            × (written_of self.new ≡ record (written_of self.old) { faults = one_more (written_of self.old).faults }) }
        ensures memory { IsErrOf result PortEnd.Memory → ¬ IsNextToFail (calls_of self.old) × (written_of self.new ≡ written_of self.old) }
    {
        if self.calls.next_fails() {
            return Err(fault(&mut self.faults));
        }
        self.bytes.extend_from_slice(piece)?;
        Ok(piece.len())
    }
}
