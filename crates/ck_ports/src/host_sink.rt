ghost use Rattle.std.specs.Prelude.{◌≡◌};
ghost use Rattle.ck_ports.specs.HostSink.{host_written};

use crate::fault::fault;
use crate::{PortEnd, Sink};

/// The standard output of the host. It does not tell what was written.
#[derive(Drop)]
pub struct HostSink<'rt, P: Print> {
    out: &'rt P,
    faults: u64,
}

impl<'rt, P: Print> HostSink<'rt, P> {
    /// No fault yet.
    pub fn new(out: &'rt P) -> Self
        ensures { ⟦<HostSink<'rt, P> as Sink>⟧.written result ≡ host_written 0 }
    {
        HostSink { out, faults: 0 }
    }
}

impl<P: Print> Sink for HostSink<'_, P> {
    ghost written = { λ sink. host_written sink.faults };

    fn write(&mut self, piece: &[u8]) -> Result<usize, PortEnd> {
        match self.out.write_some(piece) {
            Ok(0) | Err(_) => Err(fault(&mut self.faults)),
            Ok(count) => Ok(count),
        }
    }
}
