ghost use Rattle.std.specs.Prelude.{◌≡◌};
ghost use Rattle.ck_ports.specs.declared.port_end.PortEnd.TheVariants.{Memory};

use std::alloc::{AllocError, AllocFailed};
use thiserror::Error;

/// Why a call of a port did not do what it was asked.
#[derive(Clone, Copy, Debug, PartialEq, Eq, Error)]
pub enum PortEnd {
    /// The outside refused, and counted a fault.
    #[error("the outside refused")]
    Failed,
    #[error("out of memory")]
    Memory,
}

impl From<AllocError> for PortEnd {
    ghost from_gives = { λ _ end. end ≡ Memory };

    fn from(_: AllocError) -> Self {
        PortEnd::Memory
    }
}

impl<T: Drop> From<AllocFailed<T>> for PortEnd {
    ghost from_gives = { λ _ end. end ≡ Memory };

    fn from(_: AllocFailed<T>) -> Self {
        PortEnd::Memory
    }
}

impl From<asm_core::Memory> for PortEnd {
    ghost from_gives = { λ _ end. end ≡ Memory };

    fn from(_: asm_core::Memory) -> Self {
        PortEnd::Memory
    }
}
