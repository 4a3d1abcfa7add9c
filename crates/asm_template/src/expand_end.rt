//! Why a template has no text under a placement.

ghost use Rattle.std.specs.Prelude.{◌≡◌};
ghost use Rattle.asm_template.specs.declared.expand_end.ExpandEnd.{ExpandEnd};

use asm_core::Memory;
use std::alloc::{AllocError, AllocFailed};
use thiserror::Error;

/// Why a template has no text under a placement.
#[derive(Clone, Copy, Debug, Error)]
pub enum ExpandEnd {
    /// The first operand outside comments that has no such name where it is placed.
    #[error("operand {0} has no such name there")]
    NoName(u8),
    #[error("out of memory")]
    Memory,
}

impl From<Memory> for ExpandEnd {
    ghost from_gives = { λ _ e. e ≡ ExpandEnd.Memory };

    fn from(_: Memory) -> ExpandEnd {
        ExpandEnd::Memory
    }
}

impl From<AllocError> for ExpandEnd {
    ghost from_gives = { λ _ e. e ≡ ExpandEnd.Memory };

    fn from(_: AllocError) -> ExpandEnd {
        ExpandEnd::Memory
    }
}

impl<T: Drop> From<AllocFailed<T>> for ExpandEnd {
    ghost from_gives = { λ _ e. e ≡ ExpandEnd.Memory };

    fn from(_: AllocFailed<T>) -> ExpandEnd {
        ExpandEnd::Memory
    }
}
