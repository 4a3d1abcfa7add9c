ghost use Rattle.std.specs.Prelude.{◌≡◌};
ghost use Rattle.blk_flow.specs.declared.flow_end.FlowEnd.{FlowEnd};

use asm_core::Memory;
use std::alloc::{AllocError, AllocFailed};
use thiserror::Error;

/// Why lines have no graph.
#[derive(Clone, Copy, Debug, PartialEq, Eq, Error)]
pub enum FlowEnd {
    /// The instruction of that number, counted from 0, is the first that jumps to no label.
    #[error("a jump to no label")]
    NoLabel(u32),
    #[error("out of memory")]
    Memory,
}

impl From<Memory> for FlowEnd {
    ghost from_gives = { λ _ e. e ≡ FlowEnd.Memory };

    fn from(_: Memory) -> FlowEnd {
        FlowEnd::Memory
    }
}

impl From<AllocError> for FlowEnd {
    ghost from_gives = { λ _ e. e ≡ FlowEnd.Memory };

    fn from(_: AllocError) -> FlowEnd {
        FlowEnd::Memory
    }
}

impl<T: Drop> From<AllocFailed<T>> for FlowEnd {
    ghost from_gives = { λ _ e. e ≡ FlowEnd.Memory };

    fn from(_: AllocFailed<T>) -> FlowEnd {
        FlowEnd::Memory
    }
}
