//! Why a template has no pieces.

ghost use Rattle.std.specs.Prelude.{◌≡◌};
ghost use Rattle.asm_template.specs.declared.scan_end.ScanEnd.{ScanEnd};
ghost use Rattle.asm_template.specs.Answers.{pieces_end};

use asm_core::{Mark, Memory, PiecesEnd};
use std::alloc::{AllocError, AllocFailed};
use thiserror::Error;

/// Why a template can't be read.
#[derive(Clone, Copy, Debug, Error)]
pub enum ScanEnd {
    /// The leftmost form that is outside the grammar of templates.
    #[error("a template form outside the grammar")]
    Outside(Mark),
    #[error("out of memory")]
    Memory,
}

impl From<Memory> for ScanEnd {
    ghost from_gives = { λ _ e. e ≡ ScanEnd.Memory };

    fn from(_: Memory) -> ScanEnd {
        ScanEnd::Memory
    }
}

impl From<AllocError> for ScanEnd {
    ghost from_gives = { λ _ e. e ≡ ScanEnd.Memory };

    fn from(_: AllocError) -> ScanEnd {
        ScanEnd::Memory
    }
}

impl<T: Drop> From<AllocFailed<T>> for ScanEnd {
    ghost from_gives = { λ _ e. e ≡ ScanEnd.Memory };

    fn from(_: AllocFailed<T>) -> ScanEnd {
        ScanEnd::Memory
    }
}

impl From<ScanEnd> for PiecesEnd {
    ghost from_gives = { λ end e. e ≡ pieces_end end };

    fn from(end: ScanEnd) -> PiecesEnd {
        match end {
            ScanEnd::Outside(mark) => PiecesEnd::Outside(mark),
            ScanEnd::Memory => PiecesEnd::Memory,
        }
    }
}
