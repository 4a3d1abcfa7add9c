//! Why a literal stands for no bytes.

ghost use Rattle.std.specs.Prelude.{◌≡◌};
ghost use Rattle.c_literals.specs.declared.literal_end.LiteralEnd.TheVariants.{Memory};

use std::alloc::{AllocError, AllocFailed};

/// Why a literal stands for no bytes.
#[derive(Clone, Copy, Debug, PartialEq, Eq)]
pub enum LiteralEnd {
    /// The form at this offset in the text is in no table: an unknown escape, one greater than 255, a byte that may not
    /// stand as itself, or a prefix.
    Bad(u32),
    Memory,
}

impl From<AllocError> for LiteralEnd {
    ghost from_gives = { λ _ e. e ≡ Memory };

    fn from(_: AllocError) -> LiteralEnd {
        LiteralEnd::Memory
    }
}

impl<T: Drop> From<AllocFailed<T>> for LiteralEnd {
    ghost from_gives = { λ _ e. e ≡ Memory };

    fn from(_: AllocFailed<T>) -> LiteralEnd {
        LiteralEnd::Memory
    }
}
