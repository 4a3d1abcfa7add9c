//! Why an expression has no type.

ghost use Rattle.std.specs.Prelude.{◌≡◌};
ghost use Rattle.c_values.specs.declared.type_end.TypeEnd.TheVariants.{Memory as NoMemory};

use asm_core::Memory;
use std::alloc::AllocError;

/// Why an expression has no type.
#[derive(Clone, Copy, Debug, PartialEq, Eq)]
pub enum TypeEnd {
    /// C gives it none, or this project's profile doesn't know it.
    NoType,
    Memory,
}

impl From<Memory> for TypeEnd {
    ghost from_gives = { λ _ e. e ≡ NoMemory };

    fn from(_: Memory) -> TypeEnd {
        TypeEnd::Memory
    }
}

impl From<AllocError> for TypeEnd {
    ghost from_gives = { λ _ e. e ≡ NoMemory };

    fn from(_: AllocError) -> TypeEnd {
        TypeEnd::Memory
    }
}
