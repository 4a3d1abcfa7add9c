//! Why a statement has no parts.

ghost use Rattle.std.specs.Prelude.{◌≡◌};
ghost use Rattle.asm_statement.specs.declared.form_end.FormEnd.TheVariants.{Memory as NoMemory};

use asm_core::Memory;
use std::alloc::{AllocError, AllocFailed};

/// Why a statement has no parts.
#[derive(Clone, Copy)]
pub enum FormEnd {
    /// It is of another form than the profile's.
    OtherForm,
    Memory,
}

impl From<Memory> for FormEnd {
    ghost from_gives = { λ _ e. e ≡ NoMemory };

    fn from(_: Memory) -> FormEnd {
        FormEnd::Memory
    }
}

impl From<AllocError> for FormEnd {
    ghost from_gives = { λ _ e. e ≡ NoMemory };

    fn from(_: AllocError) -> FormEnd {
        FormEnd::Memory
    }
}
