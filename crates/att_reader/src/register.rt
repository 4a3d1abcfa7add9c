//! Registers as they are written.

ghost use Rattle.std.specs.Prelude.{◌≡◌};
ghost use Rattle.asm_core.specs.Reading.Operands.{is_cl, whole_register};
ghost use Rattle.asm_core.specs.Reading.Written.{register_named};

use asm_core::{Place, Reg, Slice};

/// The register, or the part of one, of that name (without `%`).
pub fn register_named(text: &[u8]) -> Option<(Reg, Slice)>
    ensures { result ≡ register_named text.now }
{
    match text {
        b"eax" => Some((Reg::Eax, Slice::All)),
        b"ebx" => Some((Reg::Ebx, Slice::All)),
        b"ecx" => Some((Reg::Ecx, Slice::All)),
        b"edx" => Some((Reg::Edx, Slice::All)),
        b"esi" => Some((Reg::Esi, Slice::All)),
        b"edi" => Some((Reg::Edi, Slice::All)),
        b"ebp" => Some((Reg::Ebp, Slice::All)),
        b"ax" => Some((Reg::Eax, Slice::Low16)),
        b"bx" => Some((Reg::Ebx, Slice::Low16)),
        b"cx" => Some((Reg::Ecx, Slice::Low16)),
        b"dx" => Some((Reg::Edx, Slice::Low16)),
        b"si" => Some((Reg::Esi, Slice::Low16)),
        b"di" => Some((Reg::Edi, Slice::Low16)),
        b"bp" => Some((Reg::Ebp, Slice::Low16)),
        b"al" => Some((Reg::Eax, Slice::Low8)),
        b"bl" => Some((Reg::Ebx, Slice::Low8)),
        b"cl" => Some((Reg::Ecx, Slice::Low8)),
        b"dl" => Some((Reg::Edx, Slice::Low8)),
        b"ah" => Some((Reg::Eax, Slice::High8)),
        b"bh" => Some((Reg::Ebx, Slice::High8)),
        b"ch" => Some((Reg::Ecx, Slice::High8)),
        b"dh" => Some((Reg::Edx, Slice::High8)),
        _ => None,
    }
}

/// Whether it is `%cl`, which may be the count of a shift.
pub fn is_cl(register: (Reg, Slice)) -> bool
    ensures { result ≡ is_cl register }
{
    matches!(register, (Reg::Ecx, Slice::Low8))
}

/// A 32-bit register as a place.
pub fn whole_register(register: Option<(Reg, Slice)>) -> Option<Place>
    ensures { result ≡ whole_register register }
{
    match register {
        Some((register, Slice::All)) => Some(Place::Reg(register)),
        _ => None,
    }
}
