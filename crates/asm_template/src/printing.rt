//! How operands are printed (GCC manual, "x86 Operand Modifiers").

ghost use Rattle.std.specs.Prelude.{◌≡◌, IfOk};
ghost use Rattle.std.specs.Option.{option_map};
ghost use Rattle.std.specs.String.{string_bytes};
ghost use Rattle.asm_core.specs.Expansion.{memory_text, name_of, number_text, operand_text, printed, register_text};

use asm_core::{Base, Form, Interface, Modifier, Placement, Reg, Slice, Spot};
use sqlite_items::at;
use std::alloc::{AllocError, Global};
use std::fmt;

/// A base register.
#[derive(Clone, Copy)]
struct BaseText(Base);

impl fmt::Display for BaseText {
    ghost use Rattle.std.specs.Prelude.{Some};
    ghost use Rattle.asm_core.specs.Expansion.{base_text};

    ghost output = { λ b. Some (base_text b.0) };

    fn fmt<W: fmt::Write>(&self, f: &mut fmt::Formatter<W>) -> fmt::Result {
        match self.0 {
            Base::Esp => f.write_str("%esp"),
            Base::Reg(register) => write!(f, "%{register}"),
        }
    }
}

/// The registers of an address: `base`, `base,index,scale` or `,index,scale`.
#[derive(Clone, Copy)]
struct RegistersText {
    base: Option<Base>,
    index: Option<(Reg, u8)>,
}

impl fmt::Display for RegistersText {
    ghost use Rattle.std.specs.Prelude.{Some};
    ghost use Rattle.asm_core.specs.Expansion.{registers_text};

    ghost output = { λ r. Some (registers_text r.base r.index) };

    fn fmt<W: fmt::Write>(&self, f: &mut fmt::Formatter<W>) -> fmt::Result {
        match (self.base, self.index) {
            (None, None) => Ok(()),
            (Some(base), None) => write!(f, "{}", BaseText(base)),
            (None, Some((index, scale))) => write!(f, ",%{index},{scale}"),
            (Some(base), Some((index, scale))) => {
                write!(f, "{},%{index},{scale}", BaseText(base))
            }
        }
    }
}

/// A displacement before registers: nothing where it is 0.
#[derive(Clone, Copy)]
struct DispText(i64);

impl fmt::Display for DispText {
    ghost use Rattle.std.specs.Prelude.{Some};
    ghost use Rattle.asm_core.specs.Expansion.{disp_text};

    ghost output = { λ d. Some (disp_text d.0) };

    fn fmt<W: fmt::Write>(&self, f: &mut fmt::Formatter<W>) -> fmt::Result {
        match self.0 {
            0 => Ok(()),
            disp => write!(f, "{disp}"),
        }
    }
}

/// An address.
#[derive(Clone, Copy)]
struct FormText(Form);

impl fmt::Display for FormText {
    ghost use Rattle.std.specs.Prelude.{Some};
    ghost use Rattle.asm_core.specs.Expansion.{form_text};

    ghost output = { λ t. Some (form_text t.0) };

    fn fmt<W: fmt::Write>(&self, f: &mut fmt::Formatter<W>) -> fmt::Result {
        let Form { disp, base, index } = self.0;
        match (base, index) {
            (None, None) => write!(f, "{disp}"),
            (base, index) => write!(f, "{}({})", DispText(disp), RegistersText { base, index }),
        }
    }
}

/// The name of a part of a register, without `%`. The bytes of esi, edi and ebp have none.
fn name_of(register: Reg, slice: Slice) -> Option<&'static str>
    ensures { option_map (λ name. name.now) result ≡ name_of register slice }
{
    match (slice, register) {
        (Slice::All, Reg::Eax) => Some("eax"),
        (Slice::All, Reg::Ebx) => Some("ebx"),
        (Slice::All, Reg::Ecx) => Some("ecx"),
        (Slice::All, Reg::Edx) => Some("edx"),
        (Slice::All, Reg::Esi) => Some("esi"),
        (Slice::All, Reg::Edi) => Some("edi"),
        (Slice::All, Reg::Ebp) => Some("ebp"),
        (Slice::Low16, Reg::Eax) => Some("ax"),
        (Slice::Low16, Reg::Ebx) => Some("bx"),
        (Slice::Low16, Reg::Ecx) => Some("cx"),
        (Slice::Low16, Reg::Edx) => Some("dx"),
        (Slice::Low16, Reg::Esi) => Some("si"),
        (Slice::Low16, Reg::Edi) => Some("di"),
        (Slice::Low16, Reg::Ebp) => Some("bp"),
        (Slice::Low8, Reg::Eax) => Some("al"),
        (Slice::Low8, Reg::Ebx) => Some("bl"),
        (Slice::Low8, Reg::Ecx) => Some("cl"),
        (Slice::Low8, Reg::Edx) => Some("dl"),
        (Slice::High8, Reg::Eax) => Some("ah"),
        (Slice::High8, Reg::Ebx) => Some("bh"),
        (Slice::High8, Reg::Ecx) => Some("ch"),
        (Slice::High8, Reg::Edx) => Some("dh"),
        (Slice::Low8 | Slice::High8, Reg::Esi | Reg::Edi | Reg::Ebp) => None,
    }
}

/// A register, of which the part has a name.
fn register_text(
    alloc: Global,
    register: Reg,
    slice: Option<Slice>,
) -> Result<Option<String>, AllocError>
    ensures { IfOk result (λ text. option_map string_bytes text ≡ register_text register slice) }
{
    let Some(slice) = slice else {
        return Ok(None);
    };
    match name_of(register, slice) {
        Some(name) => Ok(Some(format!(in alloc; "%{name}")?)),
        None => Ok(None),
    }
}

/// A number, behind `$` but with `c`.
fn number_text(alloc: Global, number: i64, modifier: Modifier) -> Result<Option<String>, AllocError>
    ensures { IfOk result (λ text. option_map string_bytes text ≡ number_text number modifier) }
{
    match modifier {
        Modifier::H => Ok(None),
        Modifier::C => Ok(Some(format!(in alloc; "{number}")?)),
        Modifier::Plain | Modifier::B | Modifier::W | Modifier::K => {
            Ok(Some(format!(in alloc; "${number}")?))
        }
    }
}

/// An address, alike with `b`, `w` and `k`.
fn memory_text(alloc: Global, form: Form, modifier: Modifier) -> Result<Option<String>, AllocError>
    ensures { IfOk result (λ text. option_map string_bytes text ≡ memory_text form modifier) }
{
    match modifier {
        Modifier::H | Modifier::C => Ok(None),
        Modifier::Plain | Modifier::B | Modifier::W | Modifier::K => {
            Ok(Some(format!(in alloc; "{}", FormText(form))?))
        }
    }
}

/// An operand of so many bytes; the pair as eax.
fn printed(
    alloc: Global,
    size: u32,
    modifier: Modifier,
    spot: Spot,
) -> Result<Option<String>, AllocError>
    ensures { IfOk result (λ text. option_map string_bytes text ≡ printed size modifier spot) }
{
    match spot {
        Spot::Register(register) => register_text(alloc, register, modifier.slice(size)),
        Spot::Pair => register_text(alloc, Reg::Eax, modifier.slice(size)),
        Spot::Number(number) => number_text(alloc, number, modifier),
        Spot::Memory(form) => memory_text(alloc, form, modifier),
    }
}

/// Operand `k` under a placement; none where it has no such name.
pub fn operand_text(
    alloc: Global,
    interface: &Interface,
    placement: &Placement,
    k: u8,
    modifier: Modifier,
) -> Result<Option<String>, AllocError>
    ensures { IfOk result (λ text. option_map string_bytes text ≡ operand_text interface.now placement.now k modifier) }
{
    match at(interface.operands.as_slice(), usize::from(k)) {
        Some(operand) => printed(alloc, operand.size, modifier, placement.spot(k)),
        None => Ok(None),
    }
}
