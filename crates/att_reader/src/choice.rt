//! Which line of the table of names an instruction has.

ghost use Rattle.std.specs.Prelude.{◌≡◌, [], ◌∷◌, map};
ghost use Rattle.asm_core.specs.Reading.Chosen.{all_stand, allows, allows_cl, allows_label, allows_memory, allows_number, allows_register, class_of, has_suffix, same_width, slice_width, slot_allows, width_bytes};

use asm_core::{Allowed, LineOperand, NameRow, Slice, Slot, Suffixes, Width};

fn width_bytes(width: Width) -> u8
    ensures { result ≡ width_bytes width }
{
    match width {
        Width::B => 1,
        Width::W => 2,
        Width::L => 4,
        Width::Q => 8,
    }
}

fn same_width(v: Width, w: Width) -> bool
    ensures { result ≡ same_width v w }
{
    width_bytes(v) == width_bytes(w)
}

pub fn slice_width(slice: Slice) -> Width
    ensures { result ≡ slice_width slice }
{
    match slice {
        Slice::Low8 | Slice::High8 => Width::B,
        Slice::Low16 => Width::W,
        Slice::All => Width::L,
    }
}

pub fn allows_register(allowed: Allowed) -> bool
    ensures { result ≡ allows_register allowed }
{
    matches!(
        allowed,
        Allowed::Register
            | Allowed::RegisterOrMemory
            | Allowed::RegisterMemoryOrNumber
            | Allowed::RegisterOrNumber
    )
}

fn allows_memory(allowed: Allowed) -> bool
    ensures { result ≡ allows_memory allowed }
{
    matches!(
        allowed,
        Allowed::Memory | Allowed::RegisterOrMemory | Allowed::RegisterMemoryOrNumber
    )
}

fn allows_number(allowed: Allowed) -> bool
    ensures { result ≡ allows_number allowed }
{
    matches!(
        allowed,
        Allowed::Number
            | Allowed::RegisterMemoryOrNumber
            | Allowed::RegisterOrNumber
            | Allowed::Count
    )
}

fn allows_cl(allowed: Allowed) -> bool
    ensures { result ≡ allows_cl allowed }
{
    matches!(allowed, Allowed::Count)
}

fn allows_label(allowed: Allowed) -> bool
    ensures { result ≡ allows_label allowed }
{
    matches!(allowed, Allowed::Label)
}

/// Whether the operand may stand there; a register has that size.
fn allows(allowed: Allowed, width: Width, operand: LineOperand) -> bool
    ensures { result ≡ allows allowed width (class_of operand) }
{
    match operand {
        LineOperand::Register(_, slice, count) => {
            (allows_register(allowed) && same_width(slice_width(slice), width))
                || (allows_cl(allowed) && count)
        }
        LineOperand::Immediate(_) => allows_number(allowed),
        LineOperand::Memory(_, _) | LineOperand::Address(_, _, _) => allows_memory(allowed),
        LineOperand::Label(_) => allows_label(allowed),
    }
}

fn slot_allows(width: Width, slot: Slot, operand: LineOperand) -> bool
    ensures { result ≡ slot_allows width slot (class_of operand) }
{
    match slot.width {
        Some(own) => allows(slot.allowed, own, operand),
        None => allows(slot.allowed, width, operand),
    }
}

/// Whether the sizes of a row have that one.
pub fn has_suffix(suffixes: Suffixes, width: Width) -> bool
    ensures { result ≡ has_suffix suffixes width }
{
    match suffixes {
        Suffixes::None => false,
        Suffixes::B => same_width(width, Width::B),
        Suffixes::L => same_width(width, Width::L),
        Suffixes::Wl => same_width(width, Width::W) || same_width(width, Width::L),
        Suffixes::Bwl => {
            same_width(width, Width::B)
                || (same_width(width, Width::W) || same_width(width, Width::L))
        }
    }
}

/// Whether the operands are as many as the places, and each may stand in its place.
fn last_stands(width: Width, first: Option<Slot>, operands: &[LineOperand]) -> bool
    ensures { result ≡ all_stand width (first ∷ []) (map class_of operands.now) }
{
    let Some(slot) = first else {
        return operands.is_empty();
    };
    match operands {
        [] => false,
        [operand, others @ ..] => slot_allows(width, slot, *operand) && others.is_empty(),
    }
}

fn two_stand(
    width: Width,
    first: Option<Slot>,
    second: Option<Slot>,
    operands: &[LineOperand],
) -> bool
    ensures { result ≡ all_stand width (first ∷ second ∷ []) (map class_of operands.now) }
{
    let Some(slot) = first else {
        return operands.is_empty();
    };
    match operands {
        [] => false,
        [operand, others @ ..] => slot_allows(width, slot, *operand)
            && last_stands(width, second, others),
    }
}

/// Whether the operands are as many as the places of the row, and each may stand in its place.
pub fn all_stand(width: Width, row: &NameRow, operands: &[LineOperand]) -> bool
    ensures { result ≡ all_stand width row.now.slots (map class_of operands.now) }
{
    let [first, second, third] = row.slots;
    let Some(slot) = first else {
        return operands.is_empty();
    };
    match operands {
        [] => false,
        [operand, others @ ..] => slot_allows(width, slot, *operand)
            && two_stand(width, second, third, others),
    }
}
