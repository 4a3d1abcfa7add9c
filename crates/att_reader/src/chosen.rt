//! The line of the table of names that an instruction has.

ghost use Rattle.std.specs.Prelude.{◌≡◌, count_by, map, slice_get};
ghost use Rattle.asm_core.specs.Reading.Chosen.{choice_in, choice_of, class_of, first_choice, if_suffix, is_memory, lock_fits, one_prefix, prefixes_fit, register_width, size_in, sized_by, suffix_width};
ghost use Rattle.att_reader.specs.Table.{row_of};

use crate::choice::{all_stand, allows_register, has_suffix, slice_width};
use crate::spelling::op_in;
use crate::table::NameEntry;
use asm_core::{Choice, LineOperand, NameRow, Prefix, Prefixed, Repeat, Slot, Suffixes, Width};

fn is_memory(operand: LineOperand) -> bool
    ensures { result ≡ is_memory (class_of operand) }
{
    matches!(
        operand,
        LineOperand::Memory(_, _) | LineOperand::Address(_, _, _)
    )
}

/// The size of a register in a place that has the instruction's size.
fn sized_by(slot: Slot, operand: LineOperand) -> Option<Width>
    ensures { result ≡ sized_by slot (class_of operand) }
{
    match operand {
        LineOperand::Register(_, slice, _) => {
            if allows_register(slot.allowed) && slot.width.is_none() {
                Some(slice_width(slice))
            } else {
                None
            }
        }
        _ => None,
    }
}

/// The size of the first such register.
fn register_width(slots: &[Option<Slot>], operands: &[LineOperand]) -> Option<Width>
    ensures { result ≡ register_width slots.now (map class_of operands.now) }
{
    let [Some(slot), slots @ ..] = slots else {
        return None;
    };
    let [operand, operands @ ..] = operands else {
        return None;
    };
    match sized_by(*slot, *operand) {
        Some(width) => Some(width),
        None => register_width(slots, operands),
    }
}

fn if_suffix(suffixes: Suffixes, width: Option<Width>) -> Option<Width>
    ensures { result ≡ if_suffix suffixes width }
{
    let width = width?;
    if has_suffix(suffixes, width) {
        Some(width)
    } else {
        None
    }
}

/// The instruction's size: that of the suffix, else that of the row, else that of a register.
fn size_in(row: &NameRow, suffix: Option<Width>, operands: &[LineOperand]) -> Option<Width>
    ensures { result ≡ size_in row.now suffix (map class_of operands.now) }
{
    if suffix.is_some() {
        return if_suffix(row.suffixes, suffix);
    }
    match row.width {
        Some(width) => Some(width),
        None => if_suffix(row.suffixes, register_width(&row.slots, operands)),
    }
}

/// How many of the operands are in memory.
#[tactic(auto, using(crate::proofs::ChosenLemmas::memory_steps))]
fn memory_count(operands: &[LineOperand]) -> usize
    ensures { result ≡ count_by is_memory (map class_of operands.now) }
{
    let mut count = 0;
    for operand in operands {
        count += usize::from(is_memory(*operand));
    }
    count
}

/// The row, where it has the name and may have the operands.
fn choice_in(
    name: &[u8],
    suffix: Option<Width>,
    operands: &[LineOperand],
    row: &NameRow,
) -> Option<Choice>
    ensures { result ≡ choice_in name.now suffix (map class_of operands.now) row.now }
{
    let op = op_in(row, name)?;
    let width = size_in(row, suffix, operands)?;
    if all_stand(width, row, operands) && memory_count(operands) <= 1 {
        Some(Choice {
            row: *row,
            op,
            width,
        })
    } else {
        None
    }
}

#[tactic(auto, using(crate::proofs::ChosenLemmas::choice_steps))]
fn first_choice(
    name: &[u8],
    suffix: Option<Width>,
    operands: &[LineOperand],
    entries: &[NameEntry],
) -> Option<Choice>
    ensures { result ≡ first_choice name.now suffix (map class_of operands.now) (map row_of entries.now) }
{
    for entry in entries {
        if let Some(choice) = choice_in(name, suffix, operands, &entry.row()) {
            return Some(choice);
        }
    }
    None
}

/// `b`, `w`, `l`.
fn suffix_width(code: u8) -> Option<Width>
    ensures { result ≡ suffix_width code }
{
    match code {
        b'b' => Some(Width::B),
        b'w' => Some(Width::W),
        b'l' => Some(Width::L),
        _ => None,
    }
}

/// The first row of the whole name, else of the name with a suffix.
#[tactic(auto, unfolding(asm_core::specs::Reading::Chosen::choice_of))]
pub fn choice_of(entries: &[NameEntry], name: &[u8], operands: &[LineOperand]) -> Option<Choice>
    ensures { result ≡ choice_of (map row_of entries.now) name.now (map class_of operands.now) }
{
    let whole = first_choice(name, None, operands, entries);
    if whole.is_some() || name.is_empty() {
        return whole;
    }
    let stem = name.len() - 1;
    let suffix = suffix_width(name[stem])?;
    first_choice(&name[..stem], Some(suffix), operands, entries)
}

fn operand_at(operands: &[LineOperand], k: usize) -> Option<LineOperand>
    ensures { result ≡ slice_get operands.now k }
{
    operands.get(k).copied()
}

/// Whether the operand that `lock` wants in memory is there.
#[tactic(auto, using(crate::proofs::ChosenLemmas::lock_steps))]
fn lock_fits(lock: Option<u8>, operands: &[LineOperand]) -> bool
    ensures { result ≡ lock_fits lock (map class_of operands.now) }
{
    let Some(k) = lock else {
        return false;
    };
    match operand_at(operands, usize::from(k)) {
        Some(operand) => is_memory(operand),
        None => false,
    }
}

/// What one prefix makes of an instruction of that row.
fn one_prefix(row: &NameRow, operands: &[LineOperand], prefix: Prefix) -> Option<Prefixed>
    ensures { result ≡ one_prefix row.now (map class_of operands.now) prefix }
{
    let (fits, repeat, lock) = match prefix {
        Prefix::Lock => (lock_fits(row.lock, operands), Repeat::No, true),
        Prefix::Rep => (true, row.rep?, false),
        Prefix::Repe => (row.compares, Repeat::Repe, false),
        Prefix::Repne => (row.compares, Repeat::Repne, false),
    };
    if fits {
        Some(Prefixed { repeat, lock })
    } else {
        None
    }
}

/// What the prefixes make of an instruction of that row: at most one may stand before it.
pub fn prefixes_fit(row: &NameRow, operands: &[LineOperand], before: &[Prefix]) -> Option<Prefixed>
    ensures { result ≡ prefixes_fit row.now (map class_of operands.now) before.now }
{
    match before {
        [] => Some(Prefixed {
            repeat: Repeat::No,
            lock: false,
        }),
        [prefix] => one_prefix(row, operands, *prefix),
        _ => None,
    }
}
