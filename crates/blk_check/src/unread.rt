//! The first instruction that has no reading.

ghost use Rattle.std.specs.Prelude.{◌≡◌, find, option_map, slice_index};
ghost use Rattle.std.specs.Borrow.{Bor};
ghost use Rattle.std.specs.List.{list_all, list_any};
ghost use Rattle.asm_core.specs.Lists.{count_from};
ghost use Rattle.blk_check.specs.Readable.{inst_at, has_none, leaves_out, is_unread, instruction_mark, first_unread};

use asm_core::{Lines, Mark, MarkKind, Sym};

/// The instruction of that number, from 0, if it is read.
pub fn inst_at(n: usize, lines: &Lines) -> Option<&Sym>
    ensures { option_map (λ (s : Bor Sym). s.now) result ≡ inst_at n lines.now }
{
    match lines.insts.get(n) {
        Some(inst) => inst.as_ref(),
        None => None,
    }
}

fn has_none(n: usize, lines: &Lines) -> bool
    ensures { result ≡ has_none n lines.now }
{
    inst_at(n, lines).is_none()
}

fn leaves_out(n: usize, lines: &Lines) -> bool
    ensures { result ≡ leaves_out n lines.now }
{
    lines.left_out.as_slice().iter().any(|k| *k as usize == n)
}

fn all_have_none(readings: &[Lines], n: usize) -> bool
    ensures { result ≡ list_all (has_none n) readings.now }
{
    readings.iter().all(|lines| has_none(n, lines))
}

fn some_leaves_out(readings: &[Lines], n: usize) -> bool
    ensures { result ≡ list_any (leaves_out n) readings.now }
{
    readings.iter().any(|lines| leaves_out(n, lines))
}

/// Whether no shape has a reading of the instruction, or some leaves it out.
fn is_unread(readings: &[Lines], n: usize) -> bool
    ensures { result ≡ is_unread readings.now n }
{
    all_have_none(readings, n) || some_leaves_out(readings, n)
}

fn place_at(lines: &Lines, n: usize) -> u32
    ensures { result ≡ slice_index lines.now.places n }
{
    let places = lines.places.as_slice();
    if n < places.len() { places[n] } else { 0 }
}

fn instruction_mark(lines: &Lines, n: usize) -> Mark
    ensures { result ≡ instruction_mark lines.now n }
{
    Mark {
        kind: MarkKind::Instruction,
        place: place_at(lines, n),
    }
}

#[tactic(auto, using(asm_core::proofs::CountLaws::counted_more, asm_core::proofs::CountLaws::counted_all))]
fn find_unread(readings: &[Lines], first: &Lines) -> Option<usize>
    ensures { result ≡ find (is_unread readings.now) (count_from 0 first.now.insts) }
{
    for (n, _inst) in first.insts.as_slice().iter().enumerate() {
        if is_unread(readings, n) {
            return Some(n);
        }
    }
    None
}

/// The mark of the first instruction that no shape has a reading of, or some leaves out.
#[tactic(auto, unfolding(crate::specs::Readable::first_unread))]
pub fn first_unread(readings: &[Lines]) -> Option<Mark>
    ensures { result ≡ first_unread readings.now }
{
    match readings {
        [] => None,
        [first, ..] => match find_unread(readings, first) {
            Some(n) => Some(instruction_mark(first, n)),
            None => None,
        },
    }
}
