//! An instruction's reading.

ghost use Rattle.std.specs.Prelude.{◌≡◌, ◌≤◌, ◌++◌, length, map, IfOk, OnOk};
ghost use Rattle.asm_core.specs.Reading.Line.{arg_of, label_in, line_of, line_of_operands, line_with, name_len, sym_of, target_in};
ghost use Rattle.asm_core.specs.Reading.Names.{names};
ghost use Rattle.att_reader.specs.Table.{line_by, row_of};
ghost use Rattle.att_reader.specs.Text.{IsText, goals_of};

use crate::chosen::{choice_of, prefixes_fit};
use crate::code::{is_blank, is_word};
use crate::goals::Goals;
use crate::operand::operands_of;
use crate::table::{NAMES, NameEntry};
use crate::text::Text;
use asm_core::{
    Arg, Args, Choice, Disp, Items, JumpTarget, Line, LineOperand, Memory, Prefix, Prefixed,
    Reading, Sym,
};
use std::alloc::Global;

/// How many codes the name at the beginning has.
pub fn name_len(codes: &[u8]) -> usize
    ensures is { result ≡ name_len codes.now }
    ensures within { result ≤ length codes.now }
{
    codes.iter().take_while(|code| is_word(**code)).count()
}

fn line_with(
    choice: Choice,
    operands: Items<LineOperand>,
    place: u32,
    prefixed: Option<Prefixed>,
) -> Reading
    ensures { result ≡ line_with choice operands place prefixed }
{
    let Some(prefixed) = prefixed else {
        return Reading::Unread;
    };
    if choice.row.left_out {
        return Reading::LeftOut;
    }
    Reading::Read(Line {
        op: choice.op,
        width: choice.width,
        operands,
        repeat: prefixed.repeat,
        lock: prefixed.lock,
        place,
    })
}

/// The line with its operands, by the row that their classes choose.
fn line_of_operands(
    entries: &[NameEntry],
    before: &[Prefix],
    name: &[u8],
    place: u32,
    operands: Option<Items<LineOperand>>,
) -> Reading
    ensures { result ≡ line_of_operands (map row_of entries.now) before.now name.now place operands }
{
    let Some(operands) = operands else {
        return Reading::Unread;
    };
    let Some(choice) = choice_of(entries, name, operands.as_slice()) else {
        return Reading::Unread;
    };
    let prefixed = prefixes_fit(&choice.row, operands.as_slice(), before);
    line_with(choice, operands, place, prefixed)
}

/// The reading by those rows. A blank stands between the name and its operands.
#[tactic(auto, unfolding(asm_core::specs::Reading::Line::line_of, asm_core::specs::Reading::Line::line_at),)]
fn read_line(
    alloc: Global,
    entries: &[NameEntry],
    goals: &Goals<'_>,
    before: &[Prefix],
    place: u32,
    body: Text<'_>,
) -> Result<Reading, Memory>
    requires { IsText body }
    ensures { IfOk result (λ r. r ≡ line_by entries.now (goals_of goals.now) before.now place body.entry.atoms.now) }
{
    let len = name_len(body.codes);
    if len < body.len() && !is_blank(body.codes[len]) {
        return Ok(Reading::Unread);
    }
    let operands = operands_of(alloc, goals, body.rest(len).trimmed())?;
    Ok(line_of_operands(entries, before, &body.codes[..len], place, operands))
}

/// The reading of an instruction with those prefixes. `place` is the offset in the file of its first byte, and `body`
/// what stands behind the prefixes.
#[tactic(auto, using(crate::proofs::LineLemmas::table_steps))]
pub fn line_of(
    alloc: Global,
    goals: &Goals<'_>,
    before: &[Prefix],
    place: u32,
    body: Text<'_>,
) -> Result<Reading, Memory>
    requires { IsText body }
    ensures { IfOk result (λ r. r ≡ line_of names (goals_of goals.now) before.now place body.entry.atoms.now) }
{
    read_line(alloc, &NAMES, goals, before, place, body)
}

/// The operand before any placement. A label that isn't there has the number `count`.
fn arg_of(count: u32, operand: LineOperand) -> Arg
    ensures { result ≡ arg_of count operand }
{
    match operand {
        LineOperand::Register(place, slice, _) => Arg::Register(place, slice),
        LineOperand::Immediate(Disp::Number(n)) => Arg::Number(n),
        LineOperand::Immediate(Disp::Hole(k)) => Arg::Hole(k),
        LineOperand::Memory(k, _) => Arg::Memory(k),
        LineOperand::Address(disp, base, index) => Arg::Address(disp, base, index),
        LineOperand::Label(goal) => Arg::Label(goal.unwrap_or(count)),
    }
}

/// The instruction before any placement. A label that isn't there has the number `count`, which is that of all
/// instructions.
#[tactic(auto, using(std::proofs::lemmas::List::map_more))]
pub fn sym_of(alloc: Global, count: u32, line: &Line) -> Result<Sym, Memory>
    ensures { IfOk result (λ sym. sym ≡ sym_of count line.now) }
{
    let mut args = Args::new(alloc);
    for operand in line.operands.as_slice() {
        args.push(arg_of(count, *operand))?;
    }
    Ok(Sym {
        op: line.op,
        width: line.width,
        args,
        repeat: line.repeat,
        lock: line.lock,
        place: line.place,
    })
}

/// Where the operand jumps, if it is a label.
fn label_in(operand: LineOperand) -> Option<Option<u32>>
    ensures { result ≡ label_in operand }
{
    match operand {
        LineOperand::Label(goal) => Some(goal),
        _ => None,
    }
}

/// Puts the targets of the instruction of that number behind those that are there.
#[tactic(auto, using(crate::proofs::LineLemmas::target_steps))]
pub fn push_targets(targets: &mut Vec<JumpTarget>, inst: u32, line: &Line) -> Result<(), Memory>
    ensures { OnOk result (targets.new.items ≡ targets.old.items ++ target_in inst line.now.operands) }
{
    for operand in line.operands.as_slice() {
        if let Some(goal) = label_in(*operand) {
            targets.push(JumpTarget { inst, goal })?;
        }
    }
    Ok(())
}
