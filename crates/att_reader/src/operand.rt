//! The operands of an instruction.

ghost use Rattle.std.specs.Prelude.{◌≡◌, ◌≤◌, false, length, IfOk};
ghost use Rattle.asm_core.specs.Reading.Operands.{all_some, comma_outside, operand_of, operands_of, register_operand, written_operand};
ghost use Rattle.att_reader.specs.Text.{IsText, goals_of, is_comma, is_inside, operand_len};

use crate::address::{address_of, disp_in, hole_of};
use crate::goals::Goals;
use crate::register::{is_cl, register_named};
use crate::text::Text;
use asm_core::{Items, Leaf, LineOperand, Memory, Place, Reg, Slice};
use std::alloc::Global;

fn register_operand(register: Option<(Reg, Slice)>) -> Option<LineOperand>
    ensures { result ≡ register_operand register }
{
    let register = register?;
    Some(LineOperand::Register(Place::Reg(register.0), register.1, is_cl(register)))
}

/// `$` and a number, `%` and a register, a label, or an address.
#[tactic(auto, unfolding(asm_core::specs::Reading::Operands::written_operand))]
fn written_operand(goals: &Goals<'_>, text: Text<'_>) -> Option<LineOperand>
    requires { IsText text }
    ensures { result ≡ written_operand (goals_of goals.now) text.entry.atoms.now }
{
    match text.codes {
        [b'$', ..] => disp_in(text.rest(1)).map(LineOperand::Immediate),
        [b'%', name @ ..] => register_operand(register_named(name)),
        _ => {
            match goals.of(text.codes) {
                Some(goal) => Some(LineOperand::Label(goal)),
                None => address_of(text),
            }
        }
    }
}

/// An operand: what a hole stands for, or what is written.
#[tactic(auto, unfolding(asm_core::specs::Reading::Operands::operand_of))]
fn operand_of(goals: &Goals<'_>, text: Text<'_>) -> Option<LineOperand>
    requires { IsText text }
    ensures { result ≡ operand_of (goals_of goals.now) text.entry.atoms.now }
{
    match hole_of(text) {
        Leaf::Nothing => written_operand(goals, text),
        Leaf::Register(place, slice, count) => Some(LineOperand::Register(place, slice, count)),
        Leaf::Immediate(disp) => Some(LineOperand::Immediate(disp)),
        Leaf::Bare(disp, _) => Some(LineOperand::Address(disp, None, None)),
        Leaf::Memory(k, form) => Some(LineOperand::Memory(k, form)),
        Leaf::Nameless => None,
    }
}

/// Whether what follows the code is in parentheses.
fn is_inside(inside: bool, code: u8) -> bool
    ensures { result ≡ is_inside inside code }
{
    match code {
        b'(' => true,
        b')' => false,
        _ => inside,
    }
}

/// Whether it is a comma outside parentheses.
fn is_comma(inside: bool, code: u8) -> bool
    ensures { result ≡ is_comma inside code }
{
    code == b',' && !inside
}

/// How many codes stand before the first comma outside parentheses.
#[tactic(auto, using(crate::proofs::OperandLemmas::comma_steps))]
fn comma_outside(codes: &[u8]) -> usize
    ensures is { result ≡ comma_outside false codes.now }
    ensures within { result ≤ length codes.now }
{
    let mut inside = false;
    let mut i = 0;
    while i < codes.len() {
        if is_comma(inside, codes[i]) {
            return i;
        }
        inside = is_inside(inside, codes[i]);
        i += 1;
    }
    i
}

/// How many elements stand before that comma.
#[tactic(auto, using(crate::proofs::TextLemmas::text_steps), unfolding(crate::specs::Text::operand_len),)]
fn operand_len(text: Text<'_>) -> usize
    requires { IsText text }
    ensures is { result ≡ operand_len text.entry.atoms.now }
    ensures within { result ≤ length text.entry.codes.now }
{
    comma_outside(text.codes)
}

/// No instruction has more operands.
const MOST_OPERANDS: usize = 3;

/// The operands as they are written, from first to last: `None` where one of them has no reading, or where there are
/// more than three.
#[tactic(auto, using(crate::proofs::OperandLemmas::operand_steps))]
pub fn operands_of(
    alloc: Global,
    goals: &Goals<'_>,
    text: Text<'_>,
) -> Result<Option<Items<LineOperand>>, Memory>
    requires { IsText text }
    ensures { IfOk result (λ operands. operands ≡ all_some (operands_of (goals_of goals.now) text.entry.atoms.now)) }
{
    let mut operands = Items::new(alloc);
    if text.is_empty() {
        return Ok(Some(operands));
    }
    let mut rest = text;
    let mut left = MOST_OPERANDS;
    while left > 0 {
        left -= 1;
        let comma = operand_len(rest);
        let Some(operand) = operand_of(goals, rest.front(comma).trimmed()) else {
            return Ok(None);
        };
        operands.push(operand)?;
        if comma == rest.len() {
            return Ok(Some(operands));
        }
        rest = rest.rest(comma + 1);
    }
    Ok(None)
}
