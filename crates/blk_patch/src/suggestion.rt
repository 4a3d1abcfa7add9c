//! The items that mend findings.

ghost use Rattle.std.specs.Prelude.{◌≡◌, ◌≤◌, ◌+◌, ◌++◌, length, count_by, slice_get};
ghost use Rattle.std.specs.List.{list_any};
ghost use Rattle.std.specs.Option.{option_copied};
ghost use Rattle.asm_core.specs.Placement.{is_output};
ghost use Rattle.blk_patch.specs.Suggested.{clobber_of, early_of, overwriter_item, or_item, is_in_out, is_tie_to, ties_to, written_in, output_in, may_be_read, plus_of, may_lose_high, byte_in, byte_of, item_of};

use crate::Item;
use crate::letters::has_high_letter;
use asm_core::{Body, Cell, Finding, Interface, OperandIface, Part, Parts, Role, Rule};

/// The most operands that GCC takes, an output that is read too counted twice.
const MOST_OPERANDS: usize = 30;

/// The item that mends a finding of a statement with this interface, if there is one.
#[tactic(auto, unfolding(crate::specs::Suggested::item_of))]
pub fn item_of(body: &Body, interface: &Interface, finding: &Finding) -> Option<Item>
    requires { length interface.now.operands ≤ 30 }
    ensures { result ≡ item_of body.now interface.now finding.now }
{
    match finding.rule {
        Rule::W1 => clobber_of(finding.cell),
        Rule::W3 => Some(Item::Cc),
        Rule::M1 => Some(Item::Memory),
        Rule::R2 => plus_of(interface, finding.cell),
        Rule::U2 => byte_of(body, finding.cell),
        Rule::U3 => overwriter_item(interface, finding.cell, finding.other),
        _ => None,
    }
}

fn clobber_of(cell: Cell) -> Option<Item>
    ensures { result ≡ clobber_of cell }
{
    match cell {
        Cell::Reg(register) => Some(Item::Clobber(register)),
        _ => None,
    }
}

/// Where a place was overwritten, the clobber of its register, or of the other's, or else the output is early.
fn overwriter_item(interface: &Interface, place: Cell, overwritten: Cell) -> Option<Item>
    ensures { result ≡ overwriter_item interface.now place overwritten }
{
    or_item(
        or_item(clobber_of(place), clobber_of(overwritten)),
        early_of(interface, place),
    )
}

fn or_item(first: Option<Item>, second: Option<Item>) -> Option<Item>
    ensures { result ≡ or_item first second }
{
    match first {
        Some(item) => Some(item),
        None => second,
    }
}

fn early_of(interface: &Interface, cell: Cell) -> Option<Item>
    ensures { result ≡ early_of interface.now cell }
{
    match cell {
        Cell::Operand(k) if is_output(interface.operands.get(k as usize)) => Some(Item::Early(k)),
        _ => None,
    }
}

fn is_output(operand: Option<&OperandIface>) -> bool
    ensures { result ≡ output_in (option_copied operand.entry) }
{
    match operand {
        Some(operand) => matches!(operand.role, Role::Out | Role::InOut),
        None => false,
    }
}

fn plus_of(interface: &Interface, cell: Cell) -> Option<Item>
    requires { length interface.now.operands ≤ 30 }
    ensures { result ≡ plus_of interface.now cell }
{
    match cell {
        Cell::Operand(k) if may_be_read(interface, k) => Some(Item::Plus(k)),
        _ => None,
    }
}

/// Whether operand k is an output that may be read too.
fn may_be_read(interface: &Interface, k: u8) -> bool
    requires { length interface.now.operands ≤ 30 }
    ensures { result ≡ may_be_read interface.now k }
{
    is_written(interface.operands.get(k as usize))
        && !is_tied_to(interface, k)
        && operand_count(interface) < MOST_OPERANDS
}

/// Whether some operand is tied to operand k in some alternative.
fn is_tied_to(interface: &Interface, k: u8) -> bool
    ensures { result ≡ list_any (ties_to k) interface.now.operands }
{
    interface
        .operands
        .as_slice()
        .iter()
        .any(|operand| ties_to(k, operand))
}

fn is_written(operand: Option<&OperandIface>) -> bool
    ensures { result ≡ written_in (option_copied operand.entry) }
{
    match operand {
        Some(operand) => matches!(operand.role, Role::Out),
        None => false,
    }
}

fn ties_to(k: u8, operand: &OperandIface) -> bool
    ensures { result ≡ ties_to k operand.now }
{
    operand
        .alts
        .as_slice()
        .iter()
        .any(|alternative| is_tie_to(k, alternative.tied))
}

fn is_tie_to(k: u8, tied: Option<u8>) -> bool
    ensures { result ≡ is_tie_to k tied }
{
    match tied {
        Some(output) => output == k,
        None => false,
    }
}

/// The operands, an output that is read too counted twice.
fn operand_count(interface: &Interface) -> usize
    requires { length interface.now.operands ≤ 30 }
    ensures { result ≡ length interface.now.operands + count_by is_in_out interface.now.operands }
{
    let read = interface
        .operands
        .as_slice()
        .iter()
        .filter(|operand| is_in_out(operand))
        .count();
    interface.operands.len() + read
}

fn is_in_out(operand: &OperandIface) -> bool
    ensures { result ≡ is_in_out operand.now }
{
    matches!(operand.role, Role::InOut)
}

fn byte_of(body: &Body, cell: Cell) -> Option<Item>
    ensures { result ≡ byte_of body.now cell }
{
    match (body, cell) {
        (Body::Parts(parts), Cell::Operand(k)) if may_lose_high(part(parts, k as usize)) => Some(
            Item::Byte(k),
        ),
        _ => None,
    }
}

/// Operand k, outputs first.
fn part(parts: &Parts, k: usize) -> Option<&Part>
    ensures { option_copied result ≡ slice_get (parts.now.outputs ++ parts.now.inputs) k }
{
    let outputs = parts.outputs.len();
    if k < outputs {
        parts.outputs.get(k)
    } else {
        parts.inputs.get(k - outputs)
    }
}

/// Whether the operand's registers without byte names are those of the letter `r` alone.
fn may_lose_high(part: Option<&Part>) -> bool
    ensures { result ≡ may_lose_high (option_copied part.entry) }
{
    match part {
        Some(part) => !has_high_letter(part.constraint.bytes.as_slice()),
        None => false,
    }
}
