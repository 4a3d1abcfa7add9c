//! The rule K2: malformed interfaces.

ghost use Rattle.std.specs.Prelude.{◌≡◌, ◌&&◌, ◌<◌, ◌≤◌, ◌++◌, take, length, find, filter, map, IfOk, OnOk};
ghost use Rattle.std.specs.List.{list_any, list_all};
ghost use Rattle.std.specs.Option.{option_copied};
ghost use Rattle.asm_core.specs.Constraint.{all_symbols, has_name};
ghost use Rattle.asm_core.specs.Clobber.{is_clobbered};
ghost use Rattle.asm_core.specs.Malformed.{is_output_mark, is_unsigned_output, is_marked_input, has_own_alternatives, count_of, alternative_count, differs_in_count, is_numbered, is_odd_one, is_stray_tie, has_stray_tie, is_named_before, repeats_name, is_letter_of, is_early_or_letter_of, is_only_letter, is_clobbered_place, lettered_registers, is_clobbered_operand, is_hole_of, is_named_flag, is_malformed, malformed_at, malformed_operand, missing_findings, malformed_findings};

use crate::clobber::is_clobbered;
use crate::operand::is_signed;
use crate::symbol::has_name;
use crate::symbol_kind::{is_early, is_letter_of, is_output_mark, is_stray_tie};
use asm_core::{
    Cell, ConstrainedOperand, Finding, Items, Memory, Piece, Quoted, Reg, Rule, Symbol,
};
use std::alloc::Global;

fn is_unsigned_output(operand: &ConstrainedOperand) -> bool
    ensures { result ≡ is_unsigned_output operand.now }
{
    operand.output && !is_signed(operand.role)
}

/// Whether some symbol of the operand is `=`, `+` or `&`.
fn has_output_mark(operand: &ConstrainedOperand) -> bool
    ensures { result ≡ list_any is_output_mark (all_symbols operand.now) }
{
    operand
        .alternatives
        .as_slice()
        .iter()
        .flat_map(|alternative| alternative.as_slice().iter())
        .any(|symbol| is_output_mark(*symbol))
}

fn is_marked_input(operand: &ConstrainedOperand) -> bool
    ensures { result ≡ is_marked_input operand.now }
{
    !operand.output && has_output_mark(operand)
}

fn has_own_alternatives(operand: &ConstrainedOperand) -> bool
    ensures { result ≡ has_own_alternatives operand.now }
{
    operand.flag.is_none()
}

/// The first operand that is no flag output.
fn first_own(operands: &[ConstrainedOperand]) -> Option<&ConstrainedOperand>
    ensures { option_copied result ≡ find has_own_alternatives operands.now }
{
    operands
        .iter()
        .find(|operand| has_own_alternatives(operand))
}

/// How many alternatives the statement has: those of the first operand that is no flag output, or one.
#[tactic(auto, unfolding(asm_core::specs::Malformed::alternative_count))]
pub fn alternative_count(operands: &[ConstrainedOperand]) -> usize
    ensures { result ≡ alternative_count operands.now }
{
    match first_own(operands) {
        Some(operand) => operand.alternatives.len(),
        None => 1,
    }
}

fn differs_in_count(count: usize, operand: &ConstrainedOperand) -> bool
    ensures { result ≡ differs_in_count count operand.now }
{
    has_own_alternatives(operand) && operand.alternatives.len() != count
}

fn has_stray_tie(operand: &ConstrainedOperand) -> bool
    ensures { result ≡ has_stray_tie operand.now }
{
    let output = operand.output;
    operand
        .alternatives
        .as_slice()
        .iter()
        .flat_map(|alternative| alternative.as_slice().iter())
        .any(|symbol| is_stray_tie(output, *symbol))
}

/// The first operand that is no flag output and has another count of alternatives.
fn first_odd(operands: &[ConstrainedOperand], count: usize) -> Option<&ConstrainedOperand>
    ensures { option_copied result ≡ find (differs_in_count count) operands.now }
{
    operands
        .iter()
        .find(|operand| differs_in_count(count, operand))
}

/// Whether the operand has another count of alternatives than those before it, as the first one.
#[tactic(auto, unfolding(asm_core::specs::Malformed::is_odd_one))]
fn is_odd_one(operands: &[ConstrainedOperand], operand: &ConstrainedOperand) -> bool
    ensures { result ≡ is_odd_one operands.now operand.now }
{
    match first_odd(operands, alternative_count(operands)) {
        Some(odd) => odd.number == operand.number,
        None => false,
    }
}

fn some_has_name(names: &[Option<Items<u8>>], text: &[u8]) -> bool
    ensures { result ≡ list_any (has_name text.now) names.now }
{
    names.iter().any(|name| has_name(text, name))
}

/// Whether some of the names is that of the operand.
fn is_named_before(before: &[Option<Items<u8>>], name: &Option<Items<u8>>) -> bool
    ensures { result ≡ is_named_before before.now name.now }
{
    match name {
        Some(name) => some_has_name(before, name.as_slice()),
        None => false,
    }
}

/// Whether the operand of that number has the name of one before it.
#[tactic(auto, unfolding(asm_core::specs::Malformed::repeats_name))]
fn repeats_name(names: &[Option<Items<u8>>], number: usize) -> bool
    ensures { result ≡ repeats_name names.now number }
{
    if number < names.len() {
        return is_named_before(&names[..number], &names[number]);
    }
    false
}

fn has_letter_of(register: Reg, alternative: &[Symbol]) -> bool
    ensures { result ≡ list_any (is_letter_of register) alternative.now }
{
    alternative
        .iter()
        .any(|symbol| is_letter_of(register, *symbol))
}

/// Whether the symbol is `&` or the letter of that register alone.
fn is_early_or_letter_of(register: Reg, symbol: Symbol) -> bool
    ensures { result ≡ is_early_or_letter_of register symbol }
{
    is_early(symbol) || is_letter_of(register, symbol)
}

fn has_no_other(register: Reg, alternative: &[Symbol]) -> bool
    ensures { result ≡ list_all (is_early_or_letter_of register) alternative.now }
{
    alternative
        .iter()
        .all(|symbol| is_early_or_letter_of(register, *symbol))
}

/// Whether the alternative is the letter of that register and nothing else but `&`.
#[tactic(auto, unfolding(asm_core::specs::Malformed::is_only_letter))]
fn is_only_letter(register: Reg, alternative: &[Symbol]) -> bool
    ensures { result ≡ is_only_letter register alternative.now }
{
    has_letter_of(register, alternative) && has_no_other(register, alternative)
}

fn all_are_only_letters(register: Reg, alternatives: &[Items<Symbol>]) -> bool
    ensures { result ≡ list_all (is_only_letter register) alternatives.now }
{
    alternatives.iter().all(|alternative| is_only_letter(register, alternative.as_slice()))
}

/// Whether the register is clobbered and the operand can be in no other place.
fn is_clobbered_place(clobbers: &[Quoted], operand: &ConstrainedOperand, register: Reg) -> bool
    ensures { result ≡ is_clobbered_place clobbers.now operand.now register }
{
    is_clobbered(clobbers, register)
        && has_own_alternatives(operand)
        && all_are_only_letters(register, operand.alternatives.as_slice())
}

#[tactic(auto, unfolding(asm_core::specs::Malformed::is_clobbered_operand))]
fn is_clobbered_operand(clobbers: &[Quoted], operand: &ConstrainedOperand) -> bool
    ensures { result ≡ is_clobbered_operand clobbers.now operand.now }
{
    [Reg::Eax, Reg::Ebx, Reg::Ecx, Reg::Edx, Reg::Esi, Reg::Edi]
        .iter()
        .any(|register| is_clobbered_place(clobbers, operand, *register))
}

fn is_hole_of(number: u8, piece: Piece) -> bool
    ensures { result ≡ is_hole_of number piece }
{
    match piece {
        Piece::Hole(operand, _, _) => operand == number,
        _ => false,
    }
}

fn has_hole_of(number: u8, pieces: &[Piece]) -> bool
    ensures { result ≡ list_any (is_hole_of number) pieces.now }
{
    pieces.iter().any(|piece| is_hole_of(number, *piece))
}

/// Whether the template names the operand, a flag output.
#[tactic(auto, unfolding(asm_core::specs::Malformed::is_named_flag))]
fn is_named_flag(pieces: &[Piece], operand: &ConstrainedOperand) -> bool
    ensures { result ≡ is_named_flag pieces.now operand.now }
{
    operand.flag.is_some() && has_hole_of(operand.number, pieces)
}

#[tactic(auto, unfolding(asm_core::specs::Malformed::is_malformed))]
fn is_malformed(
    operands: &[ConstrainedOperand],
    names: &[Option<Items<u8>>],
    clobbers: &[Quoted],
    pieces: &[Piece],
    operand: &ConstrainedOperand,
) -> bool
    ensures { result ≡ is_malformed operands.now names.now clobbers.now pieces.now operand.now }
{
    is_unsigned_output(operand)
        || is_marked_input(operand)
        || is_odd_one(operands, operand)
        || has_stray_tie(operand)
        || repeats_name(names, operand.number as usize)
        || is_clobbered_operand(clobbers, operand)
        || is_named_flag(pieces, operand)
}

fn malformed_at(cell: Cell) -> Finding
    ensures { result ≡ malformed_at cell }
{
    Finding {
        rule: Rule::K2,
        line: 0,
        cell,
        other: Cell::Nothing,
    }
}

/// The findings on malformed operands, upwards.
fn operand_findings(
    alloc: Global,
    operands: &[ConstrainedOperand],
    names: &[Option<Items<u8>>],
    clobbers: &[Quoted],
    pieces: &[Piece],
) -> Result<Items<Finding>, Memory>
    ensures { IfOk result (λ made. made ≡ map malformed_operand (filter (is_malformed operands.now names.now clobbers.now pieces.now) operands.now)) }
{
    let mut made = Items::new(alloc);
    for operand in operands {
        if is_malformed(operands, names, clobbers, pieces, operand) {
            made.push(malformed_at(Cell::Operand(operand.number)))?;
        }
    }
    Ok(made)
}

/// The findings of the rule; `missing` says that the template names an operand that is not there.
#[tactic(auto, unfolding(asm_core::specs::Malformed::malformed_findings))]
pub fn malformed_findings(
    alloc: Global,
    operands: &[ConstrainedOperand],
    names: &[Option<Items<u8>>],
    clobbers: &[Quoted],
    pieces: &[Piece],
    missing: bool,
) -> Result<Items<Finding>, Memory>
    ensures { IfOk result (λ made. made ≡ malformed_findings operands.now names.now clobbers.now pieces.now missing) }
{
    let mut made = operand_findings(alloc, operands, names, clobbers, pieces)?;
    if missing {
        made.push(malformed_at(Cell::Nothing))?;
    }
    Ok(made)
}
