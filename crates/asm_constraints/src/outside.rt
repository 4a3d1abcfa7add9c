//! The constraints that lie outside the tables.

ghost use Rattle.std.specs.Prelude.{◌≡◌, ◌&&◌, ◌||◌, not, count_by, find, option_map};
ghost use Rattle.std.specs.List.{list_any};
ghost use Rattle.std.specs.Option.{option_copied};
ghost use Rattle.asm_core.specs.Constraint.{all_symbols};
ghost use Rattle.asm_core.specs.Malformed.{is_letter, is_tie, is_sign, has_other, has_second_sign, says_nothing, has_two_ties, mixes_tie, takes_no_tie, is_bad_tie, has_bad_tie, is_constraint_outside};
ghost use Rattle.asm_core.specs.Interface.{constraint_mark, first_constraint_mark};

use crate::operand::is_signed;
use crate::symbol_kind::{is_letter, is_other, is_sign, is_tie};
use asm_core::{ConstrainedOperand, Items, Mark, MarkKind, Role, Symbol};
use sqlite_items::at;

fn has_other(operand: &ConstrainedOperand) -> bool
    ensures { result ≡ has_other operand.now }
{
    operand
        .alternatives
        .as_slice()
        .iter()
        .flat_map(|alternative| alternative.as_slice().iter())
        .any(|symbol| is_other(*symbol))
}

/// Whether some symbol of the operand is a sign.
fn has_sign(operand: &ConstrainedOperand) -> bool
    ensures { result ≡ list_any is_sign (all_symbols operand.now) }
{
    operand
        .alternatives
        .as_slice()
        .iter()
        .flat_map(|alternative| alternative.as_slice().iter())
        .any(|symbol| is_sign(*symbol))
}

fn has_second_sign(operand: &ConstrainedOperand) -> bool
    ensures { result ≡ has_second_sign operand.now }
{
    is_signed(operand.role) && has_sign(operand)
}

fn tie_count(alternative: &[Symbol]) -> usize
    ensures { result ≡ count_by is_tie alternative.now }
{
    alternative.iter().filter(|symbol| is_tie(**symbol)).count()
}

fn has_tie(alternative: &[Symbol]) -> bool
    ensures { result ≡ list_any is_tie alternative.now }
{
    alternative.iter().any(|symbol| is_tie(*symbol))
}

fn has_letter(alternative: &[Symbol]) -> bool
    ensures { result ≡ list_any is_letter alternative.now }
{
    alternative.iter().any(|symbol| is_letter(*symbol))
}

fn has_two_ties(alternative: &Items<Symbol>) -> bool
    ensures { result ≡ has_two_ties alternative.now }
{
    tie_count(alternative.as_slice()) > 1
}

/// Whether a tie and a letter stand together.
fn mixes_tie(alternative: &Items<Symbol>) -> bool
    ensures { result ≡ mixes_tie alternative.now }
{
    has_tie(alternative.as_slice()) && has_letter(alternative.as_slice())
}

/// Whether neither a letter nor a tie stands there.
fn says_nothing(alternative: &Items<Symbol>) -> bool
    ensures { result ≡ says_nothing alternative.now }
{
    !(has_tie(alternative.as_slice()) || has_letter(alternative.as_slice()))
}

fn some_says_nothing(alternatives: &[Items<Symbol>]) -> bool
    ensures { result ≡ list_any says_nothing alternatives.now }
{
    alternatives.iter().any(says_nothing)
}

fn some_has_two_ties(alternatives: &[Items<Symbol>]) -> bool
    ensures { result ≡ list_any has_two_ties alternatives.now }
{
    alternatives.iter().any(has_two_ties)
}

fn some_mixes_tie(alternatives: &[Items<Symbol>]) -> bool
    ensures { result ≡ list_any mixes_tie alternatives.now }
{
    alternatives.iter().any(mixes_tie)
}

/// Whether no input can be tied to the operand.
fn takes_no_tie(operand: Option<&ConstrainedOperand>) -> bool
    ensures { result ≡ takes_no_tie (option_copied operand.entry) }
{
    match operand {
        Some(operand) => matches!(operand.role, Role::InOut) || operand.flag.is_some(),
        None => false,
    }
}

fn is_bad_tie(operands: &[ConstrainedOperand], symbol: Symbol) -> bool
    ensures { result ≡ is_bad_tie operands.now symbol }
{
    match symbol {
        Symbol::Tie(Some(output)) => takes_no_tie(at(operands, output as usize)),
        _ => false,
    }
}

fn has_bad_tie(operands: &[ConstrainedOperand], operand: &ConstrainedOperand) -> bool
    ensures { result ≡ has_bad_tie operands.now operand.now }
{
    operand
        .alternatives
        .as_slice()
        .iter()
        .flat_map(|alternative| alternative.as_slice().iter())
        .any(|symbol| is_bad_tie(operands, *symbol))
}

#[tactic(auto, unfolding(asm_core::specs::Malformed::is_constraint_outside))]
fn is_constraint_outside(operands: &[ConstrainedOperand], operand: &ConstrainedOperand) -> bool
    ensures { result ≡ is_constraint_outside operands.now operand.now }
{
    has_other(operand)
        || has_second_sign(operand)
        || some_says_nothing(operand.alternatives.as_slice())
        || some_has_two_ties(operand.alternatives.as_slice())
        || some_mixes_tie(operand.alternatives.as_slice())
        || has_bad_tie(operands, operand)
}

fn constraint_mark(operand: &ConstrainedOperand) -> Mark
    ensures { result ≡ constraint_mark operand.now }
{
    Mark {
        kind: MarkKind::Constraint,
        place: operand.constraint,
    }
}

/// The first constraint that lies outside the tables.
#[tactic(auto, unfolding(asm_core::specs::Interface::first_constraint_mark))]
pub fn first_constraint_mark(operands: &[ConstrainedOperand]) -> Option<Mark>
    ensures { result ≡ first_constraint_mark operands.now }
{
    operands
        .iter()
        .find(|operand| is_constraint_outside(operands, operand))
        .map(constraint_mark)
}
