//! The sizes of operands, and the operands that lie outside the tables.

ghost use Rattle.std.specs.Prelude.{◌≡◌, ◌&&◌, ◌<◌, ◌∷◌, IfOk, length, find, option_map};
ghost use Rattle.std.specs.List.{list_any};
ghost use Rattle.asm_core.specs.Lists.{optional_at};
ghost use Rattle.asm_core.specs.Constraint.{all_symbols};
ghost use Rattle.asm_core.specs.Size.{alternative_at, tie_allows, alternative_allows, operand_allows, allows_another, allows_memory, size_of_typed, size_of, is_word_size, is_broken_pair, is_broken_word, is_same_size, changes_size, is_ambiguous, is_out_of_range, is_tied_input, has_tied_input, is_output_alone, lets_write_alone, may_be_written_alone, is_wide_output, is_mismatched_output, is_mismatched, is_size_outside, is_sized_outside, is_operand_outside, sizes_of, is_letter_for, is_pair_letter, is_word_letter, ties_to};
ghost use Rattle.asm_core.specs.Interface.{operand_mark, first_operand_mark};

use crate::operand::optional_at;
use crate::symbol_kind::{is_letter_for, is_pair_letter, is_word_letter, ties_to};
use asm_core::{ConstrainedOperand, Items, Kind, Mark, MarkKind, Memory, Operand, Role, Symbol};
use sqlite_items::at;
use std::alloc::Global;

/// The symbols of that alternative, none where the operand has no such alternative.
fn alternative_at(operand: &ConstrainedOperand, a: usize) -> &[Symbol]
    ensures { result.now ≡ alternative_at operand.now a }
{
    match at(operand.alternatives.as_slice(), a) {
        Some(alternative) => alternative.as_slice(),
        None => &[],
    }
}

/// Whether some symbol is a letter that allows the kind.
pub fn has_letter_for(output: bool, kind: Kind, symbols: &[Symbol]) -> bool
    ensures { result ≡ list_any (is_letter_for output kind) symbols.now }
{
    symbols
        .iter()
        .any(|symbol| is_letter_for(output, kind, *symbol))
}

/// Whether some symbol ties to the operand of that number.
fn has_tie_to(number: u8, symbols: &[Symbol]) -> bool
    ensures { result ≡ list_any (ties_to number) symbols.now }
{
    symbols.iter().any(|symbol| ties_to(number, *symbol))
}

#[tactic(auto, unfolding(asm_core::specs::Size::tie_allows))]
fn tie_allows(kind: Kind, a: usize, alternative: &[Symbol], operand: &ConstrainedOperand) -> bool
    ensures { result ≡ tie_allows kind a alternative.now operand.now }
{
    has_tie_to(operand.number, alternative)
        && has_letter_for(operand.output, kind, alternative_at(operand, a))
}

/// Whether some tie of an alternative names an operand that allows the kind there.
fn some_tie_allows(
    operands: &[ConstrainedOperand],
    kind: Kind,
    a: usize,
    alternative: &[Symbol],
) -> bool
    ensures { result ≡ list_any (tie_allows kind a alternative.now) operands.now }
{
    operands
        .iter()
        .any(|operand| tie_allows(kind, a, alternative, operand))
}

/// Whether the alternative allows the kind, by its letters or its ties.
#[tactic(auto, unfolding(asm_core::specs::Size::alternative_allows))]
fn alternative_allows(
    operands: &[ConstrainedOperand],
    output: bool,
    kind: Kind,
    a: usize,
    alternative: &[Symbol],
) -> bool
    ensures { result ≡ alternative_allows operands.now output kind a alternative.now }
{
    has_letter_for(output, kind, alternative) || some_tie_allows(operands, kind, a, alternative)
}

/// Whether some alternative of the operand allows the kind.
#[tactic(auto, unfolding(asm_core::specs::Size::operand_allows))]
fn operand_allows(operands: &[ConstrainedOperand], kind: Kind, operand: &ConstrainedOperand) -> bool
    ensures { result ≡ operand_allows operands.now kind operand.now }
{
    let output = operand.output;
    operand.alternatives.as_slice().iter().enumerate().any(|(a, alternative)| alternative_allows(
        operands,
        output,
        kind,
        a,
        alternative.as_slice(),
    ))
}

/// Whether some letter of the operand is `A`.
fn has_pair_letter(operand: &ConstrainedOperand) -> bool
    ensures { result ≡ list_any is_pair_letter (all_symbols operand.now) }
{
    operand
        .alternatives
        .as_slice()
        .iter()
        .flat_map(|alternative| alternative.as_slice().iter())
        .any(|symbol| is_pair_letter(*symbol))
}

/// Whether some letter of the operand other than `A` allows a register or a number.
fn has_word_letter(operand: &ConstrainedOperand) -> bool
    ensures { result ≡ list_any (is_word_letter operand.now.output) (all_symbols operand.now) }
{
    let output = operand.output;
    operand
        .alternatives
        .as_slice()
        .iter()
        .flat_map(|alternative| alternative.as_slice().iter())
        .any(|symbol| is_word_letter(output, *symbol))
}

/// Whether some tie of the operand names that output.
fn is_tied_to(number: u8, operand: &ConstrainedOperand) -> bool
    ensures { result ≡ list_any (ties_to number) (all_symbols operand.now) }
{
    operand
        .alternatives
        .as_slice()
        .iter()
        .flat_map(|alternative| alternative.as_slice().iter())
        .any(|symbol| ties_to(number, *symbol))
}

fn allows_memory(operands: &[ConstrainedOperand], operand: &ConstrainedOperand) -> bool
    ensures { result ≡ allows_memory operands.now operand.now }
{
    operand_allows(operands, Kind::Memory, operand)
}

/// Whether a register or a number is allowed.
fn allows_another(operands: &[ConstrainedOperand], operand: &ConstrainedOperand) -> bool
    ensures { result ≡ allows_another operands.now operand.now }
{
    operand_allows(operands, Kind::Register, operand)
        || operand_allows(operands, Kind::Number, operand)
}

fn size_of_typed(memory_alone: bool, typed: Option<Operand>) -> Option<u32>
    ensures { result ≡ size_of_typed memory_alone typed }
{
    match typed {
        Some(typed) => { if memory_alone { typed.own } else { typed.value } }
        None => None,
    }
}

/// The bytes of the operand, if its expression has a type with such a size.
#[tactic(auto, unfolding(asm_core::specs::Size::size_of))]
fn size_of(operands: &[ConstrainedOperand], operand: &ConstrainedOperand) -> Option<u32>
    ensures { result ≡ size_of operands.now operand.now }
{
    let memory_alone = allows_memory(operands, operand) && !allows_another(operands, operand);
    size_of_typed(memory_alone, operand.typed)
}

/// The sizes of all operands.
#[tactic(auto, unfolding(asm_core::specs::Size::sizes_of))]
pub fn sizes(alloc: Global, operands: &[ConstrainedOperand]) -> Result<Items<Option<u32>>, Memory>
    ensures { IfOk result (λ made. made ≡ sizes_of operands.now) }
{
    let mut made = Items::new(alloc);
    for operand in operands {
        made.push(size_of(operands, operand))?;
    }
    Ok(made)
}

fn is_word_size(size: u32) -> bool
    ensures { result ≡ is_word_size size }
{
    matches!(size, 1 | 2 | 4)
}

#[tactic(auto, unfolding(asm_core::specs::Size::is_broken_pair))]
fn is_broken_pair(operand: &ConstrainedOperand, size: u32) -> bool
    ensures { result ≡ is_broken_pair operand.now size }
{
    size != 8 && has_pair_letter(operand)
}

#[tactic(auto, unfolding(asm_core::specs::Size::is_broken_word))]
fn is_broken_word(operand: &ConstrainedOperand, size: u32) -> bool
    ensures { result ≡ is_broken_word operand.now size }
{
    !is_word_size(size) && (operand.flag.is_some() || has_word_letter(operand))
}

fn is_same_size(a: Option<u32>, b: Option<u32>) -> bool
    ensures { result ≡ is_same_size a b }
{
    match (a, b) {
        (Some(a), Some(b)) => a == b,
        (None, None) => true,
        _ => false,
    }
}

/// Whether the expression's own type and its value differ in size.
fn changes_size(typed: Option<Operand>) -> bool
    ensures { result ≡ changes_size typed }
{
    match typed {
        Some(typed) => !is_same_size(typed.own, typed.value),
        None => false,
    }
}

#[tactic(auto, unfolding(asm_core::specs::Size::is_ambiguous))]
fn is_ambiguous(operands: &[ConstrainedOperand], operand: &ConstrainedOperand) -> bool
    ensures { result ≡ is_ambiguous operands.now operand.now }
{
    changes_size(operand.typed)
        && allows_memory(operands, operand)
        && allows_another(operands, operand)
}

fn is_out_of_range(size: u32) -> bool
    ensures { result ≡ is_out_of_range size }
{
    size == 0 || size > 65536
}

fn is_tied_input(number: u8, a: usize, operand: &ConstrainedOperand) -> bool
    ensures { result ≡ is_tied_input number a operand.now }
{
    !operand.output && has_tie_to(number, alternative_at(operand, a))
}

/// Whether some input is tied to that output in that alternative.
#[tactic(auto, unfolding(asm_core::specs::Size::has_tied_input))]
fn has_tied_input(operands: &[ConstrainedOperand], number: u8, a: usize) -> bool
    ensures { result ≡ has_tied_input operands.now number a }
{
    operands
        .iter()
        .any(|operand| is_tied_input(number, a, operand))
}

/// Whether an alternative lets the operand be in memory and ties no input to it.
fn lets_write_alone(
    operands: &[ConstrainedOperand],
    number: u8,
    a: usize,
    alternative: &[Symbol],
) -> bool
    ensures { result ≡ lets_write_alone operands.now number a alternative.now }
{
    alternative_allows(operands, true, Kind::Memory, a, alternative)
        && !has_tied_input(operands, number, a)
}

#[tactic(auto, unfolding(asm_core::specs::Size::may_be_written_alone))]
fn may_be_written_alone(operands: &[ConstrainedOperand], operand: &ConstrainedOperand) -> bool
    ensures { result ≡ may_be_written_alone operands.now operand.now }
{
    operand.alternatives.as_slice().iter().enumerate().any(|(a, alternative)| lets_write_alone(
        operands,
        operand.number,
        a,
        alternative.as_slice(),
    ))
}

#[tactic(auto, unfolding(asm_core::specs::Size::is_wide_output))]
fn is_wide_output(operands: &[ConstrainedOperand], operand: &ConstrainedOperand, size: u32) -> bool
    ensures { result ≡ is_wide_output operands.now operand.now size }
{
    size > 64 && matches!(operand.role, Role::Out) && may_be_written_alone(operands, operand)
}

fn is_mismatched_output(
    sizes: &[Option<u32>],
    size: u32,
    operand: &ConstrainedOperand,
    output: &ConstrainedOperand,
) -> bool
    ensures { result ≡ is_mismatched_output sizes.now size operand.now output.now }
{
    !is_same_size(optional_at(sizes, output.number as usize), Some(size))
        && is_tied_to(output.number, operand)
}

/// Whether the operand is tied to an output of another size.
fn has_mismatched_output(
    operands: &[ConstrainedOperand],
    sizes: &[Option<u32>],
    operand: &ConstrainedOperand,
    size: u32,
) -> bool
    ensures { result ≡ list_any (is_mismatched_output sizes.now size operand.now) operands.now }
{
    operands.iter().any(|output| is_mismatched_output(sizes, size, operand, output))
}

#[tactic(auto, unfolding(asm_core::specs::Size::is_mismatched))]
fn is_mismatched(
    operands: &[ConstrainedOperand],
    sizes: &[Option<u32>],
    operand: &ConstrainedOperand,
    size: u32,
) -> bool
    ensures { result ≡ is_mismatched operands.now sizes.now operand.now size }
{
    !operand.output && has_mismatched_output(operands, sizes, operand, size)
}

fn is_size_outside(
    operands: &[ConstrainedOperand],
    sizes: &[Option<u32>],
    operand: &ConstrainedOperand,
    size: u32,
) -> bool
    ensures { result ≡ is_size_outside operands.now sizes.now operand.now size }
{
    is_broken_pair(operand, size)
        || is_broken_word(operand, size)
        || is_ambiguous(operands, operand)
        || is_out_of_range(size)
        || is_wide_output(operands, operand, size)
        || is_mismatched(operands, sizes, operand, size)
}

/// Whether the operand lies outside the tables, given the sizes of all.
#[tactic(auto, unfolding(asm_core::specs::Size::is_operand_outside))]
fn is_operand_outside(
    operands: &[ConstrainedOperand],
    sizes: &[Option<u32>],
    operand: &ConstrainedOperand,
) -> bool
    ensures { result ≡ is_operand_outside operands.now sizes.now operand.now }
{
    match optional_at(sizes, operand.number as usize) {
        Some(size) => is_size_outside(operands, sizes, operand, size),
        None => true,
    }
}

fn operand_mark(operand: &ConstrainedOperand) -> Mark
    ensures { result ≡ operand_mark operand.now }
{
    Mark {
        kind: MarkKind::Operand,
        place: operand.expression,
    }
}

/// The first operand that lies outside the tables.
#[tactic(auto, unfolding(asm_core::specs::Interface::first_operand_mark))]
pub fn first_operand_mark(operands: &[ConstrainedOperand], sizes: &[Option<u32>]) -> Option<Mark>
    requires { sizes.now ≡ sizes_of operands.now }
    ensures { result ≡ first_operand_mark operands.now }
{
    operands
        .iter()
        .find(|operand| is_operand_outside(operands, sizes, operand))
        .map(operand_mark)
}
