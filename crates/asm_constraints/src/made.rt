//! The interface of a statement all of which lies in the tables.

ghost use Rattle.std.specs.Prelude.{◌≡◌, find, map, replicate, IfOk};
ghost use Rattle.std.specs.List.{list_any};
ghost use Rattle.asm_core.specs.Clobber.{is_cc, is_memory};
ghost use Rattle.asm_core.specs.Size.{is_letter_for, is_pair_letter, sizes_of};
ghost use Rattle.asm_core.specs.Malformed.{is_early};
ghost use Rattle.asm_core.specs.Interface.{letter_bits, symbol_bits, registers_of, symbol_tie, tie_in, is_tied_symbol, tie_of, alternative_of, flag_alternative, size_or_zero, is_pointer, known_in, flag_operand, placed_operand, operand_of, is_flag, has_flag_output, made_of};

use crate::clobber::{clobbered_registers, is_cc, is_memory};
use crate::malformed::alternative_count;
use crate::operand::optional_at;
use crate::range::numbers_of;
use crate::size::has_letter_for;
use crate::symbol_kind::{is_early, is_pair_letter};
use asm_core::{
    AltIface, ConstrainedOperand, Interface, Items, Kind, Letter, Memory, Operand, OperandIface,
    Quoted, RegSet, Symbol,
};
use bitflags::Flags;
use std::alloc::Global;

/// The registers of a letter, as bits in their order.
fn letter_bits(letter: Letter) -> u8
    ensures { result ≡ letter_bits letter }
{
    match letter {
        Letter::One(register) => 1 << register.number(),
        Letter::ByteRegister => 15,
        Letter::AnyRegister | Letter::General => 127,
        _ => 0,
    }
}

fn symbol_bits(symbol: Symbol) -> u8
    ensures { result ≡ symbol_bits symbol }
{
    match symbol {
        Symbol::Letter(letter) => letter_bits(letter),
        _ => 0,
    }
}

/// The registers of the letters.
#[tactic(auto, unfolding(asm_core::specs::Interface::registers_of))]
fn registers_of(alternative: &[Symbol]) -> RegSet
    ensures { result ≡ registers_of alternative.now }
{
    let mut bits = 0;
    for symbol in alternative {
        bits |= symbol_bits(*symbol);
    }
    RegSet::from_bits_retain(bits)
}

fn symbol_tie(symbol: Symbol) -> Option<u8>
    ensures { result ≡ symbol_tie symbol }
{
    match symbol {
        Symbol::Tie(output) => output,
        _ => None,
    }
}

fn is_tied_symbol(symbol: Symbol) -> bool
    ensures { result ≡ is_tied_symbol symbol }
{
    symbol_tie(symbol).is_some()
}

/// The first tie that names an output.
fn first_tie(alternative: &[Symbol]) -> Option<Symbol>
    ensures { result ≡ find is_tied_symbol alternative.now }
{
    alternative
        .iter()
        .copied()
        .find(|symbol| is_tied_symbol(*symbol))
}

/// The output that a tie names.
#[tactic(auto, unfolding(asm_core::specs::Interface::tie_of))]
fn tie_of(alternative: &[Symbol]) -> Option<u8>
    ensures { result ≡ tie_of alternative.now }
{
    match first_tie(alternative) {
        Some(symbol) => symbol_tie(symbol),
        None => None,
    }
}

fn has_early(alternative: &[Symbol]) -> bool
    ensures { result ≡ list_any is_early alternative.now }
{
    alternative.iter().any(|symbol| is_early(*symbol))
}

fn has_pair_letter(alternative: &[Symbol]) -> bool
    ensures { result ≡ list_any is_pair_letter alternative.now }
{
    alternative.iter().any(|symbol| is_pair_letter(*symbol))
}

/// What an alternative allows an operand of that size and known value.
#[tactic(auto, unfolding(asm_core::specs::Interface::alternative_of))]
fn alternative_of(output: bool, size: u32, known: Option<i64>, alternative: &[Symbol]) -> AltIface
    ensures { result ≡ alternative_of output size known alternative.now }
{
    AltIface {
        early: has_early(alternative),
        tied: tie_of(alternative),
        regs: registers_of(alternative),
        pair: has_pair_letter(alternative),
        mem: has_letter_for(output, Kind::Memory, alternative),
        numbers: numbers_of(output, size, known, alternative),
    }
}

/// What each alternative allows an operand of that size and known value.
fn alternatives_of(
    alloc: Global,
    output: bool,
    size: u32,
    known: Option<i64>,
    alternatives: &[Items<Symbol>],
) -> Result<Items<AltIface>, Memory>
    ensures { IfOk result (λ made. made ≡ map (alternative_of output size known) alternatives.now) }
{
    let mut made = Items::new(alloc);
    for alternative in alternatives {
        made.push(alternative_of(output, size, known, alternative.as_slice()))?;
    }
    Ok(made)
}

/// What every alternative allows a flag output.
fn flag_alternative() -> AltIface
    ensures { result ≡ flag_alternative }
{
    AltIface {
        early: false,
        tied: None,
        regs: RegSet::from_bits_retain(0),
        pair: false,
        mem: false,
        numbers: Some((0, 0)),
    }
}

fn flag_alternatives(alloc: Global, count: usize) -> Result<Items<AltIface>, Memory>
    ensures { IfOk result (λ made. made ≡ replicate count flag_alternative) }
{
    let mut made = Items::new(alloc);
    for _k in 0..count {
        made.push(flag_alternative())?;
    }
    Ok(made)
}

fn size_or_zero(size: Option<u32>) -> u32
    ensures { result ≡ size_or_zero size }
{
    match size {
        Some(size) => size,
        None => 0,
    }
}

fn is_pointer(typed: Option<Operand>) -> bool
    ensures { result ≡ is_pointer typed }
{
    match typed {
        Some(typed) => typed.pointer,
        None => false,
    }
}

fn known_in(typed: Option<Operand>) -> Option<i64>
    ensures { result ≡ known_in typed }
{
    match typed {
        Some(typed) => typed.known,
        None => None,
    }
}

fn flag_operand(
    alloc: Global,
    count: usize,
    size: u32,
    operand: &ConstrainedOperand,
) -> Result<OperandIface, Memory>
    ensures { IfOk result (λ made. made ≡ flag_operand count size operand.now) }
{
    Ok(OperandIface {
        role: operand.role,
        size,
        pointer: is_pointer(operand.typed),
        known: Some(0),
        flag: operand.flag,
        alts: flag_alternatives(alloc, count)?,
    })
}

fn placed_operand(
    alloc: Global,
    size: u32,
    operand: &ConstrainedOperand,
) -> Result<OperandIface, Memory>
    ensures { IfOk result (λ made. made ≡ placed_operand size operand.now) }
{
    let known = known_in(operand.typed);
    Ok(OperandIface {
        role: operand.role,
        size,
        pointer: is_pointer(operand.typed),
        known,
        flag: None,
        alts: alternatives_of(
            alloc,
            operand.output,
            size,
            known,
            operand.alternatives.as_slice(),
        )?,
    })
}

/// An operand of a statement of so many alternatives, whose operands have these sizes.
#[tactic(auto, unfolding(asm_core::specs::Interface::operand_of))]
fn operand_of(
    alloc: Global,
    count: usize,
    sizes: &[Option<u32>],
    operand: &ConstrainedOperand,
) -> Result<OperandIface, Memory>
    ensures { IfOk result (λ made. made ≡ operand_of count sizes.now operand.now) }
{
    let size = size_or_zero(optional_at(sizes, operand.number as usize));
    if operand.flag.is_some() {
        flag_operand(alloc, count, size, operand)
    } else {
        placed_operand(alloc, size, operand)
    }
}

fn operands_of(
    alloc: Global,
    count: usize,
    sizes: &[Option<u32>],
    operands: &[ConstrainedOperand],
) -> Result<Items<OperandIface>, Memory>
    ensures { IfOk result (λ made. made ≡ map (operand_of count sizes.now) operands.now) }
{
    let mut made = Items::new(alloc);
    for operand in operands {
        made.push(operand_of(alloc, count, sizes, operand)?)?;
    }
    Ok(made)
}

fn has_cc(clobbers: &[Quoted]) -> bool
    ensures { result ≡ list_any is_cc clobbers.now }
{
    clobbers.iter().any(is_cc)
}

fn has_memory(clobbers: &[Quoted]) -> bool
    ensures { result ≡ list_any is_memory clobbers.now }
{
    clobbers.iter().any(is_memory)
}

fn is_flag(operand: &ConstrainedOperand) -> bool
    ensures { result ≡ is_flag operand.now }
{
    operand.flag.is_some()
}

fn has_flag_output(operands: &[ConstrainedOperand]) -> bool
    ensures { result ≡ has_flag_output operands.now }
{
    operands.iter().any(is_flag)
}

/// The interface; `sizes` are those of the operands.
#[tactic(auto, unfolding(asm_core::specs::Interface::made_of))]
pub fn made_of(
    alloc: Global,
    strict: bool,
    clobbers: &[Quoted],
    operands: &[ConstrainedOperand],
    sizes: &[Option<u32>],
) -> Result<Interface, Memory>
    requires { sizes.now ≡ sizes_of operands.now }
    ensures { IfOk result (λ made. made ≡ made_of strict clobbers.now operands.now) }
{
    let count = alternative_count(operands);
    Ok(Interface {
        operands: operands_of(alloc, count, sizes, operands)?,
        clobbers: clobbered_registers(clobbers),
        cc: has_cc(clobbers) || !strict || has_flag_output(operands),
        memory: has_memory(clobbers),
    })
}
