//! What may be broken in a block, in the order of reports.

ghost use Rattle.std.specs.Prelude.{◌≡◌, ◌++◌, map, slice_get, IfOk, OnOk};
ghost use Rattle.asm_core.specs.WellFormed.{IsInterface};
ghost use Rattle.blk_deps.specs.Findings.{alone, place_names, pairs_of, violations_of, stack_violations};
ghost use Rattle.blk_deps.specs.Listing.{paired, changes_of, reads_of, uses_of, is_of_pair, AreOfPairs};
ghost use Rattle.blk_deps.specs.Operands.{numbers_in};

use crate::Violation;
use asm_core::{Cell, Flag, Interface, Items, Memory, Reg, Rule};
use std::alloc::Global;

const REGISTERS: [Cell; 7] = [
    Cell::Reg(Reg::Eax),
    Cell::Reg(Reg::Ebx),
    Cell::Reg(Reg::Ecx),
    Cell::Reg(Reg::Edx),
    Cell::Reg(Reg::Esi),
    Cell::Reg(Reg::Edi),
    Cell::Reg(Reg::Ebp),
];

const FLAGS: [Cell; 6] = [
    Cell::Flag(Flag::Cf),
    Cell::Flag(Flag::Pf),
    Cell::Flag(Flag::Af),
    Cell::Flag(Flag::Zf),
    Cell::Flag(Flag::Sf),
    Cell::Flag(Flag::Of),
];

fn alone(rule: Rule, cell: Cell) -> Violation
    ensures { result ≡ alone rule cell }
{
    Violation {
        rule,
        cell,
        other: Cell::Nothing,
    }
}

/// The rule on each of the cells.
fn push_alone(list: &mut Items<Violation>, rule: Rule, cells: &[Cell]) -> Result<(), Memory>
    ensures { OnOk result (list.new ≡ list.old ++ map (alone rule) cells.now) }
{
    for cell in cells {
        list.push(alone(rule, *cell))?;
    }
    Ok(())
}

/// The names of the operands.
fn operand_names(alloc: Global, interface: &Interface) -> Result<Items<Cell>, Memory>
    requires { IsInterface interface.now }
    ensures { IfOk result (λ names. names ≡ map Cell.Operand (numbers_in interface.now)) }
{
    let mut names = Items::new(alloc);
    for k in 0..interface.operands.len() {
        names.push(Cell::Operand(k as u8))?;
    }
    Ok(names)
}

fn push_names(names: &mut Items<Cell>, more: &[Cell]) -> Result<(), Memory>
    ensures { OnOk result (names.new ≡ names.old ++ more.now) }
{
    for name in more {
        names.push(*name)?;
    }
    Ok(())
}

/// The rule on a pair of each of the cells with another.
fn push_pairs_with(
    list: &mut Items<Violation>,
    rule: Rule,
    cell: Cell,
    cells: &[Cell],
) -> Result<(), Memory>
    ensures { OnOk result (list.new ≡ list.old ++ map (paired rule cell) cells.now) }
{
    for other in cells {
        list.push(Violation {
            rule,
            cell,
            other: *other,
        })?;
    }
    Ok(())
}

fn push_pairs(list: &mut Items<Violation>, rule: Rule, cells: &[Cell]) -> Result<(), Memory>
    ensures { OnOk result (list.new ≡ list.old ++ pairs_of rule cells.now) }
{
    for cell in cells {
        push_pairs_with(list, rule, *cell, cells)?;
    }
    Ok(())
}

/// Those on what is as at the entry, and on memory.
fn push_changes(list: &mut Items<Violation>, operands: &[Cell]) -> Result<(), Memory>
    ensures { OnOk result (list.new ≡ list.old ++ changes_of operands.now) }
{
    push_alone(list, Rule::W1, &REGISTERS)?;
    push_alone(list, Rule::W2, operands)?;
    push_alone(list, Rule::W3, &[Cell::Cc])?;
    push_alone(list, Rule::W4, &[Cell::Flag(Flag::Df)])?;
    push_alone(list, Rule::M1, &[Cell::Memory])?;
    push_alone(list, Rule::M2, operands)?;
    Ok(())
}

/// Those on what is read.
fn push_reads(list: &mut Items<Violation>, operands: &[Cell]) -> Result<(), Memory>
    ensures { OnOk result (list.new ≡ list.old ++ reads_of operands.now) }
{
    push_alone(list, Rule::R1, &REGISTERS)?;
    push_alone(list, Rule::R1, &FLAGS)?;
    push_alone(list, Rule::R2, operands)?;
    push_alone(list, Rule::R3, operands)?;
    push_alone(list, Rule::R3, &[Cell::Nothing])?;
    Ok(())
}

/// Those on how places are used.
fn push_uses(list: &mut Items<Violation>, operands: &[Cell], names: &[Cell]) -> Result<(), Memory>
    ensures { OnOk result (list.new ≡ list.old ++ uses_of operands.now names.now) }
{
    push_alone(list, Rule::U2, operands)?;
    push_pairs(list, Rule::U3, names)?;
    push_alone(list, Rule::U4, operands)?;
    Ok(())
}

/// What may be broken along the paths of a statement with this interface, in the order of reports.
///
/// # Errors
/// Want of memory.
pub fn violations(alloc: Global, interface: &Interface) -> Result<Items<Violation>, Memory>
    requires { IsInterface interface.now }
    ensures { IfOk result (λ list. list ≡ violations_of interface.now) }
{
    let operands = operand_names(alloc, interface)?;
    let mut names = Items::new(alloc);
    push_names(&mut names, &REGISTERS)?;
    push_names(&mut names, operands.as_slice())?;
    let mut list = Items::new(alloc);
    push_changes(&mut list, operands.as_slice())?;
    push_reads(&mut list, operands.as_slice())?;
    push_uses(&mut list, operands.as_slice(), names.as_slice())?;
    Ok(list)
}

/// Where violations of pairs of places stand in a list: from the first number to before the end.
#[derive(Clone, Copy, Debug, PartialEq, Eq)]
pub struct PairNumbers {
    pub first: usize,
    pub end: usize,
}

/// Whether the violation of that number, if there is one, is of a pair of places.
fn is_of_pair(violations: &[Violation], t: usize) -> bool
    ensures { result ≡ is_of_pair (slice_get violations.now t) }
{
    if t < violations.len() {
        return matches!(violations[t].rule, Rule::U3);
    }
    false
}

/// Where the first violations of pairs of places stand that follow one another.
pub fn pair_numbers(violations: &[Violation]) -> PairNumbers
    ensures { AreOfPairs violations.now result }
{
    let first = violations
        .iter()
        .position(|violation| matches!(violation.rule, Rule::U3))
        .unwrap_or(0);
    let mut end = first;
    while is_of_pair(violations, end) {
        end += 1;
    }
    PairNumbers { first, end }
}

/// The rules on the stack, in the order of reports.
pub fn stack_violations() -> [Violation; 3]
    ensures { result ≡ stack_violations }
{
    [
        alone(Rule::S1, Cell::Nothing),
        alone(Rule::S2, Cell::Nothing),
        alone(Rule::S3, Cell::Nothing),
    ]
}
