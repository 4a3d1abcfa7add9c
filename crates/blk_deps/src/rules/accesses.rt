//! The rules on accesses to memory.

ghost use Rattle.std.specs.Prelude.{◌≡◌, ◌<◌, ◌≤◌, ◌==◌, ◌&&◌, not, nat_lt, length, IsTrue};
ghost use Rattle.std.specs.List.{list_any};
ghost use Rattle.asm_core.specs.Placement.{is_output};
ghost use Rattle.blk_deps.specs.Ground.{IsContext};
ghost use Rattle.blk_deps.specs.Operands.{is_output_at, size_at, is_changing};
ghost use Rattle.blk_deps.specs.Rules.{is_of_operand, is_past, breaks_w2_by_store, breaks_m1, breaks_m2, breaks_u4, breaks_by_access};
ghost use Rattle.blk_deps.specs.Reaching.{IsAtLine, stores_to, passes_end, passes_some, reaches_undeclared};
ghost use Rattle.blk_deps.specs.Scenes.{names_operand};

use super::AtLine;
use super::bits::has_bit;
use crate::Context;
use asm_core::{Access, Arg, Cell, Interface, Role, Rule};

fn is_output(role: Role) -> bool
    ensures { result ≡ is_output role }
{
    match role {
        Role::Out | Role::InOut => true,
        Role::In => false,
    }
}

fn is_output_at(interface: &Interface, k: usize) -> bool
    ensures { result ≡ is_output_at interface.now k }
{
    match interface.operands.get(k) {
        Some(operand) => is_output(operand.role),
        None => false,
    }
}

/// In bytes.
pub(crate) fn size_at(interface: &Interface, k: usize) -> u32
    ensures { result ≡ size_at interface.now k }
{
    match interface.operands.get(k) {
        Some(operand) => operand.size,
        None => 0,
    }
}

fn is_of_operand(k: u8, to: Arg) -> bool
    ensures { result ≡ is_of_operand k to }
{
    match to {
        Arg::Memory(j) => j == k,
        _ => false,
    }
}

/// Whether the access goes past the end of operand k.
fn is_past(interface: &Interface, k: u8, access: &Access) -> bool
    ensures { result ≡ is_past interface.now k access.now }
{
    is_of_operand(k, access.to) && size_at(interface, k as usize) < access.bytes as u32
}

fn stores_to(accesses: &[Access], k: u8) -> bool
    ensures { result ≡ stores_to k accesses.now }
{
    accesses
        .iter()
        .any(|access| access.store && is_of_operand(k, access.to))
}

fn is_changing(context: &Context, k: u8) -> bool
    requires context { IsContext context.now }
    requires operand { k < length context.now.interface.now.operands }
    requires few { length context.now.interface.now.operands ≤ 30 }
    ensures { result ≡ is_changing context.now.live.now k }
{
    has_bit(context.ground.changing as u64, k as usize)
}

/// Whether operand k, if there is one, is passed at its end and isn't changing.
fn passes_operand(context: &Context, k: u8, access: &Access) -> bool
    requires context { IsContext context.now }
    requires few { length context.now.interface.now.operands ≤ 30 }
    ensures { result ≡ (nat_lt k (length context.now.interface.now.operands)
        && (is_past context.now.interface.now k access.now && not (is_changing context.now.live.now k))) }
{
    if (k as usize) < context.interface.operands.len() {
        is_past(context.interface, k, access) && !is_changing(context, k)
    } else {
        false
    }
}

/// Whether an operand is passed at its end that isn't changing.
fn passes_some(context: &Context, access: &Access) -> bool
    requires context { IsContext context.now }
    requires few { length context.now.interface.now.operands ≤ 30 }
    ensures { result ≡ passes_some context.now.interface.now context.now.live.now access.now }
{
    match access.to {
        Arg::Memory(k) => passes_operand(context, k, access),
        _ => false,
    }
}

/// Whether the access reaches memory that no operand declares: by an address that is written, or past the end of an operand, but for
/// those that are changing.
fn reaches_undeclared(context: &Context, access: &Access) -> bool
    requires context { IsContext context.now }
    requires few { length context.now.interface.now.operands ≤ 30 }
    ensures { result ≡ reaches_undeclared context.now.interface.now context.now.live.now access.now }
{
    match access.to {
        Arg::Address(_, _, _) => true,
        _ => passes_some(context, access),
    }
}

fn some_undeclared(context: &Context, accesses: &[Access]) -> bool
    requires context { IsContext context.now }
    requires few { length context.now.interface.now.operands ≤ 30 }
    ensures { result ≡ list_any (reaches_undeclared context.now.interface.now context.now.live.now) accesses.now }
{
    accesses
        .iter()
        .any(|access| reaches_undeclared(context, access))
}

fn passes_end(interface: &Interface, accesses: &[Access], k: u8) -> bool
    ensures { result ≡ passes_end interface.now k accesses.now }
{
    accesses.iter().any(|access| is_past(interface, k, access))
}

fn breaks_w2(context: &Context, at: &AtLine, cell: Cell) -> bool
    requires { IsAtLine at.now }
    ensures { result ≡ breaks_w2_by_store context.now.interface.now at.now.line.now cell }
{
    match cell {
        Cell::Operand(k) => {
            !is_output_at(context.interface, k as usize) && stores_to(at.accesses, k)
        }
        _ => false,
    }
}

fn breaks_m1(context: &Context, at: &AtLine) -> bool
    requires context { IsContext context.now }
    requires few { length context.now.interface.now.operands ≤ 30 }
    requires line { IsAtLine at.now }
    ensures { result ≡ breaks_m1 context.now.interface.now context.now.live.now at.now.line.now }
{
    !context.interface.memory && some_undeclared(context, at.accesses)
}

fn breaks_m2(context: &Context, at: &AtLine, cell: Cell) -> bool
    requires context { IsContext context.now }
    requires few { length context.now.interface.now.operands ≤ 30 }
    requires line { IsAtLine at.now }
    requires cell { IsTrue (names_operand (length context.now.interface.now.operands) cell) }
    ensures { result ≡ breaks_m2 context.now.interface.now context.now.live.now at.now.line.now cell }
{
    match cell {
        Cell::Operand(k) => {
            is_changing(context, k) && passes_end(context.interface, at.accesses, k)
        }
        _ => false,
    }
}

fn breaks_u4(at: &AtLine, cell: Cell) -> bool
    requires line { IsAtLine at.now }
    requires cell { IsTrue (names_operand 30 cell) }
    ensures { result ≡ breaks_u4 at.now.depth at.now.line.now cell }
{
    match cell {
        Cell::Operand(k) => at.depth != 0 && has_bit(at.addressed as u64, k as usize),
        _ => false,
    }
}

/// Whether an access of the instruction breaks the rule.
pub(crate) fn breaks_by_access(context: &Context, at: &AtLine, rule: Rule, cell: Cell) -> bool
    requires context { IsContext context.now }
    requires few { length context.now.interface.now.operands ≤ 30 }
    requires line { IsAtLine at.now }
    requires cell { IsTrue (names_operand (length context.now.interface.now.operands) cell) }
    ensures { result ≡ breaks_by_access context.now.interface.now context.now.live.now at.now.depth at.now.line.now
        rule cell }
{
    match rule {
        Rule::W2 => breaks_w2(context, at, cell),
        Rule::M1 => breaks_m1(context, at),
        Rule::M2 => breaks_m2(context, at, cell),
        Rule::U4 => breaks_u4(at, cell),
        _ => false,
    }
}
