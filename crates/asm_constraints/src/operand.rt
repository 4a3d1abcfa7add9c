//! The operands of a statement, as it writes them.

ghost use Rattle.std.specs.Prelude.{◌≡◌, ◌<◌, ◌≤◌, ◌+◌, ◌++◌, length, take, IfOk, OnOk};
ghost use Rattle.asm_core.specs.Lists.{optional_at};
ghost use Rattle.asm_core.specs.Constraint.{role_of, is_signed, behind_sign, flag_spelt, flag_of, alternatives_in, alternatives_unless_flag, constrained_output, constrained_input, constrained_operand, constrained_from, name_of, names_of, constrained_operands};

use crate::symbol::alternatives;
use asm_core::{Cond, ConstrainedOperand, Items, Memory, Operand, Part, Parts, Role, Symbol};
use sqlite_items::at;
use std::alloc::Global;

/// The value of that number, where the list has one.
pub fn optional_at<T: Copy>(values: &[Option<T>], number: usize) -> Option<T>
    ensures { result ≡ optional_at values.now number }
{
    match at(values, number) {
        Some(value) => *value,
        None => None,
    }
}

fn role_of(text: &[u8]) -> Role
    ensures { result ≡ role_of text.now }
{
    match text {
        [b'=', ..] => Role::Out,
        [b'+', ..] => Role::InOut,
        _ => Role::In,
    }
}

/// Whether an output of that role begins with `=` or `+`.
pub fn is_signed(role: Role) -> bool
    ensures { result ≡ is_signed role }
{
    match role {
        Role::Out | Role::InOut => true,
        Role::In => false,
    }
}

fn behind_sign(text: &[u8]) -> &[u8]
    ensures { result.now ≡ behind_sign text.now }
{
    match text {
        [b'=' | b'+', rest @ ..] => rest,
        _ => text,
    }
}

/// The condition that a flag output spells.
#[tactic(auto, unfolding(asm_core::specs::Constraint::flag_spelt))]
fn flag_spelt(spelling: &[u8]) -> Option<Cond>
    ensures { result ≡ flag_spelt spelling.now }
{
    match spelling {
        b"pe" | b"po" => None,
        _ => Cond::named(spelling),
    }
}

/// The condition of a flag output.
#[tactic(auto, unfolding(asm_core::specs::Constraint::flag_of))]
fn flag_of(text: &[u8]) -> Option<Cond>
    ensures { result ≡ flag_of text.now }
{
    match text {
        [b'=', b'@', b'c', b'c', spelling @ ..] => flag_spelt(spelling),
        _ => None,
    }
}

fn alternatives_unless_flag(
    alloc: Global,
    outputs: &[Option<Items<u8>>],
    flag: Option<Cond>,
    text: &[u8],
) -> Result<Items<Items<Symbol>>, Memory>
    requires { length outputs.now ≤ 30 }
    ensures { IfOk result (λ made. made ≡ alternatives_unless_flag flag (alternatives_in outputs.now (behind_sign text.now))) }
{
    match flag {
        Some(_) => Ok(Items::new(alloc)),
        None => alternatives(alloc, outputs, behind_sign(text)),
    }
}

fn constrained_output(
    alloc: Global,
    outputs: &[Option<Items<u8>>],
    number: u8,
    part: &Part,
    typed: Option<Operand>,
) -> Result<ConstrainedOperand, Memory>
    requires { length outputs.now ≤ 30 }
    ensures { IfOk result (λ made. made ≡ constrained_output outputs.now number part.now typed) }
{
    let text = part.constraint.bytes.as_slice();
    let flag = flag_of(text);
    Ok(ConstrainedOperand {
        number,
        output: true,
        role: role_of(text),
        flag,
        alternatives: alternatives_unless_flag(alloc, outputs, flag, text)?,
        constraint: part.constraint.span.from,
        expression: part.expr.from,
        typed,
    })
}

fn constrained_input(
    alloc: Global,
    outputs: &[Option<Items<u8>>],
    number: u8,
    part: &Part,
    typed: Option<Operand>,
) -> Result<ConstrainedOperand, Memory>
    requires { length outputs.now ≤ 30 }
    ensures { IfOk result (λ made. made ≡ constrained_input outputs.now number part.now typed) }
{
    Ok(ConstrainedOperand {
        number,
        output: false,
        role: Role::In,
        flag: None,
        alternatives: alternatives(alloc, outputs, part.constraint.bytes.as_slice())?,
        constraint: part.constraint.span.from,
        expression: part.expr.from,
        typed,
    })
}

/// An operand, an output where there are so many of them.
#[tactic(auto, unfolding(asm_core::specs::Constraint::constrained_operand))]
fn constrained_operand(
    alloc: Global,
    outputs: &[Option<Items<u8>>],
    number: u8,
    part: &Part,
    typed: Option<Operand>,
) -> Result<ConstrainedOperand, Memory>
    requires { length outputs.now ≤ 30 }
    ensures { IfOk result (λ made. made ≡ constrained_operand outputs.now number part.now typed) }
{
    if (number as usize) < outputs.len() {
        constrained_output(alloc, outputs, number, part, typed)
    } else {
        constrained_input(alloc, outputs, number, part, typed)
    }
}

/// Puts the operands of these parts behind those that are made already.
fn append(
    alloc: Global,
    made: &mut Items<ConstrainedOperand>,
    outputs: &[Option<Items<u8>>],
    parts: &[Part],
    types: &[Option<Operand>],
) -> Result<(), Memory>
    requires few { length outputs.now ≤ 30 }
    requires room { length made.old + length parts.now ≤ 30 }
    ensures { OnOk result (made.new ≡ made.old ++ constrained_from outputs.now types.now (length made.old) parts.now) }
{
    for part in parts {
        let number = made.len();
        let typed = optional_at(types, number);
        made.push(constrained_operand(alloc, outputs, number as u8, part, typed)?)?;
    }
    Ok(())
}

/// The operands, outputs first; `names` are those of all operands.
#[tactic(auto, unfolding(asm_core::specs::Constraint::constrained_operands))]
pub fn constrained_operands(
    alloc: Global,
    parts: &Parts,
    names: &[Option<Items<u8>>],
    types: &[Option<Operand>],
) -> Result<Items<ConstrainedOperand>, Memory>
    requires few { length parts.now.outputs + length parts.now.inputs ≤ 30 }
    requires names { names.now ≡ names_of (parts.now.outputs ++ parts.now.inputs) }
    ensures { IfOk result (λ made. made ≡ constrained_operands parts.now types.now) }
{
    let mut made = Items::new(alloc);
    let outputs = &names[..parts.outputs.len()];
    append(alloc, &mut made, outputs, parts.outputs.as_slice(), types)?;
    append(alloc, &mut made, outputs, parts.inputs.as_slice(), types)?;
    Ok(made)
}

fn name_of(alloc: Global, part: &Part) -> Result<Option<Items<u8>>, Memory>
    ensures { IfOk result (λ name. name ≡ name_of part.now) }
{
    match &part.name {
        Some(name) => Ok(Some(Items::from_slice(alloc, name.bytes.as_slice())?)),
        None => Ok(None),
    }
}

fn append_names(
    alloc: Global,
    names: &mut Items<Option<Items<u8>>>,
    parts: &[Part],
) -> Result<(), Memory>
    ensures { OnOk result (names.new ≡ names.old ++ names_of parts.now) }
{
    for part in parts {
        names.push(name_of(alloc, part)?)?;
    }
    Ok(())
}

/// The names of the operands, outputs first.
pub fn names(alloc: Global, parts: &Parts) -> Result<Items<Option<Items<u8>>>, Memory>
    ensures { IfOk result (λ names. names ≡ names_of (parts.now.outputs ++ parts.now.inputs)) }
{
    let mut names = Items::new(alloc);
    append_names(alloc, &mut names, parts.outputs.as_slice())?;
    append_names(alloc, &mut names, parts.inputs.as_slice())?;
    Ok(names)
}
