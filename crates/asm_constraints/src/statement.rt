//! Interfaces of statements.

ghost use Rattle.std.specs.Prelude.{◌≡◌, ◌+◌, ◌++◌, ◌≤◌, length, IfOk};
ghost use Rattle.asm_core.specs.Parts.{IsParts};
ghost use Rattle.asm_core.specs.Constraint.{names_of, constrained_operands};
ghost use Rattle.asm_core.specs.Size.{sizes_of};
ghost use Rattle.asm_core.specs.Pieces.{scan_of};
ghost use Rattle.asm_core.specs.Interface.{or_else, first_mark, template_scan, interface_in, interface_of};
ghost use Rattle.asm_core.specs.WellFormed.{IsInterface};
ghost use Rattle.asm_constraints.specs.Answers.{GivesInterface, GivesTemplate};

use crate::clobber::first_clobber_mark;
use crate::made::made_of;
use crate::malformed::malformed_findings;
use crate::operand::{constrained_operands, names};
use crate::outside::first_constraint_mark;
use crate::size::{first_operand_mark, sizes};
use asm_core::{
    ConstrainedOperand, IfaceEnd, Interface, Items, Mark, MarkKind, Operand, Parts, Quoted,
};
use asm_template::{ScanEnd, Scanned, scan};
use std::alloc::Global;

fn or_else(mark: Option<Mark>, other: Option<Mark>) -> Option<Mark>
    ensures { result ≡ or_else mark other }
{
    match mark {
        Some(mark) => Some(mark),
        None => other,
    }
}

/// The first mark but for the template's; `sizes` are those of the operands.
fn first_mark(
    clobbers: &[Quoted],
    operands: &[ConstrainedOperand],
    sizes: &[Option<u32>],
) -> Option<Mark>
    requires { sizes.now ≡ sizes_of operands.now }
    ensures { result ≡ first_mark clobbers.now operands.now }
{
    let behind_clobbers = or_else(
        first_operand_mark(operands, sizes),
        first_constraint_mark(operands),
    );
    or_else(first_clobber_mark(clobbers), behind_clobbers)
}

/// The pieces of the template.
fn template(alloc: Global, parts: &Parts, names: &[Option<Items<u8>>]) -> Result<Scanned, IfaceEnd>
    requires placed { length parts.now.template.at ≡ length parts.now.template.bytes }
    requires few { length names.now ≤ 30 }
    ensures { GivesTemplate result (template_scan parts.now.bad_template (scan_of parts.now.template names.now)) }
{
    if let Some(place) = parts.bad_template {
        return Err(IfaceEnd::Outside(Mark {
            kind: MarkKind::Template,
            place,
        }));
    }
    match scan(alloc, &parts.template, names) {
        Ok(scanned) => Ok(scanned),
        Err(ScanEnd::Outside(mark)) => Err(IfaceEnd::Outside(mark)),
        Err(ScanEnd::Memory) => Err(IfaceEnd::Memory),
    }
}

/// The interface of a statement with these operands, which have these names.
fn interface_in(
    alloc: Global,
    parts: &Parts,
    strict: bool,
    operands: &[ConstrainedOperand],
    names: &[Option<Items<u8>>],
) -> Result<Interface, IfaceEnd>
    requires placed { length parts.now.template.at ≡ length parts.now.template.bytes }
    requires few { length names.now ≤ 30 }
    ensures { GivesInterface result (interface_in parts.now strict operands.now names.now) }
{
    let clobbers = parts.clobbers.as_slice();
    let sizes = sizes(alloc, operands)?;
    if let Some(mark) = first_mark(clobbers, operands, sizes.as_slice()) {
        return Err(IfaceEnd::Outside(mark));
    }
    let scanned = template(alloc, parts, names)?;
    let pieces = scanned.pieces.list.as_slice();
    let findings = malformed_findings(alloc, operands, names, clobbers, pieces, scanned.missing)?;
    if !findings.is_empty() {
        return Err(IfaceEnd::Broken(findings));
    }
    Ok(made_of(alloc, strict, clobbers, operands, sizes.as_slice())?)
}

/// What the statement says, given what is known of its operands' expressions.
#[tactic(auto, unfolding(asm_core::specs::Interface::interface_of))]
fn interface_said(
    alloc: Global,
    parts: &Parts,
    operands: &[Option<Operand>],
    strict: bool,
) -> Result<Interface, IfaceEnd>
    requires { IsParts parts.now }
    ensures { GivesInterface result (interface_of parts.now operands.now strict) }
{
    let names = names(alloc, parts)?;
    let constrained = constrained_operands(alloc, parts, names.as_slice(), operands)?;
    interface_in(
        alloc,
        parts,
        strict,
        constrained.as_slice(),
        names.as_slice(),
    )
}

/// What a statement tells the compiler of its operands and of what it changes (GCC manual, "Extended Asm" and
/// "Constraints"), in this project's tables. `operands` says what is known of the operands' expressions, outputs first;
/// an operand without an entry has no type. Unless `strict` is asked for, the flags count as changed.
///
/// # Errors
/// The first mark of what lies outside the tables: a clobber, an operand, a constraint or the template, in this order of
/// kinds; where there is none, the findings of the rule K2; or want of memory.
pub fn interface(
    alloc: Global,
    parts: &Parts,
    operands: &[Option<Operand>],
    strict: bool,
) -> Result<Interface, IfaceEnd>
    requires { IsParts parts.now }
    ensures is { GivesInterface result (interface_of parts.now operands.now strict) }
    ensures kept { IfOk result IsInterface }
{
    interface_said(alloc, parts, operands, strict)
}
