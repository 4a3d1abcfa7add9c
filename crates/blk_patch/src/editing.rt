//! The edits of a statement's text that stand for items.

ghost use Rattle.std.specs.Prelude.{◌≡◌, ◌+◌, ◌≤◌, ◌++◌, length, IfOk, OnOk};
ghost use Rattle.asm_core.specs.Parts.{IsParts, IsBody};
ghost use Rattle.blk_patch.specs.Edits.{operand_edits, edits_of, edits_in};
ghost use Rattle.blk_patch.specs.EditForms.{ArePatchEdits};
ghost use Rattle.blk_patch.specs.EditOrder.{AreApartIn};

use crate::Item;
use crate::clobber_list::push_clobbers;
use crate::constraint::{change_of, push_constraint};
use asm_core::{Body, Edit, Items, Memory, Part, Parts};
use std::alloc::Global;

/// The edits that put these items into a statement with this body, in order of place. All other bytes stay.
pub fn edits(alloc: Global, body: &Body, items: &[Item]) -> Result<Items<Edit>, Memory>
    requires { IsBody body.now }
    // Exactly the definition's edits, unless memory runs out.
    ensures are { IfOk result (λ edits. edits ≡ edits_in items.now body.now) }
    // Each replaces a byte of a constraint, or inserts an early mark or clobbers.
    ensures forms { IfOk result (ArePatchEdits body.now) }
    // They are in order and apart, where the constraints stand in order.
    ensures apart { IfOk result (AreApartIn body.now) }
{
    edits_in(alloc, body, items)
}

fn edits_in(alloc: Global, body: &Body, items: &[Item]) -> Result<Items<Edit>, Memory>
    requires { IsBody body.now }
    ensures { IfOk result (λ edits. edits ≡ edits_in items.now body.now) }
{
    match body {
        Body::Parts(parts) => edits_of(alloc, parts, items),
        Body::Outside(_) => Ok(Items::new(alloc)),
    }
}

#[tactic(auto, unfolding(crate::specs::Edits::edits_of))]
fn edits_of(alloc: Global, parts: &Parts, items: &[Item]) -> Result<Items<Edit>, Memory>
    requires { IsParts parts.now }
    ensures { IfOk result (λ edits. edits ≡ edits_of items.now parts.now) }
{
    let mut edits = Items::new(alloc);
    let outputs = parts.outputs.len();
    push_operands(alloc, &mut edits, items, 0, parts.outputs.as_slice())?;
    push_operands(alloc, &mut edits, items, outputs, parts.inputs.as_slice())?;
    push_clobbers(alloc, &mut edits, items, parts)?;
    Ok(edits)
}

/// Appends the edits of operands, which are numbered from `first` upwards.
fn push_operands(
    alloc: Global,
    edits: &mut Items<Edit>,
    items: &[Item],
    first: usize,
    operands: &[Part],
) -> Result<(), Memory>
    requires { first + length operands.now ≤ 30 }
    ensures { OnOk result (edits.new ≡ edits.old ++ operand_edits items.now first operands.now) }
{
    for (n, part) in operands.iter().enumerate() {
        let change = change_of(items, (first + n) as u8);
        push_constraint(alloc, edits, change, &part.constraint)?;
    }
    Ok(())
}
