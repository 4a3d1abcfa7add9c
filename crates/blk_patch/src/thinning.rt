//! Which items of a patch can't be left out.

ghost use Rattle.std.specs.Prelude.{◌≡◌, ◌<◌, [], length, IfOk};
ghost use Rattle.std.specs.List.{remove};
ghost use Rattle.asm_core.specs.WellFormed.{IsInterface};
ghost use Rattle.blk_check.specs.Judged.{IsInterfaceOf};
ghost use Rattle.blk_patch.specs.Items.{with_items};
ghost use Rattle.blk_patch.specs.Rounds.{IsThinned, TellsOk, is_ok};

use crate::Item;
use crate::interface::with_items;
use asm_core::{Interface, Items, Memory, Statement};
use blk_check::{Verdict, check};
use std::alloc::Global;

/// Drops each item, in their order, without which the statement is still accepted.
pub fn thin(
    alloc: Global,
    statement: &Statement,
    interface: &Interface,
    mut items: Items<Item>,
) -> Result<Items<Item>, Memory>
    requires interface { IsInterface interface.now }
    requires stated { IsInterfaceOf interface.now statement.now }
    ensures { IfOk result (IsThinned statement.now interface.now [] items) }
{
    let mut at = 0;
    'items: while at < items.len() {
        let others = without(alloc, items.as_slice(), at)?;
        let accepted = is_accepted(alloc, statement, interface, others.as_slice())?;
        if accepted {
            items = others;
        } else {
            at += 1;
        }
    }
    Ok(items)
}

/// The items but the one of that number.
fn without(alloc: Global, items: &[Item], at: usize) -> Result<Items<Item>, Memory>
    requires { at < length items.now }
    ensures { IfOk result (λ others. others ≡ remove items.now at) }
{
    let mut others = Items::from_slice(alloc, items)?;
    others.remove(at);
    Ok(others)
}

/// Whether the statement is accepted with these items.
fn is_accepted(
    alloc: Global,
    statement: &Statement,
    interface: &Interface,
    items: &[Item],
) -> Result<bool, Memory>
    requires interface { IsInterface interface.now }
    requires stated { IsInterfaceOf interface.now statement.now }
    ensures { IfOk result (TellsOk statement.now (with_items items.now interface.now)) }
{
    let patched = with_items(alloc, items, interface)?;
    let verdict = check(alloc, statement, &patched)?;
    Ok(is_ok(&verdict))
}

fn is_ok(verdict: &Verdict) -> bool
    ensures { result ≡ is_ok verdict.now }
{
    matches!(verdict, Verdict::Ok(_))
}
