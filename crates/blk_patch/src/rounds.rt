//! The rounds in which items are added.

ghost use Rattle.std.specs.Prelude.{◌≡◌, ◌≤◌, length, IfOk};
ghost use Rattle.asm_core.specs.WellFormed.{IsInterface};
ghost use Rattle.blk_check.specs.Judged.{IsInterfaceOf, IsVerdict};
ghost use Rattle.blk_patch.specs.Items.{with_items};
ghost use Rattle.blk_patch.specs.Rounds.{IsReachedEnd, next_by, next_item, first_new, first_clobber, new_item, if_clobber, unless_there, preferred, is_without_room, begins_with_k1};

use crate::Item;
use crate::interface::with_items;
use crate::item::has;
use crate::suggestion::item_of;
use asm_core::{Body, Finding, Interface, Items, Memory, Rule, Statement};
use blk_check::{Verdict, check};
use std::alloc::Global;

/// Items that were added, with the interface and the verdict of the statement with them, by which no more is added.
#[derive(Debug, Drop)]
pub struct Reached {
    pub items: Items<Item>,
    pub interface: Interface,
    pub verdict: Verdict,
}

/// Adds items, one in each round, for as long as some finding has a new one.
pub fn reach(alloc: Global, statement: &Statement, interface: &Interface) -> Result<Reached, Memory>
    requires interface { IsInterface interface.now }
    requires stated { IsInterfaceOf interface.now statement.now }
    ensures { IfOk result (IsReachedEnd statement.now interface.now) }
{
    let mut items = Items::new(alloc);
    'rounds: loop {
        let patched = with_items(alloc, items.as_slice(), interface)?;
        let verdict = check(alloc, statement, &patched)?;
        match next_by(&statement.body, &patched, items.as_slice(), &verdict) {
            Some(item) => items.push(item)?,
            None => {
                return Ok(Reached {
                    items,
                    interface: patched,
                    verdict,
                });
            }
        }
    }
}

/// The item to add by the verdict on the statement with these.
fn next_by(body: &Body, patched: &Interface, items: &[Item], verdict: &Verdict) -> Option<Item>
    requires { length patched.now.operands ≤ 30 }
    ensures { result ≡ next_by body.now patched.now items.now verdict.now }
{
    match verdict {
        Verdict::Broken(findings) if !is_without_room(items, findings.as_slice()) => {
            next_item(body, patched, items, findings.as_slice())
        }
        _ => None,
    }
}

/// Whether items were added and now no placement has room.
pub fn is_without_room(items: &[Item], findings: &[Finding]) -> bool
    ensures { result ≡ is_without_room items.now findings.now }
{
    !items.is_empty() && begins_with_k1(findings)
}

fn begins_with_k1(findings: &[Finding]) -> bool
    ensures { result ≡ begins_with_k1 findings.now }
{
    match findings {
        [first, ..] => matches!(first.rule, Rule::K1),
        [] => false,
    }
}

/// The first new item, where a register's clobber is taken before an early mark.
fn next_item(body: &Body, patched: &Interface, items: &[Item], findings: &[Finding]) -> Option<Item>
    requires { length patched.now.operands ≤ 30 }
    ensures { result ≡ next_item body.now patched.now items.now findings.now }
{
    match first_new(body, patched, items, findings) {
        Some(Item::Early(k)) => {
            first_clobber(body, patched, items, findings).or(Some(Item::Early(k)))
        }
        first => first,
    }
}

/// The item of the first finding that has a new one.
#[tactic(auto, using(crate::proofs::FindingLaws::new_done))]
fn first_new(body: &Body, patched: &Interface, items: &[Item], findings: &[Finding]) -> Option<Item>
    requires { length patched.now.operands ≤ 30 }
    ensures { result ≡ first_new body.now patched.now items.now findings.now }
{
    for finding in findings {
        let item = new_item(body, patched, items, finding);
        if item.is_some() {
            return item;
        }
    }
    None
}

/// The first new item that is a register's clobber.
#[tactic(auto, using(crate::proofs::FindingLaws::clobber_done))]
fn first_clobber(
    body: &Body,
    patched: &Interface,
    items: &[Item],
    findings: &[Finding],
) -> Option<Item>
    requires { length patched.now.operands ≤ 30 }
    ensures { result ≡ first_clobber body.now patched.now items.now findings.now }
{
    for finding in findings {
        let item = if_clobber(new_item(body, patched, items, finding));
        if item.is_some() {
            return item;
        }
    }
    None
}

/// The item, where it is a register's clobber.
fn if_clobber(item: Option<Item>) -> Option<Item>
    ensures { result ≡ if_clobber item }
{
    match item {
        Some(Item::Clobber(register)) => Some(Item::Clobber(register)),
        _ => None,
    }
}

/// The item of the finding, unless it is among these.
fn new_item(body: &Body, patched: &Interface, items: &[Item], finding: &Finding) -> Option<Item>
    requires { length patched.now.operands ≤ 30 }
    ensures { result ≡ new_item body.now patched.now items.now finding.now }
{
    match item_of(body, patched, finding) {
        Some(item) if !has(items, item) => Some(item),
        _ => None,
    }
}
