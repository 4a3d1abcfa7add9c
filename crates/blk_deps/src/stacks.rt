//! What breaks the rules on the stack in the blocks of a statement.

ghost use Rattle.std.specs.Prelude.{◌≡◌, [], length, All, IfOk};
ghost use Rattle.std.specs.List.{AllZip};
ghost use Rattle.blk_deps.specs.Ways.{IsGraph};
ghost use Rattle.blk_deps.specs.StackTable.{IsStack, IsLeastOf};
ghost use Rattle.blk_deps.specs.Findings.{AreFindings, IsStackBroken, stack_violations};
ghost use Rattle.blk_deps.specs.Judged.{IsRuleBroken, AreStacks, lesser};

use crate::findings::listed_stack;
use crate::listing::stack_violations;
use crate::stack::{Stack, depths};
use asm_core::{Finding, Graph, Items, Memory, Rule};
use std::alloc::Global;

/// The lesser of two lines, if there are two.
fn lesser(one: Option<u32>, other: Option<u32>) -> Option<u32>
    ensures { result ≡ lesser one other }
{
    match (one, other) {
        (Some(a), Some(b)) => Some(a.min(b)),
        (Some(a), None) => Some(a),
        (None, other) => other,
    }
}

/// The depths of all paths of each block.
fn stacks(alloc: Global, graphs: &[Graph]) -> Result<Items<Stack>, Memory>
    requires { All IsGraph graphs.now }
    ensures { IfOk result (AreStacks graphs.now) }
{
    let mut stacks = Items::new(alloc);
    for graph in graphs {
        stacks.push(depths(alloc, graph)?)?;
    }
    Ok(stacks)
}

/// The least line on which some block breaks the rule.
fn least_line(graphs: &[Graph], stacks: &[Stack], rule: Rule) -> Option<u32>
    requires graphs { All IsGraph graphs.now }
    requires stacks { AreStacks graphs.now stacks.now }
    ensures { IsLeastOf (IsRuleBroken graphs.now (length graphs.now) rule) result }
{
    let mut least = None;
    for k in 0..graphs.len() {
        least = lesser(least, stacks[k].least_line(&graphs[k], rule));
    }
    least
}

/// What breaks the rules on the stack in some of the blocks.
///
/// # Errors
/// Want of memory.
pub fn stack_findings(alloc: Global, graphs: &[Graph]) -> Result<Items<Finding>, Memory>
    requires { All IsGraph graphs.now }
    ensures { IfOk result (AreFindings (IsStackBroken graphs.now) stack_violations) }
{
    let stacks = stacks(alloc, graphs)?;
    let lines = [
        least_line(graphs, stacks.as_slice(), Rule::S1),
        least_line(graphs, stacks.as_slice(), Rule::S2),
        least_line(graphs, stacks.as_slice(), Rule::S3),
    ];
    listed_stack(alloc, &stack_violations(), &lines)
}
