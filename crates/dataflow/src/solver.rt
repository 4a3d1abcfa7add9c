ghost use Rattle.std.specs.Prelude.{◌≡◌, ◌<◌, length, true};
ghost use Rattle.dataflow.specs.Paths.{IsOfAllPaths};
ghost use Rattle.dataflow.specs.Solving.{IsSolving};
ghost use Rattle.dataflow.specs.Working.{found_in, is_pending, left_to_do, IsWorkFor};

use crate::{Block, Work};

/// Finds the facts that some path shows before each node, and at the end: these and no others. What the work holds
/// before is of no account. Takes no memory, and always ends.
pub fn solve<B: Block>(block: &B, scratch: &mut B::Scratch, work: &mut Work)
    requires block { B.IsBlock block.now }
    requires scratch { B.IsScratch block.now scratch.old }
    requires work { IsWorkFor (B.size block.now) (B.width block.now) work.old }
    ensures work { IsWorkFor (B.size block.now) (B.width block.now) work.new }
    ensures scratch { B.IsScratch block.now scratch.new }
    ensures found { IsOfAllPaths (B.size block.now) (B.goes block.now) (B.start block.now) (B.after block.now)
        (found_in (B.number block.now) work.new) }
{
    work.clear();
    block.begin(&mut work.next);
    work.flow(0);
    while let Some(at) = work.first_pending() {
        visit(block, scratch, work, at);
    }
}

/// Visits a node: what it makes of the facts before it flows along its two ways.
fn visit<B: Block>(block: &B, scratch: &mut B::Scratch, work: &mut Work, at: usize)
    requires block { B.IsBlock block.now }
    requires scratch { B.IsScratch block.now scratch.old }
    requires work { IsWorkFor (B.size block.now) (B.width block.now) work.old }
    requires pending { is_pending work.old at ≡ true }
    requires node { at < length work.old.pending.items }
    requires solving { IsSolving (B.size block.now) (B.goes block.now) (B.start block.now) (B.after block.now)
        (found_in (B.number block.now) work.old) (is_pending work.old) }
    ensures work { IsWorkFor (B.size block.now) (B.width block.now) work.new }
    ensures scratch { B.IsScratch block.now scratch.new }
    ensures solving { IsSolving (B.size block.now) (B.goes block.now) (B.start block.now) (B.after block.now)
        (found_in (B.number block.now) work.new) (is_pending work.new) }
    ensures left { left_to_do work.new < left_to_do work.old }
{
    work.take(at);
    block.apply(at, scratch, &mut work.next);
    work.flow_along(block.goals(at));
}
