//! What is found in the blocks of a statement under its live shapes.

ghost use Rattle.std.specs.Prelude.{◌≡◌, ◌+◌, ◌<◌, ◌≤◌, [], length, replicate, slice_get, Some, All, IsTrue, IfOk, OnOk};
ghost use Rattle.asm_core.specs.Lists.{IsMember};
ghost use Rattle.asm_core.specs.Shape.{IsLive, shapes_of};
ghost use Rattle.asm_core.specs.WellFormed.{IsInterface};
ghost use Rattle.dataflow.specs.Working.{IsWorkFor};
ghost use Rattle.blk_deps.specs.Ground.{IsContext};
ghost use Rattle.blk_deps.specs.Operands.{IsSmall};
ghost use Rattle.blk_deps.specs.Layout.{row_words, value_words};
ghost use Rattle.blk_deps.specs.Ways.{IsGraph, size_of};
ghost use Rattle.blk_deps.specs.Stack.{AreDepths};
ghost use Rattle.blk_deps.specs.StackTable.{IsSound, FitDepths};
ghost use Rattle.blk_deps.specs.FlowFacts.{HaveHands, ShowsPaths, is_straight};
ghost use Rattle.blk_deps.specs.Noting.{IsNoted};
ghost use Rattle.blk_deps.specs.Walking.{IsWalk, setting_in};
ghost use Rattle.blk_deps.specs.Findings.{AreFindings, IsBroken, IsStackBroken, stack_violations, violations_of};
ghost use Rattle.blk_deps.specs.Judged.{AreMovesOf, IsBrokenUnder, IsBrokenBelow, BreaksIn};

use crate::findings::{Least, listed};
use crate::fitting::layout_of;
use crate::flow::{Flow, prepare, solve};
use crate::line::{LineMoves, line_moves};
use crate::listing::{pair_numbers, violations};
use crate::row::begin;
use crate::rules::PlaceNames;
use crate::sharing::sharers;
use crate::stack::depths;
use crate::walk::{Walk, note_block, note_end};
use crate::{BasicBlock, Context, Ground, Violation, basic_blocks};
use asm_core::{Finding, Graph, Interface, Items, Memory, Shape};
use dataflow::Work;
use std::alloc::Global;

/// What breaks the rules on paths under some of the live shapes, whose blocks these are.
///
/// # Errors
/// Want of memory.
pub fn path_findings(
    alloc: Global,
    interface: &Interface,
    live: &[Shape],
    graphs: &[Graph],
) -> Result<Items<Finding>, Memory>
    requires interface { IsInterface interface.now }
    requires small { IsSmall interface.now }
    requires shapes { All (λ (s : Shape). IsMember s (shapes_of interface.now)) live.now }
    requires live { All (IsLive interface.now) live.now }
    requires graphs { All IsGraph graphs.now }
    requires each { length graphs.now ≡ length live.now }
    requires level { AreFindings (IsStackBroken graphs.now) stack_violations [] }
    ensures { IfOk result (AreFindings (IsBroken interface.now live.now graphs.now) (violations_of interface.now)) }
{
    let violations = violations(alloc, interface)?;
    let least = least_lines(alloc, interface, live, graphs, violations.as_slice())?;
    listed(alloc, violations.as_slice(), &least)
}

/// The least line of each violation under the shapes.
fn least_lines(
    alloc: Global,
    interface: &Interface,
    live: &[Shape],
    graphs: &[Graph],
    violations: &[Violation],
) -> Result<Least, Memory>
    requires interface { IsInterface interface.now }
    requires small { IsSmall interface.now }
    requires shapes { All (λ (s : Shape). IsMember s (shapes_of interface.now)) live.now }
    requires live { All (IsLive interface.now) live.now }
    requires graphs { All IsGraph graphs.now }
    requires each { length graphs.now ≡ length live.now }
    requires sound { All IsSound graphs.now }
    requires violations { violations.now ≡ violations_of interface.now }
    ensures { IfOk result (λ least. IsNoted (IsBrokenBelow interface.now live.now graphs.now (length live.now)) violations.now (replicate (length violations.now) 0) least.lines.items) }
{
    let mut least = Least::new(alloc, violations.len())?;
    for k in 0..live.len() {
        let ground = Ground::of(alloc, interface, live, &live[k])?;
        let context = Context {
            interface,
            live,
            shape: &live[k],
            ground: &ground,
        };
        note_shape(alloc, &context, &graphs[k], violations, &mut least)?;
    }
    Ok(least)
}

/// What each instruction does.
#[tactic(auto, using(crate::proofs::JudgedLaws::moves_none, crate::proofs::JudgedLaws::moves_next, crate::proofs::JudgedLaws::moves_done))]
fn all_moves(
    alloc: Global,
    context: &Context,
    graph: &Graph,
    depths: &[u8],
) -> Result<Items<LineMoves>, Memory>
    requires context { IsContext context.now }
    requires interface { IsInterface context.now.interface.now }
    requires count { length depths.now ≡ size_of graph.now + 1 }
    requires fit { FitDepths graph.now depths.now }
    ensures { IfOk result (AreMovesOf context.now graph.now depths.now) }
{
    let lines = graph.insts.as_slice();
    let mut moves = Items::new(alloc);
    for n in 0..lines.len() {
        moves.push(line_moves(alloc, context, depths[n], &lines[n])?)?;
    }
    Ok(moves)
}

/// Notes what is broken under one shape.
fn note_shape(
    alloc: Global,
    context: &Context,
    graph: &Graph,
    violations: &[Violation],
    least: &mut Least,
) -> Result<(), Memory>
    requires context { IsContext context.now }
    requires interface { IsInterface context.now.interface.now }
    requires small { IsSmall context.now.interface.now }
    requires shape { IsMember context.now.shape.now (shapes_of context.now.interface.now) }
    requires live { IsLive context.now.interface.now context.now.shape.now }
    requires graph { IsGraph graph.now }
    requires sound { IsSound graph.now }
    requires violations { violations.now ≡ violations_of context.now.interface.now }
    requires count { length least.old.lines.items ≡ length violations.now }
    ensures { OnOk result (IsNoted (IsBrokenUnder context.now.interface.now context.now.live.now context.now.shape.now graph.now) violations.now least.old.lines.items least.new.lines.items) }
{
    let table = depths(alloc, graph)?.table(alloc, graph)?;
    let sharers = sharers(alloc, context)?;
    let moves = all_moves(alloc, context, graph, table.as_slice())?;
    let layout = layout_of(context.interface, moves.as_slice());
    let blocks = basic_blocks(alloc, graph)?;
    let names = PlaceNames::of(context.ground.names.as_slice());
    let pairs = pair_numbers(violations);
    let walk = Walk {
        flow: Flow {
            context,
            layout: &layout,
            graph,
            depths: table.as_slice(),
            sharers: sharers.as_slice(),
            moves: moves.as_slice(),
            blocks: blocks.as_slice(),
        },
        names: &names,
        violations,
        pairs,
    };
    note_flow(alloc, &walk, least)
}

/// The most hands that an instruction reads into.
fn most_hands(moves: &[LineMoves]) -> usize
    ensures { All (λ (m : LineMoves). length m.reads ≤ result) moves.now }
{
    let mut most = 0;
    for line in moves {
        most = most.max(line.reads.len());
    }
    most
}

/// Whether there is one basic block alone, which goes on at the end.
fn is_straight(blocks: &[BasicBlock]) -> bool
    ensures { result ≡ is_straight blocks.now }
{
    match blocks {
        [only] => only.next == 1 && only.goal == 1,
        _ => false,
    }
}

/// Notes what is broken on some path.
fn note_flow(alloc: Global, walk: &Walk, least: &mut Least) -> Result<(), Memory>
    requires walk { IsWalk walk.now }
    requires count { length least.old.lines.items ≡ length walk.now.violations.now }
    ensures { OnOk result (IsNoted (BreaksIn (setting_in walk.now)) walk.now.violations.now least.old.lines.items least.new.lines.items) }
{
    let flow = &walk.flow;
    let Some(words) = most_hands(flow.moves).checked_mul(flow.layout.block_words()) else {
        return Err(Memory);
    };
    let mut hands = vec![in alloc; 0; words]?;
    if is_straight(flow.blocks) {
        return note_straight(alloc, walk, &mut hands, least);
    }
    let mut work = prepare(alloc, flow)?;
    solve(flow, &mut hands, &mut work);
    note_paths(alloc, walk, &work, &mut hands, least)
}

/// Notes what is broken on the paths that are solved.
fn note_paths(
    alloc: Global,
    walk: &Walk,
    work: &Work,
    hands: &mut [u64],
    least: &mut Least,
) -> Result<(), Memory>
    requires walk { IsWalk walk.now }
    requires work { IsWorkFor (length walk.now.flow.blocks.now) (row_words walk.now.flow.layout.now) work.now }
    requires shown { ShowsPaths walk.now.flow work.now }
    requires hands { HaveHands walk.now.flow hands.old }
    requires count { length least.old.lines.items ≡ length walk.now.violations.now }
    ensures { OnOk result (IsNoted (BreaksIn (setting_in walk.now)) walk.now.violations.now least.old.lines.items least.new.lines.items) }
{
    let layout = walk.flow.layout;
    let mut row = vec![in alloc; 0; layout.row_words()]?;
    let mut used = vec![in alloc; 0; layout.value_words()]?;
    for number in 0..walk.flow.blocks.len() {
        row.copy_from_slice(work.row(number));
        note_block(walk, number, &mut row, hands, &mut used, least);
    }
    note_end(walk, work.row(walk.flow.blocks.len()), &mut used, least);
    Ok(())
}

/// Notes what is broken in one basic block that goes on at the end: there is one path.
fn note_straight(
    alloc: Global,
    walk: &Walk,
    hands: &mut [u64],
    least: &mut Least,
) -> Result<(), Memory>
    requires walk { IsWalk walk.now }
    requires straight { IsTrue (is_straight walk.now.flow.blocks.now) }
    requires hands { HaveHands walk.now.flow hands.old }
    requires count { length least.old.lines.items ≡ length walk.now.violations.now }
    ensures { OnOk result (IsNoted (BreaksIn (setting_in walk.now)) walk.now.violations.now least.old.lines.items
        least.new.lines.items) }
{
    let layout = walk.flow.layout;
    let mut row = vec![in alloc; 0; layout.row_words()]?;
    let mut used = vec![in alloc; 0; layout.value_words()]?;
    note_only_path(walk, &mut row, hands, &mut used, least);
    Ok(())
}

/// Notes what is broken on the one path, from a row that has no fact.
fn note_only_path(
    walk: &Walk,
    row: &mut [u64],
    hands: &mut [u64],
    used: &mut [u64],
    least: &mut Least,
)
    requires walk { IsWalk walk.now }
    requires straight { IsTrue (is_straight walk.now.flow.blocks.now) }
    requires blank { row.old ≡ replicate (row_words walk.now.flow.layout.now) 0 }
    requires hands { HaveHands walk.now.flow hands.old }
    requires used { length used.old ≡ value_words walk.now.flow.layout.now }
    requires count { length least.old.lines.items ≡ length walk.now.violations.now }
    ensures { IsNoted (BreaksIn (setting_in walk.now)) walk.now.violations.now least.old.lines.items
        least.new.lines.items }
{
    begin(walk.flow.layout, walk.flow.context, row);
    note_block(walk, 0, row, hands, used, least);
    note_end(walk, row, used, least);
}
