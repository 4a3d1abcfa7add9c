//! The basic blocks of a graph.

ghost use Rattle.std.specs.Prelude.{◌≡◌, ◌+◌, ◌<◌, ◌≤◌, [], ◌∷◌, length, IfOk, OnOk};
ghost use Rattle.blk_flow.specs.Graph.{always_jumps};
ghost use Rattle.blk_deps.specs.Ways.{IsGraph, size_of, goes};
ghost use Rattle.blk_deps.specs.Blocks.{AreBlocks};
ghost use Rattle.blk_deps.specs.Heads.{AreHeads, IsNumbering, MarksHeads, grown, block_from};

use asm_core::{Graph, Items, Memory, Op};
use std::alloc::Global;

/// Instructions that follow one another. Only the first is entered from elsewhere, and only the last goes on elsewhere.
#[derive(Clone, Copy, Debug, PartialEq, Eq)]
pub struct BasicBlock {
    /// The number of its first instruction.
    pub first: usize,
    /// How many instructions it has.
    pub count: usize,
    /// The number of the block behind its last instruction, or to which that always jumps; the count of blocks is the
    /// end.
    pub next: usize,
    /// The number of the block to which its last instruction jumps, or of the next one.
    pub goal: usize,
}

/// Which nodes begin a block, and how they are numbered.
#[derive(Drop)]
struct Numbering {
    /// The nodes that begin a block, and the end.
    firsts: Items<usize>,
    /// For each node how many of them come before it.
    numbers: Items<usize>,
}

fn always_jumps(op: Op) -> bool
    ensures { result ≡ always_jumps op }
{
    matches!(op, Op::Jmp)
}

/// Where an instruction goes on.
#[inline]
pub(crate) fn ways(graph: &Graph, at: usize) -> [usize; 2]
    requires graph { IsGraph graph.now }
    requires node { at < size_of graph.now }
    ensures ways { result ≡ goes graph.now at 0 ∷ goes graph.now at 1 ∷ [] }
    ensures next { goes graph.now at 0 ≤ size_of graph.now }
    ensures goal { goes graph.now at 1 ≤ size_of graph.now }
{
    let goal = graph.goals.as_slice()[at] as usize;
    let next = if always_jumps(graph.insts.as_slice()[at].op) {
        goal
    } else {
        at + 1
    };
    [next, goal]
}

/// Where an instruction doesn't go on at the next one alone, its goals and the next one begin blocks.
fn mark_heads(graph: &Graph, at: usize, heads: &mut [bool])
    requires graph { IsGraph graph.now }
    requires node { at < size_of graph.now }
    requires count { length heads.old ≡ size_of graph.now + 1 }
    ensures { MarksHeads graph.now at heads.old heads.new }
{
    let [next, goal] = ways(graph, at);
    if next == at + 1 && goal == at + 1 {
        return;
    }
    heads[at + 1] = true;
    heads[next] = true;
    heads[goal] = true;
}

/// Marks the nodes that begin a block, and the end.
fn mark_all(alloc: Global, graph: &Graph) -> Result<Vec<bool>, Memory>
    requires { IsGraph graph.now }
    ensures { IfOk result (λ v. AreHeads graph.now v.items) }
{
    let size = graph.insts.len();
    let mut heads = vec![in alloc; false; size + 1]?;
    heads[0] = true;
    heads[size] = true;
    for at in 0..size {
        mark_heads(graph, at, &mut heads);
    }
    Ok(heads)
}

/// A node that begins a block comes to those before it.
fn push_head(firsts: &mut Items<usize>, head: bool, node: usize) -> Result<(), Memory>
    ensures { OnOk result (firsts.new ≡ grown head firsts.old node) }
{
    if head {
        firsts.push(node)?;
    }
    Ok(())
}

fn number_heads(alloc: Global, heads: &[bool]) -> Result<Numbering, Memory>
    ensures { IfOk result (IsNumbering heads.now) }
{
    let mut firsts = Items::new(alloc);
    let mut numbers = Items::new(alloc);
    for (node, &head) in heads.iter().enumerate() {
        numbers.push(firsts.len())?;
        push_head(&mut firsts, head, node)?;
    }
    Ok(Numbering { firsts, numbers })
}

/// The block between two nodes that begin one.
fn block_between(graph: &Graph, numbers: &[usize], first: usize, end: usize) -> BasicBlock
    requires graph { IsGraph graph.now }
    requires rise { first < end }
    requires within { end ≤ size_of graph.now }
    requires numbers { length numbers.now ≡ size_of graph.now + 1 }
    ensures { result ≡ block_from graph.now numbers.now first end }
{
    let [next, goal] = ways(graph, end - 1);
    BasicBlock {
        first,
        count: end - first,
        next: numbers[next],
        goal: numbers[goal],
    }
}

/// The basic blocks of a graph, upwards.
///
/// # Errors
/// Want of memory.
pub fn basic_blocks(alloc: Global, graph: &Graph) -> Result<Items<BasicBlock>, Memory>
    requires { IsGraph graph.now }
    ensures { IfOk result (AreBlocks (size_of graph.now) (goes graph.now)) }
{
    let heads = mark_all(alloc, graph)?;
    let numbering = number_heads(alloc, &heads)?;
    let firsts = numbering.firsts.as_slice();
    let numbers = numbering.numbers.as_slice();
    let mut blocks = Items::new(alloc);
    for number in 1..firsts.len() {
        let block = block_between(graph, numbers, firsts[number - 1], firsts[number]);
        blocks.push(block)?;
    }
    Ok(blocks)
}
