//! How many words are pushed along the paths of a graph, and which rules on the stack that breaks.

ghost use Rattle.std.specs.Prelude.{◌≡◌, ℕ, ◌+◌, ◌<◌, ◌≤◌, ◌&&◌, ◌||◌, ◌↔◌, true, length, IfOk};
ghost use Rattle.asm_core.specs.declared.finding.Rule.{Rule};
ghost use Rattle.dataflow.specs.Working.{found_in};
ghost use Rattle.blk_deps.specs.Ground.{has_bit};
ghost use Rattle.blk_deps.specs.declared.depth.Depth.{Depth};
ghost use Rattle.blk_deps.specs.Ways.{IsGraph, size_of, line_number};
ghost use Rattle.blk_deps.specs.Stack.{BreaksStack, AreDepths};
ghost use Rattle.blk_deps.specs.StackTable.{HasDeep, HasTwo, depths_in, depth_number, IsStack, IsLeastOf, IsBrokenOn, IsDepthAt, IsSound, FitDepths};

mod pushing;

use crate::effect::{StackEffect, effects};
use asm_core::{Graph, Items, Memory, Rule};
use dataflow::Work;
use pushing::{Pushing, only_word};
use std::alloc::Global;

/// The depths of all paths to each node.
#[derive(Drop)]
pub struct Stack {
    effects: Items<StackEffect>,
    /// A word for each node and the end: bit d where d words are pushed on some path.
    work: Work,
}

/// The depths of all paths.
///
/// # Errors
/// Want of memory.
pub fn depths(alloc: Global, graph: &Graph) -> Result<Stack, Memory>
    requires { IsGraph graph.now }
    ensures { IfOk result (IsStack graph.now) }
{
    let effects = effects(alloc, graph)?;
    let pushing = Pushing {
        graph,
        effects: effects.as_slice(),
    };
    let Ok(mut work) = dataflow::prepare(alloc, &pushing) else {
        return Err(Memory);
    };
    dataflow::solve(&pushing, &mut (), &mut work);
    Ok(Stack { effects, work })
}

/// Some bit but bit 0.
fn has_deep(word: u64) -> bool
    ensures { (result ≡ true) ↔ HasDeep word }
{
    word > 1
}

/// Two bits: what is left without the least one.
fn has_two(word: u64) -> bool
    ensures { (result ≡ true) ↔ HasTwo word }
{
    word != 0 && word & !(1 << word.trailing_zeros()) != 0
}

fn has_depth(word: u64, depth: u32) -> bool
    requires { depth < 64 }
    ensures { result ≡ has_bit word depth }
{
    word >> depth & 1 == 1
}

/// 16 words are pushed before a push, or none before a pop.
fn overruns(effect: StackEffect, word: u64) -> bool
    ensures { result ≡ ((effect.pushes && has_bit word 16) || (effect.pops && has_bit word 0)) }
{
    (effect.pushes && has_depth(word, 16)) || (effect.pops && has_depth(word, 0))
}

/// How reports number a node.
fn line_number(graph: &Graph, node: usize) -> u32
    requires { node ≤ 512 }
    ensures { result ≡ line_number graph.now node }
{
    if node == graph.insts.len() {
        513
    } else {
        node as u32 + 1
    }
}

impl Stack {
    /// The depths of the paths to a node, as bits.
    fn word(&self, node: usize) -> u64
        requires node { node ≤ length self.now.work.pending.items }
        requires width { self.now.work.rows.width ≡ 1 }
        ensures { (depth : Depth) → depths_in result depth ≡ found_in depth_number self.now.work node depth }
    {
        only_word(self.work.row(node))
    }

    /// Whether words are left at the end, if the node is the end.
    fn leaves(&self, graph: &Graph, node: usize) -> bool
        requires stack { IsStack graph.now self.now }
        requires node { node ≤ size_of graph.now }
        ensures { (result ≡ true) ↔ BreaksStack graph.now Rule.S1 node }
    {
        node == graph.insts.len() && has_deep(self.word(node))
    }

    /// Whether two paths come to the node with two depths.
    fn differs(&self, graph: &Graph, node: usize) -> bool
        requires stack { IsStack graph.now self.now }
        requires node { node ≤ size_of graph.now }
        ensures { (result ≡ true) ↔ BreaksStack graph.now Rule.S2 node }
    {
        has_two(self.word(node))
    }

    /// Whether the instruction pushes where 16 words are pushed, or pops where none is.
    fn overruns(&self, graph: &Graph, node: usize) -> bool
        requires stack { IsStack graph.now self.now }
        requires node { node ≤ size_of graph.now }
        ensures { (result ≡ true) ↔ BreaksStack graph.now Rule.S3 node }
    {
        node < graph.insts.len() && overruns(self.effects.as_slice()[node], self.word(node))
    }

    /// Whether the node breaks a rule on the stack.
    fn breaks(&self, graph: &Graph, rule: Rule, node: usize) -> bool
        requires stack { IsStack graph.now self.now }
        requires node { node ≤ size_of graph.now }
        ensures { (result ≡ true) ↔ BreaksStack graph.now rule node }
    {
        match rule {
            Rule::S1 => self.leaves(graph, node),
            Rule::S2 => self.differs(graph, node),
            Rule::S3 => self.overruns(graph, node),
            _ => false,
        }
    }

    /// The line of the first node that breaks a rule on the stack, as reports number it.
    pub fn least_line(&self, graph: &Graph, rule: Rule) -> Option<u32>
        requires graph { IsGraph graph.now }
        requires stack { IsStack graph.now self.now }
        ensures { IsLeastOf (IsBrokenOn graph.now rule) result }
    {
        for node in 0..graph.insts.len() + 1 {
            if self.breaks(graph, rule, node) {
                return Some(line_number(graph, node));
            }
        }
        None
    }

    /// How many words are pushed before the node on some path, 0 where no path comes to it.
    fn depth_at(&self, graph: &Graph, node: usize) -> u8
        requires stack { IsStack graph.now self.now }
        requires node { node ≤ size_of graph.now }
        ensures { IsDepthAt graph.now node result }
    {
        let word = self.word(node);
        if word == 0 {
            return 0;
        }
        word.trailing_zeros() as u8
    }

    /// How many words are pushed before each instruction and at the end, 0 where no path comes to.
    ///
    /// # Errors
    /// Want of memory.
    pub fn table(&self, alloc: Global, graph: &Graph) -> Result<Items<u8>, Memory>
        requires graph { IsGraph graph.now }
        requires stack { IsStack graph.now self.now }
        requires sound { IsSound graph.now }
        ensures depths { IfOk result (AreDepths graph.now) }
        ensures fit { IfOk result (FitDepths graph.now) }
    {
        let mut depths = Items::new(alloc);
        for node in 0..graph.insts.len() + 1 {
            depths.push(self.depth_at(graph, node))?;
        }
        Ok(depths)
    }
}
