//! The depths of paths as facts of a flow.

ghost use Rattle.std.specs.Prelude.{◌≡◌, ℕ, map, length, slice_index};
ghost use Rattle.blk_deps.specs.Ways.{IsGraph, size_of, goes};
ghost use Rattle.blk_deps.specs.Stack.{no_words, depths_behind, depths_after};
ghost use Rattle.blk_deps.specs.StackTable.{effect_of, depth_number, depths_in};
ghost use Rattle.blk_deps.specs.MoveLaws.{depths_law};
ghost use Rattle.blk_deps.specs.declared.depth.Depth.{Depth};

use crate::Depth;
use crate::blocks::ways;
use crate::effect::StackEffect;
use asm_core::Graph;
use dataflow::Block;

/// A graph with what its instructions do with the pushed words. Its facts are depths, bit d of one word.
#[derive(Drop)]
pub struct Pushing<'a> {
    pub graph: &'a Graph,
    pub effects: &'a [StackEffect],
}

/// The word of a row that has one.
pub fn only_word(row: &[u64]) -> u64
    requires { length row.now ≡ 1 }
    ensures { result ≡ slice_index row.now 0 }
{
    row[0]
}

/// The depths behind an instruction.
fn pushed(effect: StackEffect, word: u64) -> u64
    ensures { (depth : Depth)
        → depths_in result depth ≡ depths_behind effect.pushes effect.pops (depths_in word) depth }
{
    if effect.pushes {
        (word & 0xffff) * 2
    } else if effect.pops {
        word / 2 & 0xffff
    } else {
        word
    }
}

impl Block for Pushing<'_> {
    type Fact = Depth;

    type Scratch = ();

    ghost IsBlock = { λ x. IsGraph x.graph.now × (x.effects.now ≡ map effect_of x.graph.now.insts) };

    ghost IsScratch = { λ _ _. Unit };

    ghost number = { λ _ depth. depth_number depth };

    ghost size = { λ x. size_of x.graph.now };

    ghost width = { λ _. 1 };

    ghost goes = { λ x. goes x.graph.now };

    ghost start = { λ _. no_words };

    ghost after = { λ x. depths_after x.graph.now };

    ghost one_cause = { λ x at. depths_law x.graph.now at };

    fn size(&self) -> usize {
        self.graph.insts.len()
    }

    fn width(&self) -> usize {
        1
    }

    fn goals(&self, at: usize) -> [usize; 2] {
        ways(self.graph, at)
    }

    fn begin(&self, row: &mut [u64]) {
        row[0] = 1;
    }

    fn apply(&self, at: usize, _scratch: &mut (), row: &mut [u64]) {
        let word = only_word(row);
        row[0] = pushed(self.effects[at], word);
    }
}
