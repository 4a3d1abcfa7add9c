//! The facts of all paths of a block under a shape, at the heads of its basic blocks.

ghost use Rattle.std.specs.Prelude.{◌≡◌, ℕ, ◌<◌, length, IfOk};
ghost use Rattle.dataflow.specs.Working.{IsWorkFor};
ghost use Rattle.blk_deps.specs.Ways.{size_of};
ghost use Rattle.blk_deps.specs.Layout.{row_words, fact_bit, shown};
ghost use Rattle.blk_deps.specs.Blocks.{goes_of, facts_behind};
ghost use Rattle.blk_deps.specs.Findings.{start_of, facts_after};
ghost use Rattle.blk_deps.specs.FlowFacts.{setting_of, IsFlow, HaveHands, ShowsPaths};
ghost use Rattle.blk_deps.specs.FlowLaws.{block_law};
ghost use Rattle.blk_deps.specs.declared.fact.Fact.{Fact};

use crate::row::{begin, step};
use crate::{BasicBlock, Context, Fact, Layout, LineMoves};
use asm_core::{Graph, Memory};
use dataflow::{Block, Work};
use std::alloc::Global;

/// A block under a shape, whose nodes are its basic blocks.
#[derive(Clone, Copy)]
pub struct Flow<'a> {
    pub context: &'a Context<'a>,
    pub layout: &'a Layout,
    pub graph: &'a Graph,
    /// How many words are pushed before each instruction, and at the end.
    pub depths: &'a [u8],
    /// Bit q of word p: places p and q may be in one register.
    pub sharers: &'a [u64],
    /// What each instruction does.
    pub moves: &'a [LineMoves],
    pub blocks: &'a [BasicBlock],
}

impl Flow<'_> {
    /// Moves the row by an instruction.
    fn move_by(&self, at: usize, hands: &mut [u64], row: &mut [u64])
        requires flow { IsFlow self.now }
        requires node { at < size_of self.now.graph.now }
        requires hands { HaveHands self.now hands.old }
        requires row { length row.old ≡ row_words self.now.layout.now }
        ensures hands { HaveHands self.now hands.new }
        ensures row { length row.new ≡ row_words self.now.layout.now }
        ensures facts { (fact : Fact)
            → shown self.now.layout.now row.new fact
            ≡ facts_after (setting_of self.now) at (shown self.now.layout.now row.old) fact }
    {
        let moves = &self.moves[at];
        step(
            self.layout,
            self.sharers,
            moves.reads.as_slice(),
            moves.puts.as_slice(),
            hands,
            row,
        );
    }
}

impl Block for Flow<'_> {
    type Fact = Fact;

    type Scratch = Vec<u64>;

    ghost IsBlock = { IsFlow };

    ghost IsScratch = { λ x hands. HaveHands x hands.items };

    ghost number = { λ x fact. fact_bit x.layout.now fact };

    ghost size = { λ x. length x.blocks.now };

    ghost width = { λ x. row_words x.layout.now };

    ghost goes = { λ x. goes_of (size_of x.graph.now) x.blocks.now };

    ghost start = { λ x. start_of (setting_of x) };

    ghost after = { λ x. facts_behind (size_of x.graph.now) x.blocks.now (facts_after (setting_of x)) };

    ghost one_cause = { block_law };

    fn size(&self) -> usize {
        self.blocks.len()
    }

    fn width(&self) -> usize {
        self.layout.row_words()
    }

    fn goals(&self, at: usize) -> [usize; 2] {
        let block = self.blocks[at];
        [block.next, block.goal]
    }

    fn begin(&self, row: &mut [u64]) {
        begin(self.layout, self.context, row);
    }

    fn apply(&self, at: usize, hands: &mut Vec<u64>, row: &mut [u64]) {
        let block = self.blocks[at];
        for passed in 0..block.count {
            self.move_by(block.first + passed, hands, row);
        }
    }
}

/// Takes all the memory that `solve` needs.
///
/// # Errors
/// Want of memory.
pub fn prepare(alloc: Global, flow: &Flow) -> Result<Work, Memory>
    requires { IsFlow flow.now }
    ensures { IfOk result (IsWorkFor (length flow.now.blocks.now) (row_words flow.now.layout.now)) }
{
    let Ok(work) = dataflow::prepare(alloc, flow) else {
        return Err(Memory);
    };
    Ok(work)
}

/// Finds the facts of all paths to the head of each basic block, and to the end.
pub fn solve(flow: &Flow, hands: &mut Vec<u64>, work: &mut Work)
    requires flow { IsFlow flow.now }
    requires hands { HaveHands flow.now hands.old.items }
    requires work { IsWorkFor (length flow.now.blocks.now) (row_words flow.now.layout.now) work.old }
    ensures hands { HaveHands flow.now hands.new.items }
    ensures work { IsWorkFor (length flow.now.blocks.now) (row_words flow.now.layout.now) work.new }
    ensures shown { ShowsPaths flow.now work.new }
{
    dataflow::solve(flow, hands, work);
}
