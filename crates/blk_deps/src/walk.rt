//! What is broken along a basic block, from the facts at its head, and at the end of all.

ghost use Rattle.std.specs.Prelude.{◌≡◌, ◌<◌, length};
ghost use Rattle.blk_deps.specs.Ways.{size_of};
ghost use Rattle.blk_deps.specs.Layout.{value_words, row_words};
ghost use Rattle.blk_deps.specs.Findings.{facts_after};
ghost use Rattle.blk_deps.specs.FlowFacts.{HaveHands};
ghost use Rattle.blk_deps.specs.Scenes.{IsAbout, ShowsUsed};
ghost use Rattle.blk_deps.specs.Noting.{BreaksOn};
ghost use Rattle.blk_deps.specs.Blocks.{facts_behind};
ghost use Rattle.blk_deps.specs.Walking.{is_by_text, breaks_by_text, breaks_before, passes_pairs, has_used_pair};
ghost use Rattle.blk_deps.specs.Walking.{BreaksHere, BreaksAlong, BreaksEnd};
ghost use Rattle.blk_deps.specs.Walking.{setting_in, scene_of, shown_in, used_by, Notes, first_in, count_in, IsWalk, IsAt, ShowsUsedAt, HoldsReads};
ghost use Rattle.blk_deps.specs.declared.fact.Fact.{Fact};

use crate::findings::Least;
use crate::listing::PairNumbers;
use crate::row::{is_here, put_all, read_all};
use crate::rules::{
    AtLine, PlaceNames, Scene, Uses, breaks_at_end, breaks_at_line, breaks_u2, collect_end_uses,
};
use crate::value::collect_used;
use crate::{Flow, Violation};
use asm_core::{Cell, END_LINE, Rule};

/// What is walked along: a block under a shape, whose violations are noted.
#[derive(Clone, Copy)]
pub struct Walk<'a> {
    pub flow: Flow<'a>,
    /// The places of each name.
    pub names: &'a PlaceNames,
    pub violations: &'a [Violation],
    /// Violations of pairs of places.
    pub pairs: PairNumbers,
}

/// What the tests of the rules are given.
fn scene_of<'a>(walk: &Walk<'a>) -> Scene<'a>
    ensures { result ≡ scene_of walk.now }
{
    Scene {
        context: walk.flow.context,
        layout: walk.flow.layout,
        names: walk.names,
        sharers: walk.flow.sharers,
    }
}

/// Whether the violation is one of a text alone.
fn is_by_text(violation: &Violation) -> bool
    ensures { result ≡ is_by_text violation.now }
{
    matches!(violation.rule, Rule::U2) && matches!(violation.other, Cell::Nothing)
}

/// Whether the instruction breaks the rule by its text.
fn breaks_by_text(walk: &Walk, at: &AtLine, violation: &Violation) -> bool
    requires walk { IsWalk walk.now }
    ensures { result ≡ breaks_by_text (setting_in walk.now) at.now.line.now violation.now }
{
    is_by_text(violation) && breaks_u2(walk.flow.sharers, at.line, violation.cell)
}

/// Whether the instruction breaks the rule, by its text or by the facts before it.
fn breaks_before(walk: &Walk, at: &AtLine, row: &[u64], used: &Uses, violation: &Violation) -> bool
    requires walk { IsWalk walk.now }
    requires at { IsAt walk.now row.now at.now }
    requires about { IsAbout (length walk.now.flow.context.now.interface.now.operands) violation.now }
    requires layout { used.now.layout ≡ walk.now.flow.layout.now }
    requires used { ShowsUsed used.now.layout used.now.words.now (used_by walk.now at.now row.now) }
    ensures { result ≡ breaks_before (setting_in walk.now) at.now.depth at.now.line.now (shown_in walk.now row.now) violation.now }
{
    let scene = scene_of(walk);
    breaks_by_text(walk, at, violation) || breaks_at_line(&scene, at, row, used, violation)
}

/// Whether the violations of pairs are next, and nothing that is used has a pair.
fn passes_pairs(walk: &Walk, used: &Uses, t: usize) -> bool
    ensures { result ≡ passes_pairs walk.now.pairs (has_used_pair used.now) t }
{
    t == walk.pairs.first && t < walk.pairs.end && !used.has_pair()
}

/// Notes what the instruction breaks that is on that line of a report.
fn note_line(walk: &Walk, at: &AtLine, row: &[u64], used: &Uses, line: u32, least: &mut Least)
    requires walk { IsWalk walk.now }
    requires at { IsAt walk.now row.now at.now }
    requires layout { used.now.layout ≡ walk.now.flow.layout.now }
    requires used { ShowsUsed used.now.layout used.now.words.now (used_by walk.now at.now row.now) }
    requires line { 0 < line }
    requires count { length least.old.lines.items ≡ length walk.now.violations.now }
    ensures { Notes walk.now (BreaksOn (breaks_before (setting_in walk.now) at.now.depth at.now.line.now (shown_in walk.now row.now)) line) least.old least.new }
{
    let mut t = 0;
    while t < walk.violations.len() {
        if passes_pairs(walk, used, t) {
            t = walk.pairs.end;
            continue;
        }
        let broken = least.is_less(t, line)
            && breaks_before(walk, at, row, used, &walk.violations[t]);
        least.enter(t, line, broken);
        t += 1;
    }
}

/// Reads what instruction n reads into the hands, and puts what it uses together.
fn read_node(walk: &Walk, n: usize, row: &[u64], hands: &mut [u64], used: &mut [u64])
    requires walk { IsWalk walk.now }
    requires node { n < size_of walk.now.flow.graph.now }
    requires row { length row.now ≡ row_words walk.now.flow.layout.now }
    requires hands { HaveHands walk.now.flow hands.old }
    requires used { length used.old ≡ value_words walk.now.flow.layout.now }
    ensures hands { HaveHands walk.now.flow hands.new }
    ensures used { length used.new ≡ value_words walk.now.flow.layout.now }
    ensures reads { HoldsReads walk.now n row.now hands.new }
    ensures uses { ShowsUsedAt walk.now n row.now used.new }
{
    let layout = walk.flow.layout;
    let moves = &walk.flow.moves[n];
    read_all(layout, row, moves.reads.as_slice(), hands);
    collect_used(layout, hands, moves.used.as_slice(), used);
}

/// Notes what instruction n breaks.
fn note_node(walk: &Walk, n: usize, row: &[u64], used: &[u64], least: &mut Least)
    requires walk { IsWalk walk.now }
    requires node { n < size_of walk.now.flow.graph.now }
    requires row { length row.now ≡ row_words walk.now.flow.layout.now }
    requires used { length used.now ≡ value_words walk.now.flow.layout.now }
    requires uses { ShowsUsedAt walk.now n row.now used.now }
    requires count { length least.old.lines.items ≡ length walk.now.violations.now }
    ensures { Notes walk.now (BreaksHere (setting_in walk.now) n (shown_in walk.now row.now)) least.old least.new }
{
    let flow = &walk.flow;
    let moves = &flow.moves[n];
    let at = AtLine {
        line: &flow.graph.insts.as_slice()[n],
        accesses: moves.accesses.as_slice(),
        addressed: moves.addressed,
        depth: flow.depths[n],
        here: is_here(row),
    };
    note_line(
        walk,
        &at,
        row,
        &Uses::new(flow.layout, used),
        n as u32 + 1,
        least,
    );
}

/// Puts what instruction n has in hands.
fn put_node(walk: &Walk, n: usize, hands: &[u64], row: &mut [u64])
    requires walk { IsWalk walk.now }
    requires node { n < size_of walk.now.flow.graph.now }
    requires hands { HaveHands walk.now.flow hands.now }
    requires reads { HoldsReads walk.now n row.old hands.now }
    requires row { length row.old ≡ row_words walk.now.flow.layout.now }
    ensures row { length row.new ≡ row_words walk.now.flow.layout.now }
    ensures facts { (fact : Fact) → shown_in walk.now row.new fact ≡ facts_after (setting_in walk.now) n (shown_in walk.now row.old) fact }
{
    let flow = &walk.flow;
    let moves = &flow.moves[n];
    put_all(flow.layout, flow.sharers, moves.puts.as_slice(), hands, row);
}

/// Notes what the instructions of a basic block break. The row shows the facts before the first, and in the end those behind the last.
pub fn note_block(
    walk: &Walk,
    number: usize,
    row: &mut [u64],
    hands: &mut [u64],
    used: &mut [u64],
    least: &mut Least,
)
    requires walk { IsWalk walk.now }
    requires block { number < length walk.now.flow.blocks.now }
    requires row { length row.old ≡ row_words walk.now.flow.layout.now }
    requires hands { HaveHands walk.now.flow hands.old }
    requires used { length used.old ≡ value_words walk.now.flow.layout.now }
    requires count { length least.old.lines.items ≡ length walk.now.violations.now }
    ensures row { length row.new ≡ row_words walk.now.flow.layout.now }
    ensures hands { HaveHands walk.now.flow hands.new }
    ensures used { length used.new ≡ value_words walk.now.flow.layout.now }
    ensures facts { (fact : Fact) → shown_in walk.now row.new fact
        ≡ facts_behind (size_of walk.now.flow.graph.now) walk.now.flow.blocks.now
        (facts_after (setting_in walk.now)) number (shown_in walk.now row.old) fact }
    ensures noted { Notes walk.now
        (BreaksAlong (setting_in walk.now) (first_in walk.now number) (count_in walk.now number)
        (shown_in walk.now row.old)) least.old least.new }
{
    let block = walk.flow.blocks[number];
    for passed in 0..block.count {
        let n = block.first + passed;
        read_node(walk, n, row, hands, used);
        note_node(walk, n, row, used, least);
        put_node(walk, n, hands, row);
    }
}

/// Notes what the end breaks, by the facts there.
pub fn note_end(walk: &Walk, row: &[u64], used: &mut [u64], least: &mut Least)
    requires walk { IsWalk walk.now }
    requires row { length row.now ≡ row_words walk.now.flow.layout.now }
    requires used { length used.old ≡ value_words walk.now.flow.layout.now }
    requires count { length least.old.lines.items ≡ length walk.now.violations.now }
    ensures used { length used.new ≡ value_words walk.now.flow.layout.now }
    ensures noted { Notes walk.now (BreaksEnd (setting_in walk.now) (shown_in walk.now row.now)) least.old least.new }
{
    let scene = scene_of(walk);
    collect_end_uses(scene.context, scene.layout, row, used);
    let uses = Uses::new(scene.layout, used);
    let mut t = 0;
    while t < walk.violations.len() {
        if passes_pairs(walk, &uses, t) {
            t = walk.pairs.end;
            continue;
        }
        let broken = least.is_less(t, END_LINE)
            && breaks_at_end(&scene, row, &uses, &walk.violations[t]);
        least.enter(t, END_LINE, broken);
        t += 1;
    }
}
