//! What is used at the end.

ghost use Rattle.std.specs.Prelude.{◌≡◌, ◌+◌, ◌*◌, ◌<◌, ◌≤◌, length};
ghost use Rattle.asm_core.specs.WellFormed.{IsInterface};
ghost use Rattle.blk_deps.specs.Layout.{IsLayout, places_in, value_words, row_words, shown, shown_value};
ghost use Rattle.blk_deps.specs.Ground.{IsContext};
ghost use Rattle.blk_deps.specs.Rules.{used_at_end};
ghost use Rattle.blk_deps.specs.Scenes.{ShowsUsed};
ghost use Rattle.blk_deps.specs.Collecting.{Adds, some_of, of_result, of_flag, of_kept, pairs_alone, pairs_from, in_cell};

use super::bits::{has_bit, has_cell_bit};
use crate::row::{read_as, value};
use crate::value::pairs;
use crate::{Context, Layout, words};

/// Puts what the value of the cell has, as it is read, if it is a result.
fn read_result(results: &[u64; 3], layout: &Layout, row: &[u64], cell: u8, to: &mut [u64])
    requires layout { IsLayout layout.now }
    requires row { length row.now ≡ row_words layout.now }
    requires size { length to.old ≡ value_words layout.now }
    requires cell { cell < 4 * places_in layout.now }
    ensures size { length to.new ≡ value_words layout.now }
    ensures adds { Adds layout.now (λ property. of_result results.now
        (shown layout.now row.now) property cell) to.old to.new }
{
    if has_cell_bit(results, cell as usize) {
        read_as(layout, row, cell, to);
    }
}

fn read_results(results: &[u64; 3], layout: &Layout, row: &[u64], to: &mut [u64])
    requires layout { IsLayout layout.now }
    requires row { length row.now ≡ row_words layout.now }
    requires size { length to.old ≡ value_words layout.now }
    ensures size { length to.new ≡ value_words layout.now }
    ensures adds { Adds layout.now (λ property. some_of (of_result results.now (shown layout.now row.now) property)
        (4 * places_in layout.now)) to.old to.new }
{
    let count = 4 * layout.places() as u8;
    for cell in 0..count {
        read_result(results, layout, row, cell, to);
    }
}

/// The same of the flag, if a flag output's condition names it.
fn read_flag(flags: u8, layout: &Layout, row: &[u64], flag: u8, to: &mut [u64])
    requires layout { IsLayout layout.now }
    requires row { length row.now ≡ row_words layout.now }
    requires size { length to.old ≡ value_words layout.now }
    requires flag { flag < 6 }
    ensures size { length to.new ≡ value_words layout.now }
    ensures adds { Adds layout.now (λ property. of_flag flags (shown layout.now row.now) property flag) to.old to.new }
{
    if has_bit(flags as u64, flag as usize) {
        read_as(layout, row, 148 + flag, to);
    }
}

fn read_flags(flags: u8, layout: &Layout, row: &[u64], to: &mut [u64])
    requires layout { IsLayout layout.now }
    requires row { length row.now ≡ row_words layout.now }
    requires size { length to.old ≡ value_words layout.now }
    ensures size { length to.new ≡ value_words layout.now }
    ensures adds { Adds layout.now (λ property. some_of (of_flag flags
        (shown layout.now row.now) property) 6) to.old to.new }
{
    for flag in 0..6 {
        read_flag(flags, layout, row, flag, to);
    }
}

/// Puts the pairs of what was read from place u.
fn join_from(layout: &Layout, value: &[u64], u: usize, to: &mut [u64])
    requires layout { IsLayout layout.now }
    requires value { length value.now ≡ value_words layout.now }
    requires size { length to.old ≡ value_words layout.now }
    requires place { u < places_in layout.now }
    ensures size { length to.new ≡ value_words layout.now }
    ensures adds { Adds layout.now (pairs_from u (shown_value layout.now value.now)) to.old to.new }
{
    words::join_word(to, 2 * layout.cell_words() + 1 + u, pairs(layout, value, u));
}

/// Puts the pairs of a value.
fn join_pairs(layout: &Layout, value: &[u64], to: &mut [u64])
    requires layout { IsLayout layout.now }
    requires value { length value.now ≡ value_words layout.now }
    requires size { length to.old ≡ value_words layout.now }
    ensures size { length to.new ≡ value_words layout.now }
    ensures adds { Adds layout.now (pairs_alone (shown_value layout.now value.now)) to.old to.new }
{
    for u in 0..layout.places() {
        join_from(layout, value, u, to);
    }
}

/// Puts the pairs of the cell's value, if its place has to be as at the entry.
fn join_kept(kept: u64, layout: &Layout, row: &[u64], cell: u8, to: &mut [u64])
    requires layout { IsLayout layout.now }
    requires row { length row.now ≡ row_words layout.now }
    requires size { length to.old ≡ value_words layout.now }
    requires cell { cell < 4 * places_in layout.now }
    ensures size { length to.new ≡ value_words layout.now }
    ensures adds { Adds layout.now (λ property. of_kept kept (shown layout.now row.now) property cell) to.old to.new }
{
    if has_bit(kept, cell as usize / 4) {
        join_pairs(layout, value(layout, row, cell), to);
    }
}

fn join_all_kept(kept: u64, layout: &Layout, row: &[u64], to: &mut [u64])
    requires layout { IsLayout layout.now }
    requires row { length row.now ≡ row_words layout.now }
    requires size { length to.old ≡ value_words layout.now }
    ensures size { length to.new ≡ value_words layout.now }
    ensures adds { Adds layout.now (λ property. some_of (of_kept kept (shown layout.now row.now) property)
        (4 * places_in layout.now)) to.old to.new }
{
    let count = 4 * layout.places() as u8;
    for cell in 0..count {
        join_kept(kept, layout, row, cell, to);
    }
}

/// Puts what the values have that are used at the end: the results as they are read, and the pairs of what has to be as at the entry.
pub fn collect_end_uses(context: &Context, layout: &Layout, row: &[u64], to: &mut [u64])
    requires interface { IsInterface context.now.interface.now }
    requires context { IsContext context.now }
    requires layout { IsLayout layout.now }
    requires operands { layout.now.operands ≡ length context.now.interface.now.operands }
    requires row { length row.now ≡ row_words layout.now }
    requires size { length to.old ≡ value_words layout.now }
    ensures size { length to.new ≡ value_words layout.now }
    ensures used { ShowsUsed layout.now to.new (used_at_end context.now.interface.now context.now.shape.now
        (shown layout.now row.now)) }
{
    words::clear(to);
    read_results(&context.ground.results, layout, row, to);
    read_flags(context.ground.result_flags, layout, row, to);
    join_all_kept(context.ground.kept, layout, row, to);
}
