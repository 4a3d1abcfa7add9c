//! Rows of facts, as words.

ghost use Rattle.std.specs.Prelude.{◌≡◌, ℕ, ◌+◌, ◌*◌, ◌<◌, ◌≤◌, ◌||◌, ◌&&◌, IsTrue, All, length, slice_index, replicate};
ghost use Rattle.asm_core.specs.declared.interface.Interface.{Interface};
ghost use Rattle.dataflow.specs.Bits.{facts_in};
ghost use Rattle.blk_deps.specs.Cells.{is_byte};
ghost use Rattle.blk_deps.specs.Facts.{has_as_read, has_read, is_paired};
ghost use Rattle.blk_deps.specs.Ground.{has_bit, IsContext};
ghost use Rattle.blk_deps.specs.Start.{at_entry};
ghost use Rattle.blk_deps.specs.Layout.{IsLayout, places_in, cells_in, value_words, block_words, row_words, shown, shown_value};
ghost use Rattle.blk_deps.specs.Fits.{has_slot, IsBlockOf, held, fits_name, FitsRead, FitReads, FitPuts, FitsLayout, HandsHold, IsSmall, Moves, PutsDown};
ghost use Rattle.blk_deps.specs.declared.layout.Layout.{Layout};
ghost use Rattle.blk_deps.specs.declared.fact.Property.{Property};
ghost use Rattle.blk_deps.specs.declared.fact.Fact.{Fact};

mod putting;
mod reading;
mod start;

use crate::{Layout, Put, Read, words};
pub use putting::put_all;
pub use reading::{read_all, read_as};
pub use start::begin;

/// Whether a path comes here.
pub fn is_here(row: &[u64]) -> bool
    requires { 0 < length row.now }
    ensures { (l : Layout) → result ≡ shown l row.now Fact.Here }
{
    words::has(row, 0)
}

/// Whether the direction flag is set.
pub fn direction_set(row: &[u64]) -> bool
    requires { 0 < length row.now }
    ensures { (l : Layout) → result ≡ shown l row.now Fact.DirectionSet }
{
    words::has(row, 1)
}

/// The bytes of an operand that aren't written yet, as bits.
pub fn unwritten(layout: &Layout, row: &[u64], operand: usize) -> u64
    requires layout { IsLayout layout.now }
    requires size { length row.now ≡ row_words layout.now }
    requires operand { operand < layout.now.operands }
    ensures { (b : ℕ) → b < 64 → has_bit result b ≡ shown layout.now row.now (Fact.Unwritten operand b) }
{
    row[1 + operand]
}

/// The value of a cell.
pub fn value<'a>(layout: &Layout, row: &'a [u64], cell: u8) -> &'a [u64]
    requires layout { IsLayout layout.now }
    requires size { length row.now ≡ row_words layout.now }
    requires cell { IsTrue (has_slot layout.now cell) }
    ensures size { length result.now ≡ value_words layout.now }
    ensures held { (property : Property) → held layout.now (shown layout.now row.now Fact.Here) result.now property
        ≡ shown layout.now row.now (Fact.Has cell property) }
{
    let at = block(layout, cell);
    &row[at..at + layout.value_words()]
}

/// The places that were written after the cell and may be in its register, as bits.
pub fn overwriters(layout: &Layout, row: &[u64], cell: u8) -> u64
    requires layout { IsLayout layout.now }
    requires size { length row.now ≡ row_words layout.now }
    requires cell { IsTrue (is_byte cell && has_slot layout.now cell) }
    ensures { (d : ℕ) → d < 64 → has_bit result d ≡ shown layout.now row.now (Fact.Overwrites d cell) }
{
    row[block(layout, cell) + layout.value_words()] & words::below(layout.places())
}

/// The first word of a cell's block.
#[inline]
pub(crate) fn block(layout: &Layout, cell: u8) -> usize
    requires layout { IsLayout layout.now }
    requires cell { IsTrue (has_slot layout.now cell) }
    ensures { IsBlockOf layout.now cell result }
{
    match layout.slot(cell) {
        Some(slot) => layout.block(slot),
        None => 0,
    }
}

/// Moves the row by an instruction: each read goes into its hand, and then the hands are put down in order.
pub fn step(
    layout: &Layout,
    sharers: &[u64],
    reads: &[Read],
    puts: &[Put],
    hands: &mut [u64],
    row: &mut [u64],
)
    requires layout { IsLayout layout.now }
    requires sharers { length sharers.now ≡ places_in layout.now }
    requires fits { FitsLayout layout.now reads.now puts.now }
    requires hands { length reads.now * block_words layout.now ≤ length hands.old }
    requires size { length row.old ≡ row_words layout.now }
    ensures hands { length hands.new ≡ length hands.old }
    ensures size { length row.new ≡ row_words layout.now }
    ensures moves { Moves layout.now sharers.now reads.now puts.now row.old row.new }
{
    read_all(layout, row, reads, hands);
    put_all(layout, sharers, puts, hands, row);
}
