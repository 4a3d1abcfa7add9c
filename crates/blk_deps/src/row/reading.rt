//! What an instruction reads, from rows.

ghost use Rattle.std.specs.Prelude.{◌≡◌, ℕ, ◌+◌, ◌*◌, ◌<◌, ◌≤◌, ◌==◌, ◌&&◌, ◌||◌, IsTrue, All, length};
ghost use Rattle.dataflow.specs.Bits.{facts_in};
ghost use Rattle.blk_deps.specs.Layout.{IsLayout, cell_words, value_words, block_words, row_words, shown};
ghost use Rattle.blk_deps.specs.Fits.{has_slot, held, fits_name, FitsRead, FitReads, HandsHold, JoinsAsRead, JoinsFrom, IsRead};

use super::{block, is_here, overwriters, unwritten, value};
use crate::{Layout, Name, Read, words};

/// Puts to a value what the cell's has, as it is read: with a pair for each place that may have overwritten it.
pub fn read_as(layout: &Layout, row: &[u64], cell: u8, to: &mut [u64])
    requires layout { IsLayout layout.now }
    requires row { length row.now ≡ row_words layout.now }
    requires cell { IsTrue (has_slot layout.now cell) }
    requires size { length to.old ≡ value_words layout.now }
    ensures size { length to.new ≡ value_words layout.now }
    ensures read { JoinsAsRead layout.now (shown layout.now row.now) cell to.old to.new }
{
    words::join(to, value(layout, row, cell));
    if cell < 148 {
        let pairs = 2 * layout.cell_words() + 1 + cell as usize / 4;
        words::join_word(to, pairs, overwriters(layout, row, cell));
    }
}

/// Puts to a value what one has that is computed of this.
fn join_from(layout: &Layout, row: &[u64], name: Name, to: &mut [u64])
    requires layout { IsLayout layout.now }
    requires row { length row.now ≡ row_words layout.now }
    requires fits { IsTrue (fits_name layout.now name) }
    requires size { length to.old ≡ value_words layout.now }
    ensures size { length to.new ≡ value_words layout.now }
    ensures joined { JoinsFrom layout.now (shown layout.now row.now) name to.old to.new }
{
    match name {
        Name::Cell(cell) => read_as(layout, row, cell, to),
        Name::Load(operand, count) => {
            let bytes = unwritten(layout, row, operand as usize) & words::below(count as usize);
            join_source(layout, operand as usize, bytes != 0, to);
        }
        Name::Undefined => join_source(layout, 62, is_here(row), to),
        Name::Outside => join_source(layout, 63, is_here(row), to),
    }
}

/// Puts that bit of a value's sources in.
fn join_source(layout: &Layout, bit: usize, on: bool, to: &mut [u64])
    requires layout { IsLayout layout.now }
    requires bit { bit < 64 }
    requires size { length to.old ≡ value_words layout.now }
    ensures size { length to.new ≡ value_words layout.now }
    ensures bits { (n : ℕ) → facts_in to.new n ≡ (facts_in to.old n || (on && n == 128 * cell_words layout.now + bit)) }
{
    if on {
        words::set(to, 128 * layout.cell_words() + bit, true);
    }
}

/// Reads into a hand.
fn read_into(layout: &Layout, row: &[u64], read: &Read, to: &mut [u64])
    requires layout { IsLayout layout.now }
    requires row { length row.now ≡ row_words layout.now }
    requires fits { FitsRead layout.now read.now }
    requires size { length to.old ≡ value_words layout.now }
    ensures size { length to.new ≡ value_words layout.now }
    ensures held { IsRead layout.now (shown layout.now row.now) read.now to.new }
{
    words::clear(to);
    match read {
        Read::Copy(cell) => read_as(layout, row, *cell, to),
        Read::Compute(names) => {
            for name in names.as_slice() {
                join_from(layout, row, *name, to);
            }
            words::fill_first(to, layout.cell_words(), is_here(row));
        }
    }
}

/// Reads each value into its hand.
pub fn read_all(layout: &Layout, row: &[u64], reads: &[Read], hands: &mut [u64])
    requires layout { IsLayout layout.now }
    requires row { length row.now ≡ row_words layout.now }
    requires fits { FitReads layout.now reads.now }
    requires hands { length reads.now * block_words layout.now ≤ length hands.old }
    ensures size { length hands.new ≡ length hands.old }
    ensures held { HandsHold layout.now hands.new (shown layout.now row.now) reads.now }
{
    let mut at = 0;
    for read in reads {
        read_into(layout, row, read, &mut hands[at..at + layout.value_words()]);
        at += layout.block_words();
    }
}
