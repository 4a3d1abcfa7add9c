//! What an instruction writes, to rows.

ghost use Rattle.std.specs.Prelude.{◌≡◌, ℕ, ◌+◌, ◌*◌, ◌/◌, ◌<◌, ◌≤◌, ◌||◌, ◌&&◌, IsTrue, Bool, length, slice_index};
ghost use Rattle.blk_deps.specs.Cells.{is_byte, place_of};
ghost use Rattle.blk_deps.specs.Facts.{Facts, after_put};
ghost use Rattle.blk_deps.specs.Layout.{IsLayout, places_in, value_words, block_words, row_words, shown};
ghost use Rattle.blk_deps.specs.Fits.{has_slot, fits_put, FitPuts, PutsDown};
ghost use Rattle.blk_deps.specs.Changes.{is_changed_value, is_changed, with_value, with_overwriter, without_overwriters, with_marks, Puts};
ghost use Rattle.blk_deps.specs.declared.layout.Layout.{Layout};
ghost use Rattle.blk_deps.specs.declared.fact.Fact.{Fact};

use super::{block, is_here, value};
use crate::value::{hand, has_pairs, not_entry_of};
use crate::{Layout, Put, words};

/// Whether a value isn't that of the cell at the entry, or has a pair.
fn changed(layout: &Layout, value: &[u64], cell: u8) -> bool
    requires layout { IsLayout layout.now }
    requires size { length value.now ≡ value_words layout.now }
    requires cell { IsTrue (has_slot layout.now cell) }
    ensures { result ≡ is_changed_value layout.now value.now cell }
{
    not_entry_of(layout, value, cell) || has_pairs(layout, value)
}

/// Whether the cell's value isn't its own of the entry, or has a pair.
fn cell_changed(layout: &Layout, row: &[u64], cell: u8) -> bool
    requires layout { IsLayout layout.now }
    requires size { length row.now ≡ row_words layout.now }
    requires cell { IsTrue (has_slot layout.now cell) }
    ensures { result ≡ is_changed (shown layout.now row.now) cell }
{
    changed(layout, value(layout, row, cell), cell)
}

/// Says whether the place overwrites the cell.
fn mark(layout: &Layout, cell: u8, place: usize, overwrites: bool, row: &mut [u64])
    requires layout { IsLayout layout.now }
    requires cell { IsTrue (is_byte cell && has_slot layout.now cell) }
    requires place { place < places_in layout.now }
    requires size { length row.old ≡ row_words layout.now }
    ensures size { length row.new ≡ row_words layout.now }
    ensures facts { (fact : Fact) → shown layout.now row.new fact
        ≡ with_overwriter place cell overwrites (shown layout.now row.old) fact }
{
    let word = block(layout, cell) + layout.value_words();
    words::set(row, 64 * word + place, overwrites);
}

/// Whether a value that is put elsewhere overwrites the cell: where they may share a register, unless both have their
/// own.
fn overwrites(layout: &Layout, row: &[u64], cell: u8, shares: bool, new: bool) -> bool
    requires layout { IsLayout layout.now }
    requires size { length row.now ≡ row_words layout.now }
    requires cell { IsTrue (has_slot layout.now cell) }
    ensures { result ≡ (shares && (new || is_changed (shown layout.now row.now) cell)) }
{
    shares && (new || cell_changed(layout, row, cell))
}

/// Marks the cell of the same byte of that place, which a value overwrites that is put at this one. The places before
/// it are marked.
fn mark_other(layout: &Layout, sharers: u64, place: u8, cell: u8, new: bool, row: &mut [u64])
    requires layout { IsLayout layout.now }
    requires place { place < places_in layout.now }
    requires cell { IsTrue (is_byte cell && has_slot layout.now cell) }
    requires size { length row.old ≡ row_words layout.now }
    ensures size { length row.new ≡ row_words layout.now }
    ensures facts { (facts : Facts)
        → ((fact : Fact) → shown layout.now row.old fact ≡ with_marks place sharers cell new facts fact)
        → (fact : Fact) → shown layout.now row.new fact ≡ with_marks (place + 1) sharers cell new facts fact }
{
    if place == cell / 4 {
        return;
    }
    let other = 4 * place + cell % 4;
    let overwrites = overwrites(
        layout,
        row,
        other,
        words::word_has(sharers, place as usize),
        new,
    );
    mark(layout, other, cell as usize / 4, overwrites, row);
}

/// Marks the cells that a value overwrites that is put at this one: those of the same byte of other places. The bits
/// tell which places may be in the cell's register.
fn mark_others(layout: &Layout, sharers: u64, cell: u8, new: bool, row: &mut [u64])
    requires layout { IsLayout layout.now }
    requires cell { IsTrue (is_byte cell && has_slot layout.now cell) }
    requires size { length row.old ≡ row_words layout.now }
    ensures size { length row.new ≡ row_words layout.now }
    ensures facts { (fact : Fact) → shown layout.now row.new fact
        ≡ with_marks (places_in layout.now) sharers cell new (shown layout.now row.old) fact }
{
    for place in 0..layout.places() as u8 {
        mark_other(layout, sharers, place, cell, new, row);
    }
}

/// Puts a value at a cell.
fn put_value(layout: &Layout, cell: u8, from: &[u64], row: &mut [u64])
    requires layout { IsLayout layout.now }
    requires cell { IsTrue (has_slot layout.now cell) }
    requires from { length from.now ≡ value_words layout.now }
    requires size { length row.old ≡ row_words layout.now }
    ensures size { length row.new ≡ row_words layout.now }
    ensures facts { (fact : Fact) → shown layout.now row.new fact
        ≡ with_value layout.now from.now cell (shown layout.now row.old) fact }
{
    words::put_words(row, block(layout, cell), from);
}

/// No place overwrites the cell.
fn clear_overwriters(layout: &Layout, cell: u8, row: &mut [u64])
    requires layout { IsLayout layout.now }
    requires cell { IsTrue (is_byte cell && has_slot layout.now cell) }
    requires size { length row.old ≡ row_words layout.now }
    ensures size { length row.new ≡ row_words layout.now }
    ensures facts { (fact : Fact) → shown layout.now row.new fact
        ≡ without_overwriters cell (shown layout.now row.old) fact }
{
    row[block(layout, cell) + layout.value_words()] = 0;
}

/// Puts a value at a byte of a place.
fn put_place(layout: &Layout, sharers: &[u64], cell: u8, from: &[u64], row: &mut [u64])
    requires layout { IsLayout layout.now }
    requires sharers { length sharers.now ≡ places_in layout.now }
    requires cell { IsTrue (is_byte cell && has_slot layout.now cell) }
    requires from { length from.now ≡ value_words layout.now }
    requires size { length row.old ≡ row_words layout.now }
    ensures size { length row.new ≡ row_words layout.now }
    ensures facts { (fact : Fact) → shown layout.now row.new fact
        ≡ without_overwriters cell (with_value layout.now from.now cell (with_marks (places_in layout.now)
        (slice_index sharers.now (place_of cell)) cell (is_changed_value layout.now from.now cell)
        (shown layout.now row.old))) fact }
{
    mark_others(
        layout,
        sharers[cell as usize / 4],
        cell,
        changed(layout, from, cell),
        row,
    );
    put_value(layout, cell, from, row);
    clear_overwriters(layout, cell, row);
}

/// The bytes of an operand that are stored, so many from the first on, are written.
fn put_store(layout: &Layout, operand: u8, first: u8, count: u8, row: &mut [u64])
    requires layout { IsLayout layout.now }
    requires operand { operand < layout.now.operands }
    requires size { length row.old ≡ row_words layout.now }
    ensures size { length row.new ≡ row_words layout.now }
    ensures facts { (shares : ℕ → ℕ → Bool) (fact : Fact) → shown layout.now row.new fact
        ≡ after_put shares (Put.Store operand first count) (shown layout.now row.old) fact }
{
    let word = 1 + operand as usize;
    row[word] &= words::below(first as usize) | !words::below(first as usize + count as usize);
}

/// Whether a path comes here, and this holds too.
fn here_and(row: &[u64], on: bool) -> bool
    requires { 0 < length row.now }
    ensures { (l : Layout) → result ≡ (on && shown l row.now Fact.Here) }
{
    on && is_here(row)
}

/// The direction flag takes that value.
fn put_direction(layout: &Layout, on: bool, row: &mut [u64])
    requires layout { IsLayout layout.now }
    requires size { length row.old ≡ row_words layout.now }
    ensures size { length row.new ≡ row_words layout.now }
    ensures facts { (shares : ℕ → ℕ → Bool) (fact : Fact) → shown layout.now row.new fact
        ≡ after_put shares (Put.Direction on) (shown layout.now row.old) fact }
{
    let set = here_and(row, on);
    words::set(row, 1, set);
}

/// Puts one down.
fn put_down(layout: &Layout, sharers: &[u64], put: Put, hands: &[u64], row: &mut [u64])
    requires layout { IsLayout layout.now }
    requires sharers { length sharers.now ≡ places_in layout.now }
    requires fits { IsTrue (fits_put layout.now (length hands.now / block_words layout.now) put) }
    requires size { length row.old ≡ row_words layout.now }
    ensures size { length row.new ≡ row_words layout.now }
    ensures put { Puts layout.now sharers.now hands.now put row.old row.new }
{
    match put {
        Put::Place(cell, n) => put_place(
            layout,
            sharers,
            cell,
            hand(layout, hands, n as usize),
            row,
        ),
        Put::Plain(cell, n) => put_value(layout, cell, hand(layout, hands, n as usize), row),
        Put::Store(operand, first, count) => put_store(layout, operand, first, count, row),
        Put::Direction(on) => put_direction(layout, on, row),
    }
}

/// Puts what the hands hold down, in order, and drops the hands.
pub fn put_all(layout: &Layout, sharers: &[u64], puts: &[Put], hands: &[u64], row: &mut [u64])
    requires layout { IsLayout layout.now }
    requires sharers { length sharers.now ≡ places_in layout.now }
    requires fits { FitPuts layout.now (length hands.now / block_words layout.now) puts.now }
    requires size { length row.old ≡ row_words layout.now }
    ensures size { length row.new ≡ row_words layout.now }
    ensures moves { PutsDown layout.now sharers.now hands.now puts.now row.old row.new }
{
    for put in puts {
        put_down(layout, sharers, *put, hands, row);
    }
}
