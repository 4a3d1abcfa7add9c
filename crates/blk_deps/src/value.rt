//! Values of cells, as words: what a value has is a bit of them.

ghost use Rattle.std.specs.Prelude.{◌≡◌, ℕ, ◌+◌, ◌*◌, ◌<◌, ◌≤◌, ◌||◌, ◌&&◌, IsTrue, Some, All, length, slice_index};
ghost use Rattle.std.specs.List.{list_any, range_with_len};
ghost use Rattle.dataflow.specs.Bits.{facts_in};
ghost use Rattle.blk_deps.specs.Ground.{has_bit};
ghost use Rattle.blk_deps.specs.Layout.{IsLayout, places_in, cells_in, cell_words, value_words, block_words, slot, shown_value};
ghost use Rattle.blk_deps.specs.Fits.{has_slot, hand_words, some_pair, Collects};
ghost use Rattle.blk_deps.specs.declared.fact.Property.{Property};
ghost use Rattle.blk_deps.specs.declared.fact.Provenance.{Provenance};

use crate::{Layout, words};

/// Whether the value isn't that of this cell at the entry.
pub fn not_entry_of(layout: &Layout, value: &[u64], cell: u8) -> bool
    requires layout { IsLayout layout.now }
    requires size { length value.now ≡ value_words layout.now }
    requires cell { IsTrue (has_slot layout.now cell) }
    ensures { result ≡ shown_value layout.now value.now (Property.NotEntryOf cell) }
{
    match layout.slot(cell) {
        Some(slot) => words::has(value, slot),
        None => false,
    }
}

/// The cells whose values of the entry it comes from, as bits by the cells' numbers in a row.
pub fn entry_bits<'a>(layout: &Layout, value: &'a [u64]) -> &'a [u64]
    requires layout { IsLayout layout.now }
    requires size { length value.now ≡ value_words layout.now }
    ensures { (e x : ℕ) → slot layout.now e ≡ Some x
        → facts_in result.now x ≡ shown_value layout.now value.now (Property.ComesFrom (Provenance.EntryOf e)) }
{
    let words = layout.cell_words();
    &value[words..2 * words]
}

/// What else it comes from: bit k: old bytes of operand k; bit 62: undefined; bit 63: outside.
pub fn sources(layout: &Layout, value: &[u64]) -> u64
    requires layout { IsLayout layout.now }
    requires size { length value.now ≡ value_words layout.now }
    ensures old { (k : ℕ) → k < layout.now.operands
        → has_bit result k ≡ shown_value layout.now value.now (Property.ComesFrom (Provenance.Old k)) }
    ensures undefined { has_bit result 62 ≡ shown_value layout.now value.now (Property.ComesFrom Provenance.Undefined) }
    ensures outside { has_bit result 63 ≡ shown_value layout.now value.now (Property.ComesFrom Provenance.Outside) }
{
    value[2 * layout.cell_words()]
}

/// The places that were written before the value was read from place p, as bits.
pub fn pairs(layout: &Layout, value: &[u64], place: usize) -> u64
    requires layout { IsLayout layout.now }
    requires size { length value.now ≡ value_words layout.now }
    requires place { place < places_in layout.now }
    ensures { (d : ℕ) → d < 64 → has_bit result d ≡ shown_value layout.now value.now (Property.Pair d place) }
{
    value[2 * layout.cell_words() + 1 + place] & words::below(layout.places())
}

/// Whether it has a pair.
pub fn has_pairs(layout: &Layout, value: &[u64]) -> bool
    requires layout { IsLayout layout.now }
    requires size { length value.now ≡ value_words layout.now }
    ensures { result ≡ some_pair (λ d p. shown_value layout.now value.now (Property.Pair d p)) }
{
    words::joined(&value[2 * layout.cell_words() + 1..]) & words::below(layout.places()) != 0
}

/// The value in a hand.
pub fn hand<'a>(layout: &Layout, hands: &'a [u64], hand: usize) -> &'a [u64]
    requires layout { IsLayout layout.now }
    requires hand { hand * block_words layout.now + block_words layout.now ≤ length hands.now }
    ensures words { result.now ≡ hand_words layout.now hands.now hand }
    ensures size { length result.now ≡ value_words layout.now }
{
    let at = hand * layout.block_words();
    &hands[at..at + layout.value_words()]
}

/// What the values in these hands have.
pub fn collect_used(layout: &Layout, hands: &[u64], used: &[u8], to: &mut [u64])
    requires layout { IsLayout layout.now }
    requires size { length to.old ≡ value_words layout.now }
    requires used { All (λ h. h * block_words layout.now + block_words layout.now ≤ length hands.now) used.now }
    ensures size { length to.new ≡ value_words layout.now }
    ensures used { Collects layout.now hands.now used.now to.new }
{
    words::clear(to);
    for h in used {
        words::join(to, hand(layout, hands, *h as usize));
    }
}
