//! The facts at the entry.

ghost use Rattle.std.specs.Prelude.{◌≡◌, ℕ, ◌+◌, ◌*◌, ◌<◌, ◌≤◌, ◌&&◌, true, nat_lt, Some, length, replicate};
ghost use Rattle.asm_core.specs.declared.interface.OperandIface.{OperandIface};
ghost use Rattle.dataflow.specs.Bits.{facts_in};
ghost use Rattle.blk_deps.specs.Ground.{has_bit, IsContext};
ghost use Rattle.blk_deps.specs.Start.{at_entry};
ghost use Rattle.blk_deps.specs.Layout.{IsLayout, cells_in, value_words, row_words, slot, shown};
ghost use Rattle.blk_deps.specs.Fits.{IsSmall};
ghost use Rattle.blk_deps.specs.Changes.{is_own_bit, with_own, with_owns, Opens};
ghost use Rattle.blk_deps.specs.declared.fact.Fact.{Fact};

use crate::{Context, Layout, words};
use asm_core::OperandIface;

/// Puts the facts of the entry into a row that has none.
pub fn begin(layout: &Layout, context: &Context<'_>, row: &mut [u64])
    requires layout { IsLayout layout.now }
    requires operands { layout.now.operands ≡ length context.now.interface.now.operands }
    requires context { IsContext context.now }
    requires small { IsSmall context.now }
    requires blank { row.old ≡ replicate (row_words layout.now) 0 }
    ensures { (fact : Fact) → shown layout.now row.new fact
        ≡ at_entry context.now.interface.now context.now.live.now context.now.shape.now fact }
{
    words::set(row, 0, true);
    open_operands(
        context.interface.operands.as_slice(),
        context.ground.unseen,
        row,
    );
    begin_cells(layout, row);
}

/// The bytes of an operand that aren't written at the entry: those below its size, of memory that isn't seen.
fn open_bytes(unseen: u32, operand: usize, size: u32) -> u64
    requires { operand < 32 }
    ensures { (b : ℕ) → b < 64 → has_bit result b ≡ (has_bit unseen operand && nat_lt b size) }
{
    if words::word_has(unseen as u64, operand) {
        words::below(size as usize)
    } else {
        0
    }
}

/// Enters the bytes of operands that aren't written at the entry.
fn open_operands(operands: &[OperandIface], unseen: u32, row: &mut [u64])
    requires count { length operands.now ≤ 30 }
    requires size { length operands.now < length row.old }
    ensures size { length row.new ≡ length row.old }
    ensures opens { Opens operands.now unseen (length operands.now) row.old row.new }
{
    for k in 0..operands.len() {
        row[1 + k] = open_bytes(unseen, k, operands[k].size);
    }
}

/// Each cell has its own value.
fn begin_cells(layout: &Layout, row: &mut [u64])
    requires layout { IsLayout layout.now }
    requires size { length row.old ≡ row_words layout.now }
    requires here { shown layout.now row.old Fact.Here ≡ true }
    ensures size { length row.new ≡ row_words layout.now }
    ensures facts { (fact : Fact) → shown layout.now row.new fact
        ≡ with_owns layout.now (cells_in layout.now) (shown layout.now row.old) fact }
{
    for number in 0..layout.cells() {
        begin_cell(layout, number, row);
    }
}

/// The cell with that number has its own value.
fn begin_cell(layout: &Layout, number: usize, row: &mut [u64])
    requires layout { IsLayout layout.now }
    requires number { number < cells_in layout.now }
    requires size { length row.old ≡ row_words layout.now }
    requires here { shown layout.now row.old Fact.Here ≡ true }
    ensures size { length row.new ≡ row_words layout.now }
    ensures facts { (cell : ℕ) → slot layout.now cell ≡ Some number
        → (fact : Fact) → shown layout.now row.new fact ≡ with_own cell (shown layout.now row.old) fact }
{
    let at = layout.block(number);
    put_own(layout, number, &mut row[at..at + layout.value_words()]);
}

/// Has the value of the entry of the cell with that number.
fn put_own(layout: &Layout, number: usize, value: &mut [u64])
    requires layout { IsLayout layout.now }
    requires number { number < cells_in layout.now }
    requires size { length value.old ≡ value_words layout.now }
    ensures size { length value.new ≡ value_words layout.now }
    ensures bits { (n : ℕ) → facts_in value.new n ≡ is_own_bit layout.now number n }
{
    let words = layout.cell_words();
    words::clear(value);
    words::fill_first(value, words, true);
    words::set(value, number, false);
    words::set(value, 64 * words + number, true);
}
