//! The rules on the end of a block.

ghost use Rattle.std.specs.Prelude.{◌≡◌, ℕ, ◌+◌, ◌*◌, ◌<◌, ◌≤◌, ◌&&◌, length, IsTrue};
ghost use Rattle.asm_core.specs.Reg.{reg_number};
ghost use Rattle.dataflow.specs.Bits.{facts_in};
ghost use Rattle.blk_deps.specs.Cells.{place_cells};
ghost use Rattle.blk_deps.specs.Ground.{IsContext};
ghost use Rattle.blk_deps.specs.Layout.{IsLayout, places_in, value_words, row_words, shown, shown_value};
ghost use Rattle.blk_deps.specs.Rules.{is_undeclared, is_changed, breaks_w1, breaks_w2, breaks_w3, breaks_w4, is_left_unwritten, breaks_by_end};
ghost use Rattle.blk_deps.specs.Ruling.{IsMask, some_place, some_byte, one_of_two};
ghost use Rattle.blk_deps.specs.Ending.{is_changed_cell, some_flag_changed, some_left};
ghost use Rattle.blk_deps.specs.Scenes.{IsScene, names_operand};
ghost use Rattle.blk_deps.specs.declared.fact.Fact.TheVariants.{Unwritten, DirectionSet};

use super::Scene;
use super::accesses::size_at;
use super::bits::{has_bit, has_fact, span};
use crate::Layout;
use crate::row::value;
use crate::value::not_entry_of;
use asm_core::{Cell, Flag, Reg, Rule};

/// Whether the cell may not hold its own value of the entry.
fn is_changed(layout: &Layout, row: &[u64], cell: u8) -> bool
    requires layout { IsLayout layout.now }
    requires row { length row.now ≡ row_words layout.now }
    requires cell { cell < 154 }
    ensures { result ≡ is_changed_cell (shown layout.now row.now) cell }
{
    layout.slot(cell).is_some() && not_entry_of(layout, value(layout, row, cell), cell)
}

/// The cell or the next one.
fn is_one_changed(layout: &Layout, row: &[u64], cell: u8) -> bool
    requires layout { IsLayout layout.now }
    requires row { length row.now ≡ row_words layout.now }
    requires cell { cell < 153 }
    ensures { result ≡ one_of_two (is_changed_cell (shown layout.now row.now)) cell }
{
    is_changed(layout, row, cell) || is_changed(layout, row, cell + 1)
}

fn is_place_changed(layout: &Layout, row: &[u64], p: u8) -> bool
    requires layout { IsLayout layout.now }
    requires row { length row.now ≡ row_words layout.now }
    requires place { p < 37 }
    ensures { result ≡ some_byte (is_changed_cell (shown layout.now row.now)) p }
{
    is_one_changed(layout, row, 4 * p) || is_one_changed(layout, row, 4 * p + 2)
}

fn is_flag_changed(layout: &Layout, row: &[u64]) -> bool
    requires layout { IsLayout layout.now }
    requires row { length row.now ≡ row_words layout.now }
    ensures { result ≡ some_flag_changed (shown layout.now row.now) }
{
    for flag in 0..6 {
        if is_changed(layout, row, 148 + flag) {
            return true;
        }
    }
    false
}

fn is_some_place_changed(layout: &Layout, row: &[u64], chosen: u64) -> bool
    requires layout { IsLayout layout.now }
    requires row { length row.now ≡ row_words layout.now }
    requires mask { IsMask 37 chosen }
    ensures { result ≡ some_place chosen (some_byte (is_changed_cell (shown layout.now row.now))) }
{
    let (first, end) = span(chosen);
    for p in first..end {
        if has_bit(chosen, p as usize) && is_place_changed(layout, row, p) {
            return true;
        }
    }
    false
}

/// Whether the register, which has to be as at the entry, isn't.
fn is_register_changed(scene: &Scene, row: &[u64], register: Reg) -> bool
    requires scene { IsScene scene.now }
    requires row { length row.now ≡ row_words scene.now.layout.now }
    ensures { result ≡ (is_undeclared scene.now.context.now.interface.now scene.now.context.now.shape.now
        (reg_number register)
        && is_changed (shown scene.now.layout.now row.now) (place_cells (reg_number register))) }
{
    let p = register.number();
    let undeclared = scene.context.ground.kept & scene.context.ground.lone;
    has_bit(undeclared, p) && is_place_changed(scene.layout, row, p as u8)
}

fn breaks_w1(scene: &Scene, row: &[u64], cell: Cell) -> bool
    requires scene { IsScene scene.now }
    requires row { length row.now ≡ row_words scene.now.layout.now }
    ensures { result ≡ breaks_w1 scene.now.context.now.interface.now scene.now.context.now.shape.now cell
        (shown scene.now.layout.now row.now) }
{
    match cell {
        Cell::Reg(register) => is_register_changed(scene, row, register),
        _ => false,
    }
}

fn breaks_w2(scene: &Scene, row: &[u64], cell: Cell) -> bool
    requires scene { IsScene scene.now }
    requires row { length row.now ≡ row_words scene.now.layout.now }
    requires cell { IsTrue (names_operand (length scene.now.context.now.interface.now.operands) cell) }
    ensures { result ≡ breaks_w2 scene.now.context.now.interface.now scene.now.context.now.shape.now cell
        (shown scene.now.layout.now row.now) }
{
    let inputs = scene.places(cell) & scene.context.ground.input_places;
    is_some_place_changed(scene.layout, row, inputs)
}

fn breaks_w3(scene: &Scene, row: &[u64], cell: Cell) -> bool
    requires scene { IsScene scene.now }
    requires row { length row.now ≡ row_words scene.now.layout.now }
    ensures { result ≡ breaks_w3 scene.now.context.now.interface.now cell (shown scene.now.layout.now row.now) }
{
    match cell {
        Cell::Cc => !scene.context.interface.cc && is_flag_changed(scene.layout, row),
        _ => false,
    }
}

fn breaks_w4(layout: &Layout, row: &[u64], cell: Cell) -> bool
    ensures { result ≡ breaks_w4 cell (shown layout.now row.now) }
{
    match cell {
        Cell::Flag(Flag::Df) => has_fact(row, 1),
        _ => false,
    }
}

/// Whether some byte of operand k isn't written yet, of the first ones, so many.
fn is_some_left(layout: &Layout, row: &[u64], k: u8, count: u32) -> bool
    requires row { length row.now ≡ row_words layout.now }
    requires operand { k < layout.now.operands }
    ensures { result ≡ some_left (shown layout.now row.now) k count }
{
    let first = 64 * (1 + k as usize);
    for b in 0..count.min(64) {
        if has_fact(row, first + b as usize) {
            return true;
        }
    }
    false
}

/// Whether some byte of an operand isn't written yet.
fn is_left_unwritten(scene: &Scene, row: &[u64], cell: Cell) -> bool
    requires scene { IsScene scene.now }
    requires row { length row.now ≡ row_words scene.now.layout.now }
    requires cell { IsTrue (names_operand (length scene.now.context.now.interface.now.operands) cell) }
    ensures { result ≡ is_left_unwritten scene.now.context.now.interface.now cell (shown scene.now.layout.now row.now) }
{
    match cell {
        Cell::Operand(k) => {
            let size = size_at(scene.context.interface, k as usize);
            is_some_left(scene.layout, row, k, size)
        }
        _ => false,
    }
}

/// Whether the end breaks the rule by the facts there, whatever is used.
pub(crate) fn breaks_by_end(scene: &Scene, row: &[u64], rule: Rule, cell: Cell) -> bool
    requires scene { IsScene scene.now }
    requires row { length row.now ≡ row_words scene.now.layout.now }
    requires cell { IsTrue (names_operand (length scene.now.context.now.interface.now.operands) cell) }
    ensures { result ≡ breaks_by_end scene.now.context.now.interface.now scene.now.context.now.shape.now rule cell
        (shown scene.now.layout.now row.now) }
{
    match rule {
        Rule::W1 => breaks_w1(scene, row, cell),
        Rule::W2 => breaks_w2(scene, row, cell),
        Rule::W3 => breaks_w3(scene, row, cell),
        Rule::W4 => breaks_w4(scene.layout, row, cell),
        Rule::R2 => is_left_unwritten(scene, row, cell),
        _ => false,
    }
}
