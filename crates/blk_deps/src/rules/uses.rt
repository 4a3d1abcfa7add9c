//! The rules on what is used.

ghost use Rattle.std.specs.Prelude.{◌≡◌, ℕ, ◌+◌, ◌*◌, ◌<◌, ◌&&◌, ◌||◌, nat_lt, length, IsTrue};
ghost use Rattle.blk_deps.specs.Fits.{some_pair};
ghost use Rattle.blk_deps.specs.Layout.{IsLayout, places_in, value_words, shown_value};
ghost use Rattle.blk_deps.specs.Ground.{has_bit, has_cell_bit};
ghost use Rattle.blk_deps.specs.Ruling.{IsMask, some_place, some_byte, one_of_two, from_class};
ghost use Rattle.asm_core.specs.Reg.{reg_number};
ghost use Rattle.asm_core.specs.Flag.{flag_number};
ghost use Rattle.blk_deps.specs.Cells.{flag_cell, place_cells};
ghost use Rattle.blk_deps.specs.Operands.{is_lone};
ghost use Rattle.blk_deps.specs.Rules.{uses_entry_of, breaks_r1, breaks_r2, breaks_r3, breaks_u3, breaks_by_use};
ghost use Rattle.blk_deps.specs.Scenes.{IsScene, IsAbout, names_operand};
ghost use Rattle.blk_deps.specs.declared.fact.Provenance.TheVariants.{EntryOf, Old, Undefined};
ghost use Rattle.blk_deps.specs.declared.fact.Property.TheVariants.{ComesFrom, Pair};

use super::Scene;
use super::bits::{has_bit, has_cell_bit, has_fact, meets, span};
use crate::value::{has_pairs, pairs, sources};
use crate::{Layout, Violation};
use asm_core::{Cell, Flag, Reg, Rule};

/// The class of all bytes of places.
const EVERY_BYTE: [u64; 3] = [u64::MAX; 3];

/// What the values have that are used: the words of a value.
#[derive(Clone, Copy)]
pub struct Uses<'a> {
    layout: Layout,
    words: &'a [u64],
    /// Some value has a pair.
    paired: bool,
    ghost fits: { IsLayout layout },
    ghost size: { length words.now ≡ value_words layout },
    ghost has_pair: { paired ≡ some_pair (λ d p. shown_value layout words.now (Pair d p)) },
}

impl<'a> Uses<'a> {
    /// What these words of a value show.
    pub fn new(layout: &Layout, words: &'a [u64]) -> Uses<'a>
        requires layout { IsLayout layout.now }
        requires size { length words.now ≡ value_words layout.now }
        ensures layout { result.layout ≡ layout.now }
        ensures words { result.words.now ≡ words.now }
    {
        Uses {
            layout: *layout,
            words,
            paired: has_pairs(layout, words),
        }
    }

    /// Whether some value has a pair.
    pub(crate) fn has_pair(&self) -> bool
        ensures { result ≡ some_pair (λ d p. shown_value self.now.layout self.now.words.now (Pair d p)) }
    {
        self.paired
    }

    /// The cell's value of the entry.
    fn entry_of(&self, cell: u8) -> bool
        ensures { result ≡ shown_value self.now.layout self.now.words.now (ComesFrom (EntryOf cell)) }
    {
        match self.layout.slot(cell) {
            Some(x) => has_fact(self.words, 64 * self.layout.cell_words() + x),
            None => false,
        }
    }

    /// The old bytes of operand k.
    fn old(&self, k: u8) -> bool
        ensures { result ≡ shown_value self.now.layout self.now.words.now (ComesFrom (Old k)) }
    {
        (k as u32) < self.layout.operands && has_bit(sources(&self.layout, self.words), k as usize)
    }

    fn undefined(&self) -> bool
        ensures { result ≡ shown_value self.now.layout self.now.words.now (ComesFrom Undefined) }
    {
        has_bit(sources(&self.layout, self.words), 62)
    }

    /// The entry value of the cell, if it is of the class.
    fn entry_at(&self, class: &[u64; 3], cell: u8) -> bool
        requires { cell < 148 }
        ensures { result ≡ from_class class.now (shown_value self.now.layout self.now.words.now) cell }
    {
        has_cell_bit(class, cell as usize) && self.entry_of(cell)
    }

    /// That of the cell or the next one.
    fn entry_in_two(&self, class: &[u64; 3], cell: u8) -> bool
        requires { cell < 147 }
        ensures { result ≡ one_of_two (from_class class.now (shown_value self.now.layout self.now.words.now)) cell }
    {
        self.entry_at(class, cell) || self.entry_at(class, cell + 1)
    }

    /// That of a byte of the place.
    fn entry_in_class(&self, class: &[u64; 3], p: u8) -> bool
        requires { p < 37 }
        ensures { result ≡ some_byte (from_class class.now (shown_value self.now.layout self.now.words.now)) p }
    {
        self.entry_in_two(class, 4 * p) || self.entry_in_two(class, 4 * p + 2)
    }

    /// That of a byte of one of the places.
    fn entry_in(&self, class: &[u64; 3], chosen: u64) -> bool
        requires { IsMask 37 chosen }
        ensures { result ≡ some_place chosen (some_byte (from_class class.now
            (shown_value self.now.layout self.now.words.now))) }
    {
        let (first, end) = span(chosen);
        for p in first..end {
            if has_bit(chosen, p as usize) && self.entry_in_class(class, p) {
                return true;
            }
        }
        false
    }

    /// What was read from place u after one of the places had been written.
    fn pair_with(&self, first: u64, u: u8) -> bool
        requires mask { IsMask 37 first }
        requires place { u < places_in self.now.layout }
        ensures { result ≡ some_place first (λ d. shown_value self.now.layout self.now.words.now (Pair d u)) }
    {
        meets(first, pairs(&self.layout, self.words, u as usize))
    }

    /// What was read from one of the second places after one of the first had been written.
    fn pair_of(&self, first: u64, second: u64) -> bool
        requires first { IsMask 37 first }
        requires second { IsMask (places_in self.now.layout) second }
        ensures { result ≡ some_place second (λ u. some_place first
            (λ d. shown_value self.now.layout self.now.words.now (Pair d u))) }
    {
        let (start, end) = span(second);
        for u in start..end {
            if has_bit(second, u as usize) && self.pair_with(first, u) {
                return true;
            }
        }
        false
    }
}

/// Whether a register's value of the entry is used that is no operand's place.
fn uses_register(scene: &Scene, used: &Uses, register: Reg) -> bool
    requires { IsScene scene.now }
    ensures { result ≡ (is_lone scene.now.context.now.interface.now scene.now.context.now.shape.now
        (reg_number register)
        && uses_entry_of (shown_value used.now.layout used.now.words.now) (place_cells (reg_number register))) }
{
    let p = register.number();
    has_bit(scene.context.ground.lone, p) && used.entry_in_class(&EVERY_BYTE, p as u8)
}

fn flag_number(flag: Flag) -> u8
    ensures { result ≡ flag_number flag }
{
    flag as u8
}

/// The same of a flag, but the direction flag, of which no value is kept.
fn uses_flag(used: &Uses, flag: Flag) -> bool
    ensures { result ≡ (nat_lt (flag_number flag) 6 && shown_value used.now.layout used.now.words.now (ComesFrom
        (EntryOf (flag_cell flag)))) }
{
    let n = flag_number(flag);
    n < 6 && used.entry_of(148 + n)
}

fn breaks_r1(scene: &Scene, used: &Uses, cell: Cell) -> bool
    requires { IsScene scene.now }
    ensures { result ≡ breaks_r1 scene.now.context.now.interface.now scene.now.context.now.shape.now cell
        (shown_value used.now.layout used.now.words.now) }
{
    match cell {
        Cell::Reg(register) => uses_register(scene, used, register),
        Cell::Flag(flag) => uses_flag(used, flag),
        _ => false,
    }
}

fn breaks_r2(scene: &Scene, used: &Uses, cell: Cell) -> bool
    requires scene { IsScene scene.now }
    requires layout { used.now.layout ≡ scene.now.layout.now }
    requires cell { IsTrue (names_operand (length scene.now.context.now.interface.now.operands) cell) }
    ensures { result ≡ breaks_r2 scene.now.context.now.interface.now scene.now.context.now.shape.now cell
        (shown_value used.now.layout used.now.words.now) }
{
    match cell {
        Cell::Operand(k) => {
            used.entry_in(&scene.context.ground.output_bytes, scene.places(cell)) || used.old(k)
        }
        _ => false,
    }
}

fn breaks_r3(scene: &Scene, used: &Uses, cell: Cell) -> bool
    requires scene { IsScene scene.now }
    requires layout { used.now.layout ≡ scene.now.layout.now }
    requires cell { IsTrue (names_operand (length scene.now.context.now.interface.now.operands) cell) }
    ensures { result ≡ breaks_r3 scene.now.context.now.interface.now scene.now.context.now.shape.now cell
        (shown_value used.now.layout used.now.words.now) }
{
    match cell {
        Cell::Operand(_) => used.entry_in(&scene.context.ground.bytes_above, scene.places(cell)),
        Cell::Nothing => used.undefined(),
        _ => false,
    }
}

fn breaks_u3(scene: &Scene, used: &Uses, cell: Cell, other: Cell) -> bool
    requires scene { IsScene scene.now }
    requires layout { used.now.layout ≡ scene.now.layout.now }
    requires cell { IsTrue (names_operand (length scene.now.context.now.interface.now.operands) cell) }
    requires other { IsTrue (names_operand (length scene.now.context.now.interface.now.operands) other) }
    ensures { result ≡ breaks_u3 scene.now.context.now.interface.now scene.now.context.now.shape.now cell other
        (shown_value used.now.layout used.now.words.now) }
{
    used.paired && used.pair_of(scene.places(cell), scene.places(other))
}

/// Whether what is used breaks the rule.
pub(crate) fn breaks_by_use(scene: &Scene, used: &Uses, violation: &Violation) -> bool
    requires scene { IsScene scene.now }
    requires layout { used.now.layout ≡ scene.now.layout.now }
    requires operands { IsAbout (length scene.now.context.now.interface.now.operands) violation.now }
    ensures { result ≡ breaks_by_use scene.now.context.now.interface.now scene.now.context.now.shape.now
        violation.now.rule violation.now.cell violation.now.other (shown_value used.now.layout used.now.words.now) }
{
    match violation.rule {
        Rule::R1 => breaks_r1(scene, used, violation.cell),
        Rule::R2 => breaks_r2(scene, used, violation.cell),
        Rule::R3 => breaks_r3(scene, used, violation.cell),
        Rule::U3 => breaks_u3(scene, used, violation.cell, violation.other),
        _ => false,
    }
}
