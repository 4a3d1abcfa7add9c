//! What the tests are given.

use super::PlaceNames;
use crate::{Context, Layout};
use asm_core::{Access, Cell, Sym};

/// A block under a shape, with what its tests ask.
#[derive(Clone, Copy)]
pub struct Scene<'a> {
    pub context: &'a Context<'a>,
    pub layout: &'a Layout,
    /// The places of each name.
    pub names: &'a PlaceNames,
    /// Bit q of word p: places p and q may be in one register.
    pub sharers: &'a [u64],
}

impl Scene<'_> {
    ghost use Rattle.std.specs.Prelude.{◌+◌, length, IsTrue};
    ghost use Rattle.blk_deps.specs.Operands.{name_of};
    ghost use Rattle.blk_deps.specs.Rules.{same_cell};
    ghost use Rattle.blk_deps.specs.Ruling.{IsNamed};
    ghost use Rattle.blk_deps.specs.Scenes.{IsScene, names_operand};

    /// Bit p: place p has the name.
    pub(crate) fn places(&self, cell: Cell) -> u64
        requires scene { IsScene self.now }
        requires cell { IsTrue (names_operand (length self.now.context.now.interface.now.operands) cell) }
        ensures { IsNamed (7 + length self.now.context.now.interface.now.operands) result (λ p. same_cell
            (name_of self.now.context.now.interface.now self.now.context.now.shape.now p) cell) }
    {
        self.names.places(cell)
    }
}

/// An instruction, with how its paths come to it.
#[derive(Clone, Copy)]
pub struct AtLine<'a> {
    pub line: &'a Sym,
    pub accesses: &'a [Access],
    /// Bit k: the address of operand k is used.
    pub addressed: u32,
    /// How many words are pushed before it.
    pub depth: u8,
    /// Some path comes here.
    pub here: bool,
}
