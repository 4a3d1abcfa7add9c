ghost use Rattle.std.specs.Prelude.{◌≡◌, ◌+◌, ◌-◌, ◌*◌, ◌<◌, IsTrue, Some, slice_get, length};
ghost use Rattle.blk_deps.specs.Cells.{place_number, word_cell};
ghost use Rattle.blk_deps.specs.Operands.{is_place};
ghost use Rattle.blk_deps.specs.Line.{names_in};
ghost use Rattle.blk_deps.specs.LineMoves.{IsInstance, interface_of, shape_of};

use crate::Context;
use asm_core::{Place, Source, Sym};
use x86_rows::LineEntries;

/// An instruction under a shape, with so many words pushed before it.
#[derive(Clone, Copy)]
pub struct Instance<'a> {
    pub context: &'a Context<'a>,
    /// At most 16.
    pub depth: u8,
    pub line: &'a Sym,
    /// What the line writes, names, uses and accesses.
    pub entries: &'a LineEntries,
}

/// The number of a place.
pub fn place_number(place: Place) -> u32
    ensures { result ≡ place_number place }
{
    match place {
        Place::Reg(r) => r.number() as u32,
        Place::Operand(k) => 7 + u32::from(k),
    }
}

impl<'a> Instance<'a> {
    /// Whether the place of that number is one of the shape.
    pub fn is_place(&self, p: u32) -> bool
        requires { IsInstance self.now }
        ensures is { result ≡ is_place (interface_of self.now) (shape_of self.now) p }
        ensures few { IsTrue result → p < 37 }
    {
        p < 64 && (self.context.ground.places >> p) % 2 == 1
    }

    /// The cell of the first byte of the pushed word on top.
    pub fn top(&self) -> u8
        requires { IsInstance self.now }
        ensures is { result ≡ word_cell (self.now.depth - 1) 0 }
        ensures few { result < 215 }
    {
        154 + 4 * self.depth.saturating_sub(1)
    }

    /// What the k-th write names.
    pub fn named(&self, k: usize) -> &[Source]
        requires instance { IsInstance self.now }
        requires within { k < length self.now.entries.now.writes }
        ensures { result.now ≡ names_in self.now.line.now k }
    {
        self.entries.named.as_slice()[k].as_slice()
    }
}
