//! What an instruction does to the values of cells: it reads values into hands, and then puts them down.

ghost use Rattle.std.specs.Prelude.{◌≡◌, [], ◌∷◌, ◌++◌, OnOk};

use asm_core::Memory;
use smallvec::SmallVec;
use std::alloc::Global;
use std::marker::Model;

/// A thing that a value is computed of.
#[derive(Clone, Copy, Debug, PartialEq, Eq)]
pub enum Name {
    Cell(u8),
    /// The first bytes of the memory operand of that number, so many.
    Load(u8, u8),
    Undefined,
    Outside,
}

impl Default for Name {
    fn default() -> Self {
        Name::Undefined
    }
}

/// What a value is computed of. Contracts see the list.
#[derive(Debug, Drop)]
pub struct Names {
    items: SmallVec<Name, 16>,
}

impl Model for Names {
    ghost use Rattle.std.specs.Prelude.{List};
    ghost use Rattle.blk_deps.specs.declared.step.Name.{Name};

    ghost Value = { List Name };

    ghost view = { λ n. n.items.items };
}

impl Names {
    pub fn new(alloc: Global) -> Names
        ensures { result ≡ [] }
    {
        Names {
            items: SmallVec::new(alloc),
        }
    }

    pub fn push(&mut self, name: Name) -> Result<(), Memory>
        ensures { OnOk result (self.new ≡ self.old ++ name ∷ []) }
    {
        Ok(self.items.push(name)?)
    }

    pub fn as_slice(&self) -> &[Name]
        ensures { result.now ≡ self.now }
    {
        self.items.as_slice()
    }
}

/// What is read into a hand.
#[derive(Debug, Drop)]
pub enum Read {
    /// A copy of a cell, as it is read.
    Copy(u8),
    Compute(Names),
}

/// What is done with the hands, in order.
#[derive(Clone, Copy, Debug, PartialEq, Eq)]
pub enum Put {
    /// Into a byte of a place: the cell, and the hand.
    Place(u8, u8),
    /// Into a flag or a byte of a pushed word: the cell, and the hand.
    Plain(u8, u8),
    /// To bytes of a memory operand: its number, the first byte, and how many.
    Store(u8, u8, u8),
    /// The direction flag takes that value.
    Direction(bool),
}
