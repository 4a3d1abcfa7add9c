ghost use Rattle.std.specs.Prelude.{◌≡◌, [], ◌∷◌, ◌++◌, length, IfOk, OnOk, OnErr};

use crate::{Duplicate, Memory};
use smallvec::SmallVec;
use std::alloc::Global;
use std::marker::Model;

/// What an operand is in a shape.
#[derive(Clone, Copy, Debug, PartialEq, Eq)]
pub enum Kind {
    Register,
    Memory,
    Number,
}

impl Default for Kind {
    fn default() -> Self {
        Kind::Register
    }
}

/// One kind for each operand. Contracts see their list.
#[derive(Debug, Drop)]
pub struct Kinds {
    items: SmallVec<Kind, 30>,
}

impl Model for Kinds {
    ghost use Rattle.std.specs.Prelude.{List};
    ghost use Rattle.asm_core.specs.declared.shape.Kind.{Kind};

    ghost Value = { List Kind };

    ghost view = { λ k. k.items.items };
}

impl Kinds {
    pub fn new(alloc: Global) -> Kinds
        ensures { result ≡ [] }
    {
        Kinds {
            items: SmallVec::new(alloc),
        }
    }

    pub fn push(&mut self, kind: Kind) -> Result<(), Memory>
        ensures ok { OnOk result (self.new ≡ self.old ++ kind ∷ []) }
        ensures err { OnErr result (self.new ≡ self.old) }
    {
        self.items.push(kind)?;
        Ok(())
    }

    pub fn as_slice(&self) -> &[Kind]
        ensures { result.now ≡ self.now }
    {
        self.items.as_slice()
    }
}

/// One alternative, and for each operand one kind that the alternative allows.
#[derive(Debug, Drop)]
pub struct Shape {
    pub alternative: u32,
    pub kinds: Kinds,
}

impl Duplicate for Kinds {
    fn duplicate(&self, alloc: Global) -> Result<Self, Memory> {
        Ok(Kinds {
            items: SmallVec::from_slice(alloc, self.items.as_slice())?,
        })
    }
}

impl Duplicate for Shape {
    fn duplicate(&self, alloc: Global) -> Result<Self, Memory> {
        Ok(Shape {
            alternative: self.alternative,
            kinds: self.kinds.duplicate(alloc)?,
        })
    }
}
