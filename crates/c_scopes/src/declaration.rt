ghost use Rattle.std.specs.Prelude.{◌≡◌, IsTrue, ◌↔◌};

use asm_core::{Items, Span};
use c_types::CType;

/// What an ordinary name stands for.
#[derive(Clone, Copy, Debug, PartialEq, Eq)]
pub enum NameKind {
    Typedef,
    /// An enumeration constant, with its value where that is known.
    Constant(Option<i64>),
    /// An object or a function.
    Other,
}

/// What a declaration declares.
#[derive(Clone, Copy, Debug, PartialEq, Eq)]
pub enum Entity {
    Tag,
    Name(NameKind),
}

/// Names of different spaces are apart, even where they are spelled alike (C11 6.2.3).
#[derive(Clone, Copy, Debug, PartialEq, Eq)]
pub enum NameSpace {
    /// The tags of structs, unions and enumerations.
    Tag,
    /// Objects, functions, typedef names and enumeration constants.
    Ordinary,
}

#[derive(Debug, Drop)]
pub struct Declaration {
    pub name: Items<u8>,
    pub entity: Entity,
    /// The type of the name, or that which the tag names; `None` where it isn't known.
    pub ctype: Option<CType>,
    /// From the offset in the file from which on the declaration is seen, up to the offset before which its scope ends (C11 6.2.1).
    pub seen: Span,
}

impl Entity {
    ghost use Rattle.c_scopes.specs.Seen.{space_of};

    pub fn space(self) -> NameSpace
        ensures { result ≡ space_of self }
    {
        match self {
            Entity::Tag => NameSpace::Tag,
            Entity::Name(_) => NameSpace::Ordinary,
        }
    }
}

impl Declaration {
    ghost use Rattle.c_scopes.specs.Seen.{has_name, is_seen};

    /// Whether it declares that name.
    pub fn has_name(&self, space: NameSpace, name: &[u8]) -> bool
        ensures { result ≡ has_name space name.now self.now }
    {
        self.entity.space() == space && name == self.name.as_slice()
    }

    /// Whether it is seen at the offset `place` of the file.
    pub fn is_seen(&self, place: u32) -> bool
        ensures { result ≡ is_seen place self.now.seen }
    {
        self.seen.from <= place && place < self.seen.to
    }
}
