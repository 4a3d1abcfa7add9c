ghost use Rattle.std.specs.Prelude.{◌≡◌, ◌<◌, [], ◌∷◌, ◌++◌, length, slice_set, MatchOption, OnOk, OnErr};
ghost use Rattle.std.specs.Option.{option_copied, ForSome};
ghost use Rattle.c_types.specs.Extents.{AllAligned, IsAlignment};
ghost use Rattle.c_scopes.specs.Seen.{declaration_of, IsLastSeen, NoneSeen, no_declarations, with_declaration, with_tags};

use crate::index::Index;
use crate::{Declaration, NameSpace};
use asm_core::{Items, Memory};
use c_types::{Tag, Tags};
use std::alloc::Global;
use std::marker::Model;

/// The declarations of a file, in their order, and its structs and unions.
#[derive(Debug, Drop)]
pub struct Scopes {
    index: Index,
    tags: Tags,
}

impl Model for Scopes {
    ghost use Rattle.c_scopes.specs.Seen.{Declared};
    ghost use Rattle.c_types.specs.Extents.{AllAligned};
    ghost use Rattle.std.specs.Coded.{codes};
    ghost use Rattle.c_types.specs.contracts.ctype.CType as ctype;

    ghost Value = { Declared };

    ghost coded = { Prim.hlevel (codes, ctype.the_row.coded) };

    ghost use Rattle.c_scopes.specs.Chain.{IsIndex};

    ghost view = { λ s. record { declarations = s.index.declarations.items; tags = s.tags } };

    ghost invariant = { λ s. IsIndex s.index × AllAligned s.tags };
}

impl Scopes {
    /// Nothing declared, and no tags.
    pub fn new(alloc: Global) -> Scopes
        ensures { result ≡ no_declarations }
    {
        Scopes {
            index: Index::new(alloc),
            tags: Tags {
                list: Items::new(alloc),
            },
        }
    }

    /// Adds a declaration behind those that are there.
    pub fn declare(&mut self, declaration: Declaration) -> Result<(), Memory>
        ensures ok { OnOk result (self.new ≡ with_declaration declaration self.old) }
        ensures err { OnErr result (self.new ≡ self.old) }
    {
        self.index.add(declaration)
    }

    /// Adds a struct or union, whose number is the count of those that are there.
    pub fn add_tag(&mut self, tag: Tag) -> Result<(), Memory>
        requires { ForSome tag.layout (λ l. IsAlignment l.align) }
        ensures ok { OnOk result (self.new ≡ with_tags (self.old.tags.list ++ tag ∷ []) self.old) }
        ensures err { OnErr result (self.new ≡ self.old) }
    {
        self.tags.list.push(tag)?;
        Ok(())
    }

    /// Puts `tag` in the place of the struct or union of that number.
    pub fn complete(&mut self, number: u32, tag: Tag)
        requires number { number < length self.old.tags.list }
        requires aligned { ForSome tag.layout (λ l. IsAlignment l.align) }
        ensures { self.new ≡ with_tags (slice_set self.old.tags.list number tag) self.old }
    {
        self.tags.list.set(number as usize, tag);
    }

    /// The structs and unions, in the order of their numbers.
    pub fn tags(&self) -> &Tags
        ensures is { result.now ≡ self.now.tags }
        ensures sound { AllAligned result.now }
    {
        &self.tags
    }

    /// How many structs and unions there are.
    pub fn tag_count(&self) -> usize
        ensures { result ≡ length self.now.tags.list }
    {
        self.tags.list.len()
    }

    /// All declarations, in the order in which they were added.
    pub fn declarations(&self) -> &[Declaration]
        ensures { result.now ≡ self.now.declarations }
    {
        self.index.declarations.as_slice()
    }

    /// The declaration that the name has at the offset `place` of the file: the last that is seen there (C11 6.2.1, 4).
    pub fn declaration(&self, space: NameSpace, name: &[u8], place: u32) -> Option<&Declaration>
        ensures is { option_copied result ≡ declaration_of self.now space name.now place }

        // What is found is so declared and seen, and none behind it is; where nothing is found, none is.
        ensures last { MatchOption (option_copied result) (NoneSeen space name.now place self.now.declarations) (IsLastSeen space name.now place self.now.declarations) }
    {
        self.index.last_seen(space, name, place)
    }
}
