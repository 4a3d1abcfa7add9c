//! The specifiers of declarations and type names.

ghost use Rattle.std.specs.Prelude.{◌≡◌, ◌≤◌, ◌<◌, IfOk};
ghost use Rattle.c_reader.specs.Specifiers.{EndsAt, filling, specifier_step, specifiers_at, typedef_type, typeof_inside, typeof_type, va_list, with_attributes, with_name, with_typeof};
ghost use Rattle.c_reader.specs.Nesting.{inner};
ghost use Rattle.c_reader.specs.Reads.{GivesNext, IsBehind};
ghost use Rattle.c_values.specs.Ends.{Gives};

use crate::attributes::{attributes_at, begins_attribute};
use crate::found::Found;
use crate::grammar::{Context, Level, Specifiers, TypeName};
use crate::marks::is_open_paren;
use crate::next::Next;
use crate::reader::Reader;
use asm_core::Memory;
use c_scopes::visible;
use c_types::CType;
use c_values::TypeEnd;
use c_words::Word;
use std::alloc::Global;

/// The type that `typeof` names with this inside, which ends before the index `past`; `Unknown` where it ends elsewhere.
fn filling(past: usize, inside: TypeName) -> CType
    ensures { result ≡ filling past (Some inside) }
{
    if inside.end < past && inside.end + 1 == past {
        inside.ctype
    } else {
        CType::Unknown
    }
}

impl Reader<'_> {
    /// What stands in the parentheses of `typeof` from the index on: a type name, or an expression with its own type.
    #[cycle(reader)]
    fn typeof_inside(&self, alloc: Global, depth: u32, i: usize) -> Result<TypeName, TypeEnd>
        ensures { Gives result (typeof_inside self.now.source.now self.now.scopes.now (inner self.now.source.now self.now.scopes.now depth) i) }
    {
        if self.begins_type(i) {
            return self.nested_type_name(alloc, depth, i);
        }
        let read = self.nested(alloc, depth, Level::Comma, i)?;
        Ok(TypeName {
            ctype: read.value.ctype,
            end: read.end,
        })
    }

    /// The type that `typeof` with the parenthesis at the index names.
    #[cycle(reader)]
    #[tactic(auto, unfolding(crate::specs::Specifiers::typeof_type))]
    fn typeof_type(&self, alloc: Global, depth: u32, paren: usize) -> Result<CType, Memory>
        requires { paren < 4294967296 }
        ensures { IfOk result (λ t. t ≡ typeof_type self.now.source.now self.now.scopes.now (inner self.now.source.now self.now.scopes.now depth) paren) }
    {
        match self.typeof_inside(alloc, depth, paren + 1) {
            Ok(inside) => Ok(filling(self.source.past(paren), inside)),
            Err(TypeEnd::NoType) => Ok(CType::Unknown),
            Err(TypeEnd::Memory) => Err(Memory),
        }
    }

    /// `typeof` at the index.
    #[cycle(reader)]
    fn with_typeof(
        &self,
        alloc: Global,
        depth: u32,
        i: usize,
        found: Found,
    ) -> Result<Next<Found, Specifiers>, TypeEnd>
        requires { i < 4294967296 }
        ensures is { GivesNext result (with_typeof self.now.source.now self.now.scopes.now (inner self.now.source.now self.now.scopes.now depth) found i) }
        ensures further { IfOk result (IsBehind i) }
        ensures ended { IfOk result (EndsAt i) }
    {
        if !is_open_paren(self.source.word(i + 1)) {
            return Err(TypeEnd::NoType);
        }
        let ctype = self.typeof_type(alloc, depth, i + 1)?;
        found.with_other(ctype, self.source.past(i + 1))
    }

    /// Attributes at the index.
    fn with_attributes(&self, i: usize, found: Found) -> Result<Next<Found, Specifiers>, TypeEnd>
        ensures is { GivesNext result (with_attributes self.now.source.now found i) }
        ensures further { IfOk result (IsBehind i) }
        ensures ended { IfOk result (EndsAt i) }
    {
        if !begins_attribute(self.source, i) {
            return Err(TypeEnd::NoType);
        }
        let asked = attributes_at(self.source, i);
        let attributes = found.attributes.both(asked.attributes);
        Ok(Next::More(
            Found {
                attributes,
                ..found
            },
            asked.end,
        ))
    }

    /// The type of the typedef name at the index.
    fn typedef_type(&self, alloc: Global, i: usize) -> Result<CType, Memory>
        ensures { IfOk result (λ t. t ≡ typedef_type self.now.source.now self.now.scopes.now i) }
    {
        match visible(self.scopes, self.source.bytes(i), self.source.start(i)) {
            Some(ctype) => ctype.copy(alloc),
            None => Ok(CType::Unknown),
        }
    }

    /// A name at the index.
    fn with_name(
        &self,
        alloc: Global,
        i: usize,
        found: Found,
    ) -> Result<Next<Found, Specifiers>, TypeEnd>
        requires { i < 4294967296 }
        ensures is { GivesNext result (with_name self.now.source.now self.now.scopes.now found i) }
        ensures further { IfOk result (IsBehind i) }
        ensures ended { IfOk result (EndsAt i) }
    {
        if found.has_type() || !self.names_type(i) {
            return found.ended(i);
        }
        let ctype = self.typedef_type(alloc, i)?;
        found.with_other(ctype, i + 1)
    }

    /// The specifier at the index, beside those that were found; another token ends them.
    #[cycle(reader)]
    #[tactic(auto, unfolding(crate::specs::Specifiers::specifier_step))]
    fn specifier_step(
        &self,
        alloc: Global,
        depth: u32,
        context: Context,
        i: usize,
        found: Found,
    ) -> Result<Next<Found, Specifiers>, TypeEnd>
        ensures is { GivesNext result (specifier_step self.now.source.now self.now.scopes.now (inner self.now.source.now self.now.scopes.now depth) context i found) }
        ensures further { IfOk result (IsBehind i) }
        ensures ended { IfOk result (EndsAt i) }
    {
        match self.source.word(i) {
            Word::Typedef => Found {
                is_typedef: true,
                ..found
            }
            .stored(context, i),
            Word::Register => Found {
                is_register: true,
                ..found
            }
            .stored(context, i),
            Word::Specifier | Word::Extension => found.stored(context, i),
            Word::Qualifier => Ok(Next::More(found, i + 1)),
            Word::Basic(word) => found.with_basic(word, i),
            Word::VaList => found.with_other(va_list(alloc)?, i + 1),
            Word::Tag(kind) => {
                let tag = self.tag_at(alloc, depth, context, kind, i)?;
                found.with_other(tag.ctype, tag.end)
            }
            Word::Typeof => self.with_typeof(alloc, depth, i, found),
            Word::Attribute => self.with_attributes(i, found),
            Word::Name => self.with_name(alloc, i, found),
            _ => found.ended(i),
        }
    }

    /// The specifiers from the index on.
    #[cycle(reader)]
    #[tactic(auto, using(crate::proofs::SpecifierLemmas::specifier_steps))]
    pub fn specifiers_at(
        &self,
        alloc: Global,
        depth: u32,
        context: Context,
        first: usize,
    ) -> Result<Specifiers, TypeEnd>
        ensures is { Gives result (specifiers_at self.now.source.now self.now.scopes.now (inner self.now.source.now self.now.scopes.now depth) context first) }
        ensures behind { IfOk result (λ s. first ≤ s.end) }
    {
        let mut found = Found::new();
        let mut i = first;
        while i < self.source.len() {
            match self.specifier_step(alloc, depth, context, i, found)? {
                Next::Done(specifiers) => return Ok(specifiers),
                Next::More(more, next) => {
                    found = more;
                    i = next;
                    continue;
                }
            }
        }
        Err(TypeEnd::NoType)
    }
}

/// `__builtin_va_list` is a pointer to char (System V ABI for i386).
fn va_list(alloc: Global) -> Result<CType, Memory>
    ensures { IfOk result (λ t. t ≡ va_list) }
{
    CType::pointer_to(
        alloc,
        CType::Int {
            size: 1,
            signed: true,
        },
    )
}
