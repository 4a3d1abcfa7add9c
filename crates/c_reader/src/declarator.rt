//! Declarators and type names (C11 6.7.6, 6.7.7).

ghost use Rattle.std.specs.Prelude.{◌≡◌, ◌≤◌, ◌<◌, IfOk, IsTrue};
ghost use Rattle.c_reader.specs.Declarators.{begins_parameters, in_parentheses, declarator_at, declarator_behind, named_by, opens_declarator, parameters_behind, parameters_next, type_name_at, may_name, wants_name};
ghost use Rattle.c_reader.specs.Nesting.{inner};
ghost use Rattle.c_values.specs.Ends.{Gives};

use crate::attributes::{attributes_at, attributes_from};
use crate::grammar::{Context, Declarator, Shape, TypeName};
use crate::marks::{is_close_paren, is_name, is_open_paren};
use crate::pointers::{Pointers, pointers_at};
use crate::reader::Reader;
use crate::suffix::{Suffixes, suffixed_by};
use asm_core::Memory;
use c_types::CType;
use c_values::TypeEnd;
use std::alloc::Global;

impl Shape {
    /// Whether the name has to be there.
    fn wants_name(self) -> bool
        ensures { result ≡ wants_name self }
    {
        matches!(self, Shape::Named)
    }

    /// Whether a name may be there.
    fn may_name(self) -> bool
        ensures { result ≡ may_name self }
    {
        !matches!(self, Shape::Abstract)
    }
}

impl Reader<'_> {
    /// A declarator inside another one's parentheses.
    #[cycle(reader)]
    #[tactic(auto, using(crate::proofs::NestingLemmas::declarator_steps))]
    fn nested_declarator(
        &self,
        alloc: Global,
        depth: u32,
        context: Context,
        shape: Shape,
        base: CType,
        i: usize,
    ) -> Result<Declarator, TypeEnd>
        ensures is { Gives result ((inner self.now.source.now self.now.scopes.now depth).declarator context shape base i) }
        ensures behind { IfOk result (λ d. i ≤ d.end) }
    {
        if depth == 0 {
            return Err(TypeEnd::NoType);
        }
        self.declarator_at(alloc, depth - 1, context, shape, base, i)
    }

    /// A declarator.
    #[cycle(reader)]
    pub fn declarator_at(
        &self,
        alloc: Global,
        depth: u32,
        context: Context,
        shape: Shape,
        base: CType,
        i: usize,
    ) -> Result<Declarator, TypeEnd>
        ensures is { Gives result (declarator_at self.now.source.now self.now.scopes.now (inner self.now.source.now self.now.scopes.now depth) context shape base i) }
        ensures behind { IfOk result (λ d. i ≤ d.end) }
    {
        let pointers = pointers_at(alloc, self.source, base, i)?;
        self.declarator_behind(alloc, depth, context, shape, pointers)
    }

    /// Whether parameters begin at the index, behind their parenthesis and attributes.
    fn begins_parameters(&self, i: usize) -> bool
        ensures { result ≡ begins_parameters self.now.source.now self.now.scopes.now i }
    {
        is_close_paren(self.source.word(i)) || self.begins_specifier(i)
    }

    /// Whether the parenthesis at the index, if one opens there, has a declarator inside, and not parameters.
    fn opens_declarator(&self, shape: Shape, i: usize) -> bool
        ensures is { result ≡ opens_declarator self.now.source.now self.now.scopes.now shape i }
        ensures inside { IsTrue result → i < 4294967296 }
    {
        is_open_paren(self.source.word(i))
            && (shape.wants_name()
                || !self.begins_parameters(attributes_at(self.source, i + 1).end))
    }

    /// The declarator behind its stars.
    #[cycle(reader)]
    #[tactic(auto, unfolding(crate::specs::Declarators::declarator_behind))]
    fn declarator_behind(
        &self,
        alloc: Global,
        depth: u32,
        context: Context,
        shape: Shape,
        pointers: Pointers,
    ) -> Result<Declarator, TypeEnd>
        ensures is { Gives result (declarator_behind self.now.source.now self.now.scopes.now (inner self.now.source.now self.now.scopes.now depth) context shape pointers) }
        ensures behind { IfOk result (λ d. pointers.end ≤ d.end) }
    {
        let first = pointers.end;
        if is_name(self.source.word(first)) && shape.may_name() {
            let found = self.suffixes_at(alloc, depth, context, first + 1)?;
            return Ok(self.named_by(alloc, pointers, Some(first), first + 1, found)?);
        }
        if self.opens_declarator(shape, first) {
            return self.in_parentheses(alloc, depth, context, shape, pointers);
        }
        if shape.wants_name() {
            return Err(TypeEnd::NoType);
        }
        let found = self.suffixes_at(alloc, depth, context, first)?;
        Ok(self.named_by(alloc, pointers, None, first, found)?)
    }

    /// The index itself, if a parenthesis opens there, and with it parameters.
    fn parameters_behind(&self, i: usize) -> Option<usize>
        ensures { result ≡ parameters_behind self.now.source.now i }
    {
        if is_open_paren(self.source.word(i)) {
            Some(i)
        } else {
            None
        }
    }

    /// The index of the parenthesis of the parameters next to the name: `inside` the parentheses around it, which end before the
    /// index, or directly behind these.
    fn parameters_next(&self, i: usize, inside: Option<usize>) -> Option<usize>
        ensures { result ≡ parameters_next self.now.source.now i inside }
    {
        match inside {
            Some(paren) => Some(paren),
            None => self.parameters_behind(i),
        }
    }

    /// The declarator with that name, and with its parts behind the name from the index on.
    fn named_by(
        &self,
        alloc: Global,
        pointers: Pointers,
        name: Option<usize>,
        i: usize,
        found: Suffixes,
    ) -> Result<Declarator, Memory>
        ensures { IfOk result (λ d. d ≡ named_by self.now.source.now pointers name i found) }
    {
        Ok(Declarator {
            name,
            ctype: suffixed_by(alloc, found.list, pointers.ctype)?,
            parameters: self.parameters_behind(i),
            attributes: pointers.attributes,
            end: found.end,
        })
    }

    /// The declarator whose stars a parenthesis with another one follows.
    #[cycle(reader)]
    fn in_parentheses(
        &self,
        alloc: Global,
        depth: u32,
        context: Context,
        shape: Shape,
        pointers: Pointers,
    ) -> Result<Declarator, TypeEnd>
        requires { pointers.end < 4294967296 }
        ensures is { Gives result (in_parentheses self.now.source.now (inner self.now.source.now self.now.scopes.now depth) context shape pointers) }
        ensures behind { IfOk result (λ d. pointers.end ≤ d.end) }
    {
        let past = self.source.past(pointers.end);
        let found = self.suffixes_at(alloc, depth, context, past)?;
        let ctype = suffixed_by(alloc, found.list, pointers.ctype)?;
        let inside = self.nested_declarator(alloc, depth, context, shape, ctype, pointers.end + 1)?;
        if inside.end >= past || inside.end + 1 != past {
            return Err(TypeEnd::NoType);
        }
        Ok(Declarator {
            parameters: self.parameters_next(past, inside.parameters),
            attributes: pointers.attributes.both(inside.attributes),
            end: found.end,
            ..inside
        })
    }

    /// A type name inside a bracket.
    #[cycle(reader)]
    #[tactic(auto, using(crate::proofs::NestingLemmas::type_name_steps))]
    pub(crate) fn nested_type_name(
        &self,
        alloc: Global,
        depth: u32,
        i: usize,
    ) -> Result<TypeName, TypeEnd>
        ensures is { Gives result ((inner self.now.source.now self.now.scopes.now depth).type_name i) }
        ensures behind { IfOk result (λ t. i ≤ t.end) }
    {
        if depth == 0 {
            return Err(TypeEnd::NoType);
        }
        self.type_name_at(alloc, depth - 1, i)
    }

    /// A type name whose type is known.
    #[cycle(reader)]
    #[tactic(auto, unfolding(crate::specs::Declarators::type_name_at))]
    fn type_name_at(&self, alloc: Global, depth: u32, i: usize) -> Result<TypeName, TypeEnd>
        ensures is { Gives result (type_name_at self.now.source.now self.now.scopes.now (inner self.now.source.now self.now.scopes.now depth) i) }
        ensures behind { IfOk result (λ t. i ≤ t.end) }
    {
        let base = self.specifiers_at(alloc, depth, Context::Expression, i)?;
        let declarator = self.declarator_at(
            alloc,
            depth,
            Context::Expression,
            Shape::Abstract,
            base.ctype,
            base.end,
        )?;
        let already = base.attributes.both(declarator.attributes);
        let asked = attributes_from(self.source, already, declarator.end);
        match asked.attributes.typed(true, declarator.ctype) {
            Some(ctype) => Ok(TypeName {
                ctype,
                end: asked.end,
            }),
            None => Err(TypeEnd::NoType),
        }
    }
}
