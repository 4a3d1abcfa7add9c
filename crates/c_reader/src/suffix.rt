//! What stands behind the name in a declarator: the brackets of arrays and the parameters of functions.

ghost use Rattle.std.specs.Prelude.{◌≡◌, ◌≤◌, IfOk};
ghost use Rattle.c_reader.specs.Declarators.{SuffixesEndAt, array_suffix, behind_qualifiers, length_of, suffix_step, suffixed, suffixed_by, suffixes_at};
ghost use Rattle.c_reader.specs.Nesting.{inner};
ghost use Rattle.c_reader.specs.Reads.{GivesNext, IsBehind};
ghost use Rattle.c_values.specs.Ends.{Gives};

use crate::grammar::{Context, Level};
use crate::marks::{is_close_bracket, is_open_bracket, is_open_paren};
use crate::next::Next;
use crate::reader::Reader;
use asm_core::{Items, Memory};
use c_types::CType;
use c_values::{Constant, TypeEnd};
use c_words::Word;
use std::alloc::Global;

/// One part behind the name (C11 6.7.6.2, 6.7.6.3).
#[derive(Clone, Copy, Drop)]
pub enum Suffix {
    /// Empty brackets.
    Flexible,
    /// Brackets with so many elements.
    Length(u64),
    /// Brackets with a length that isn't known.
    Variable,
    /// The parameters of a function.
    Parameters,
}

/// The parts behind the name in their order, and the index behind them.
#[derive(Drop)]
pub struct Suffixes {
    pub list: Items<Suffix>,
    pub end: usize,
}

impl Suffix {
    /// The type with this part behind its name.
    pub fn of(self, alloc: Global, ctype: CType) -> Result<CType, Memory>
        ensures { IfOk result (λ t. t ≡ suffixed self ctype) }
    {
        match self {
            Suffix::Flexible => CType::array_of(alloc, ctype, None),
            Suffix::Length(length) => CType::array_of(alloc, ctype, Some(length)),
            Suffix::Variable => CType::variable_array_of(alloc, ctype),
            Suffix::Parameters => CType::function_giving(alloc, ctype),
        }
    }
}

/// The type with all the parts behind its name.
#[tactic(auto, using(crate::proofs::PointerLemmas::suffix_steps))]
pub fn suffixed_by(alloc: Global, list: Items<Suffix>, base: CType) -> Result<CType, Memory>
    ensures { IfOk result (λ t. t ≡ suffixed_by list base) }
{
    let mut list = list;
    let mut ctype = base;
    while let Some(last) = list.pop() {
        ctype = last.of(alloc, ctype)?;
    }
    Ok(ctype)
}

/// How many elements a length stands for.
fn length_of(constant: Constant) -> Option<u64>
    ensures { result ≡ length_of constant }
{
    match constant {
        Constant::Known(number) => u64::try_from(number).ok(),
        _ => None,
    }
}

impl Reader<'_> {
    /// The index behind `static` and the qualifiers that may stand in brackets (C11 6.7.6.3, 7).
    #[tactic(auto, using(crate::proofs::SuffixLemmas::qualifier_steps))]
    fn behind_qualifiers(&self, first: usize) -> usize
        ensures is { result ≡ behind_qualifiers self.now.source.now first }
    {
        let mut i = first;
        while i < self.source.len() {
            if !matches!(self.source.word(i), Word::Qualifier | Word::Specifier) {
                return i;
            }
            i += 1;
        }
        i
    }

    /// What the brackets at the index say, whose length begins at the index `inside`.
    #[cycle(reader)]
    #[tactic(auto, unfolding(crate::specs::Declarators::array_suffix))]
    fn array_suffix(
        &self,
        alloc: Global,
        depth: u32,
        bracket: usize,
        inside: usize,
    ) -> Result<Suffix, Memory>
        ensures { IfOk result (λ s. s ≡ array_suffix self.now.source.now (inner self.now.source.now self.now.scopes.now depth) bracket inside) }
    {
        if is_close_bracket(self.source.word(inside)) {
            return Ok(Suffix::Flexible);
        }
        let length = match self.nested(alloc, depth, Level::Assignment, inside) {
            Ok(length) => length,
            Err(TypeEnd::NoType) => return Ok(Suffix::Variable),
            Err(TypeEnd::Memory) => return Err(Memory),
        };
        let past = self.source.past(bracket);
        if length.end >= past || length.end + 1 != past {
            return Ok(Suffix::Variable);
        }
        match length_of(length.value.constant) {
            Some(length) => Ok(Suffix::Length(length)),
            None => Ok(Suffix::Variable),
        }
    }

    /// One part behind a declarator's name.
    #[cycle(reader)]
    #[tactic(auto, unfolding(crate::specs::Declarators::suffix_step))]
    fn suffix_step(
        &self,
        alloc: Global,
        depth: u32,
        context: Context,
        i: usize,
        found: Items<Suffix>,
    ) -> Result<Next<Items<Suffix>, Suffixes>, TypeEnd>
        ensures is { GivesNext result (suffix_step self.now.source.now (inner self.now.source.now self.now.scopes.now depth) context i found) }
        ensures further { IfOk result (IsBehind i) }
        ensures ended { IfOk result (SuffixesEndAt i) }
    {
        let word = self.source.word(i);
        let mut list = found;
        if is_open_bracket(word) {
            if is_open_bracket(self.source.word(i + 1)) {
                return Err(TypeEnd::NoType);
            }
            let inside = self.behind_qualifiers(i + 1);
            list.push(self.array_suffix(alloc, depth, i, inside)?)?;
            return Ok(Next::More(list, self.source.past(i)));
        }
        if is_open_paren(word) {
            let parameters = self.nested_parameters(alloc, depth, context, i)?;
            list.push(Suffix::Parameters)?;
            return Ok(Next::More(list, parameters.end));
        }
        Ok(Next::Done(Suffixes { list, end: i }))
    }

    /// The parts behind a declarator's name, from the index on.
    #[cycle(reader)]
    #[tactic(auto, using(crate::proofs::SuffixLemmas::suffixes_steps))]
    pub(crate) fn suffixes_at(
        &self,
        alloc: Global,
        depth: u32,
        context: Context,
        first: usize,
    ) -> Result<Suffixes, TypeEnd>
        ensures is { Gives result (suffixes_at self.now.source.now (inner self.now.source.now self.now.scopes.now depth) context first) }
        ensures behind { IfOk result (λ found. first ≤ found.end) }
    {
        let mut list = Items::new(alloc);
        let mut i = first;
        while i < self.source.len() {
            match self.suffix_step(alloc, depth, context, i, list)? {
                Next::Done(suffixes) => return Ok(suffixes),
                Next::More(more, next) => {
                    list = more;
                    i = next;
                    continue;
                }
            }
        }
        Err(TypeEnd::NoType)
    }
}
