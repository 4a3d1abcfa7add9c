//! Names, constants and string literals in an expression.

ghost use Rattle.std.specs.Prelude.{◌≡◌, ◌<◌, ◌≤◌, length};
ghost use Rattle.c_reader.specs.Leaves.{character_value, is_zero, is_zero_at, named_value, number_value, text_value, texts_end, valued};
ghost use Rattle.c_words.specs.Words.{word_at};
ghost use Rattle.c_words.specs.declared.word.Word.TheVariants.{Text};
ghost use Rattle.c_values.specs.Ends.{Gives};

use crate::reader::Reader;
use c_literals::concatenated_length;
use c_scopes::{Declaration, Entity, NameKind, NameSpace};
use c_types::CType;
use c_values::{
    Constant, TypeEnd, Value, character_constant, integer_constant, string_literal, varying,
};
use c_words::Word;
use std::alloc::Global;

/// The value of a name with this declaration.
fn valued(alloc: Global, declaration: &Declaration) -> Result<Value, TypeEnd>
    ensures { Gives result (valued declaration.now.entity declaration.now.ctype) }
{
    match declaration.entity {
        Entity::Name(NameKind::Other) => match &declaration.ctype {
            Some(ctype) => varying(ctype.copy(alloc)?),
            None => Err(TypeEnd::NoType),
        },
        Entity::Name(NameKind::Constant(Some(number))) => Ok(Value {
            ctype: CType::Int {
                size: 4,
                signed: true,
            },
            constant: Constant::Known(i128::from(number)),
        }),
        Entity::Name(NameKind::Constant(None) | NameKind::Typedef) | Entity::Tag => Err(
            TypeEnd::NoType,
        ),
    }
}

/// The value of a number as it is written.
pub fn number_value(bytes: &[u8]) -> Result<Value, TypeEnd>
    ensures { Gives result (number_value bytes.now) }
{
    match c_literals::integer_constant(bytes) {
        Some(number) => Ok(integer_constant(number.size, number.signed, number.value)),
        None => Err(TypeEnd::NoType),
    }
}

/// Whether a number as it is written is an integer constant 0.
fn is_zero(bytes: &[u8]) -> bool
    ensures { result ≡ is_zero bytes.now }
{
    match c_literals::integer_constant(bytes) {
        Some(number) => number.value == 0,
        None => false,
    }
}

impl Reader<'_> {
    /// Whether an integer constant 0 stands at the index.
    pub(crate) fn is_zero_at(&self, i: usize) -> bool
        ensures { result ≡ is_zero_at self.now.source.now i }
    {
        matches!(self.source.word(i), Word::Number) && is_zero(self.source.bytes(i))
    }

    /// The value of the name with this index.
    pub(crate) fn named_value(&self, alloc: Global, i: usize) -> Result<Value, TypeEnd>
        ensures { Gives result (named_value self.now.source.now self.now.scopes.now i) }
    {
        let name = self.source.bytes(i);
        let place = self.source.start(i);
        match self.scopes.declaration(NameSpace::Ordinary, name, place) {
            Some(declaration) => valued(alloc, declaration),
            None => Err(TypeEnd::NoType),
        }
    }

    /// The value of the character constant with this index.
    pub(crate) fn character_value(&self, alloc: Global, i: usize) -> Result<Value, TypeEnd>
        ensures { Gives result (character_value self.now.source.now i) }
    {
        let Some(token) = self.source.token(i) else {
            return Err(TypeEnd::NoType);
        };
        match c_literals::character_constant(alloc, self.source.text(), &token)? {
            Some(byte) => Ok(character_constant(byte)),
            None => Err(TypeEnd::NoType),
        }
    }

    /// The index behind the adjacent string literals from the index on.
    #[tactic(auto, using(crate::proofs::LeafLemmas::text_steps))]
    pub(crate) fn texts_end(&self, first: usize) -> usize
        ensures is { result ≡ texts_end self.now.source.now first }
        ensures behind { first ≤ result }
        ensures further { word_at self.now.source.now first ≡ Text → first < length self.now.source.now.tokens → first < result }
        ensures within { first ≤ length self.now.source.now.tokens → result ≤ length self.now.source.now.tokens }
    {
        let mut i = first;
        while i < self.source.len() {
            if !matches!(self.source.word(i), Word::Text) {
                return i;
            }
            i += 1;
        }
        i
    }

    /// The value of the adjacent string literals from the index on.
    pub(crate) fn text_value(&self, alloc: Global, first: usize) -> Result<Value, TypeEnd>
        requires { first ≤ length self.now.source.now.tokens }
        ensures { Gives result (text_value self.now.source.now first) }
    {
        let tokens = &self.source.tokens()[first..self.texts_end(first)];
        match concatenated_length(alloc, self.source.text(), tokens)? {
            Some(length) => string_literal(alloc, u64::from(length) + 1),
            None => Err(TypeEnd::NoType),
        }
    }
}
