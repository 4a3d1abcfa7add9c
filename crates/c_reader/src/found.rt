//! What the specifiers of a declaration said so far.

ghost use Rattle.std.specs.Prelude.{◌≡◌, ℕ, ◌+◌, ◌<◌, IfOk};
ghost use Rattle.c_reader.specs.declared.next.Next.TheVariants.{Done};
ghost use Rattle.c_reader.specs.Basics.{with_basic};
ghost use Rattle.c_reader.specs.Specifiers.{EndsAt, finished, has_type, nothing_found, stored, type_found, with_basics, with_other};
ghost use Rattle.c_reader.specs.Reads.{GivesNext, IsBehind};
ghost use Rattle.c_values.specs.Ends.{Gives};

use crate::attributes::Attributes;
use crate::basics::Basics;
use crate::grammar::{Context, Specifiers};
use crate::next::Next;
use c_types::CType;
use c_values::TypeEnd;
use c_words::Basic;

/// What specifiers said so far.
#[derive(Drop)]
pub struct Found {
    pub basics: Basics,
    /// The type that is named by another word than those of arithmetic types.
    pub other: Option<CType>,
    pub is_typedef: bool,
    pub is_register: bool,
    pub attributes: Attributes,
}

/// The type that is named, by the words of an arithmetic type or otherwise.
fn type_found(basics: Basics, other: Option<CType>) -> Option<CType>
    ensures { result ≡ type_found basics other }
{
    match other {
        Some(ctype) => Some(ctype),
        None => basics.ctype(),
    }
}

impl Found {
    /// Nothing yet.
    pub fn new() -> Found
        ensures { result ≡ nothing_found }
    {
        Found {
            basics: Basics::new(),
            other: None,
            is_typedef: false,
            is_register: false,
            attributes: Attributes::new(),
        }
    }

    /// Whether a type was named.
    pub fn has_type(&self) -> bool
        ensures { result ≡ has_type self.now }
    {
        self.other.is_some() || !self.basics.is_empty()
    }

    /// What the specifiers say that end before the index.
    fn finished(self, end: usize) -> Result<Specifiers, TypeEnd>
        ensures is { Gives result (finished self end) }
        ensures ended { IfOk result (λ s. s.end ≡ end) }
    {
        let Found {
            basics,
            other,
            is_typedef,
            is_register,
            attributes,
        } = self;
        match type_found(basics, other) {
            Some(ctype) => Ok(Specifiers {
                ctype,
                is_typedef,
                is_register,
                attributes,
                end,
            }),
            None => Err(TypeEnd::NoType),
        }
    }

    /// The end of the specifiers before the index.
    pub fn ended(self, end: usize) -> Result<Next<Found, Specifiers>, TypeEnd>
        ensures is { GivesNext result (Done (finished self end)) }
        ensures further { (i : ℕ) → IfOk result (IsBehind i) }
        ensures ended { IfOk result (EndsAt end) }
    {
        Ok(Next::Done(self.finished(end)?))
    }

    /// With a type that stands alone.
    pub fn with_other(self, ctype: CType, end: usize) -> Result<Next<Found, Specifiers>, TypeEnd>
        ensures is { GivesNext result (with_other self ctype end) }
        ensures further { (i : ℕ) → i < end → IfOk result (IsBehind i) }
        ensures ended { (i : ℕ) → IfOk result (EndsAt i) }
    {
        if self.has_type() {
            return Err(TypeEnd::NoType);
        }
        let other = Some(ctype);
        Ok(Next::More(Found { other, ..self }, end))
    }

    /// With a word of an arithmetic type at the index.
    pub fn with_basic(self, word: Basic, i: usize) -> Result<Next<Found, Specifiers>, TypeEnd>
        requires { i < 4294967296 }
        ensures is { GivesNext result (with_basics self i (with_basic word self.basics)) }
        ensures further { IfOk result (IsBehind i) }
        ensures ended { IfOk result (EndsAt i) }
    {
        let Some(basics) = self.basics.with(word) else {
            return Err(TypeEnd::NoType);
        };
        if self.other.is_some() {
            return Err(TypeEnd::NoType);
        }
        Ok(Next::More(Found { basics, ..self }, i + 1))
    }

    /// With a storage class at the index, which may stand in declarations alone.
    pub fn stored(self, context: Context, i: usize) -> Result<Next<Found, Specifiers>, TypeEnd>
        requires { i < 4294967296 }
        ensures is { GivesNext result (stored context self i) }
        ensures further { IfOk result (IsBehind i) }
        ensures ended { IfOk result (EndsAt i) }
    {
        match context {
            Context::Declaration => Ok(Next::More(self, i + 1)),
            Context::Expression => Err(TypeEnd::NoType),
        }
    }
}
