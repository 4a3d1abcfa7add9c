//! The stars of a declarator.

ghost use Rattle.std.specs.Prelude.{◌≡◌, ◌≤◌, IfOk};
ghost use Rattle.c_reader.specs.Declarators.{EndsAt, aligned_type, with_attributes, pointed, pointer_step, pointers_at};
ghost use Rattle.c_reader.specs.Reads.{IsBehind};

use crate::attributes::{Asked, Attributes, attributes_at, begins_attribute};
use crate::next::Next;
use asm_core::Memory;
use c_types::CType;
use c_words::{Punct, Source, Word};
use std::alloc::Global;

/// A type behind stars, what attributes among them ask for, and the index behind them.
#[derive(Drop)]
pub struct Pointers {
    pub ctype: CType,
    pub attributes: Attributes,
    pub end: usize,
}

/// The type with these attributes directly behind a star or a parenthesis: gcc counts `aligned` and `packed` in
/// `typeof`.
fn aligned_type(attributes: Attributes, ctype: CType) -> CType
    ensures { result ≡ aligned_type attributes ctype }
{
    if attributes.aligned {
        CType::Unknown
    } else {
        ctype
    }
}

impl Pointers {
    fn with_attributes(self, asked: Asked) -> Pointers
        ensures { result ≡ with_attributes asked self }
    {
        let attributes = self.attributes.both(asked.attributes);
        let ctype = aligned_type(asked.attributes, self.ctype);
        Pointers {
            ctype,
            attributes,
            ..self
        }
    }
}

/// One star, qualifier or group of attributes.
#[tactic(auto, unfolding(crate::specs::Declarators::pointer_step))]
fn pointer_step(
    alloc: Global,
    source: &Source<'_>,
    i: usize,
    found: Pointers,
) -> Result<Next<Pointers, Pointers>, Memory>
    ensures is { IfOk result (λ next. next ≡ pointer_step source.now i found) }
    ensures further { IfOk result (IsBehind i) }
    ensures ended { IfOk result (EndsAt i) }
{
    match source.word(i) {
        Word::Qualifier => Ok(Next::More(found, i + 1)),
        Word::Attribute => {
            if !begins_attribute(source, i) {
                return Ok(Next::Done(Pointers { end: i, ..found }));
            }
            let asked = attributes_at(source, i);
            Ok(Next::More(found.with_attributes(asked), asked.end))
        }
        Word::Punct(Punct::Star) => {
            let ctype = CType::pointer_to(alloc, found.ctype)?;
            Ok(Next::More(Pointers { ctype, ..found }, i + 1))
        }
        _ => Ok(Next::Done(Pointers { end: i, ..found })),
    }
}

/// The type behind the stars from the index on.
#[tactic(auto, using(crate::proofs::PointerLemmas::pointer_steps))]
pub fn pointers_at(
    alloc: Global,
    source: &Source<'_>,
    base: CType,
    first: usize,
) -> Result<Pointers, Memory>
    ensures is { IfOk result (λ found. found ≡ pointers_at source.now base first) }
    ensures behind { IfOk result (λ found. first ≤ found.end) }
{
    let mut found = Pointers {
        ctype: base,
        attributes: Attributes::new(),
        end: first,
    };
    let mut i = first;
    while i < source.len() {
        match pointer_step(alloc, source, i, found)? {
            Next::Done(found) => return Ok(found),
            Next::More(more, next) => {
                found = more;
                i = next;
                continue;
            }
        }
    }
    Ok(Pointers { end: i, ..found })
}
