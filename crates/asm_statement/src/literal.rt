//! The bytes of string literals and names, taken as they stand.

ghost use Rattle.std.specs.Prelude.{◌≡◌, ℕ, ◌+◌, ◌-◌, ◌<◌, ◌≤◌, length, slice_range, map, IfOk};
ghost use Rattle.asm_statement.specs.Literals.{raws_of, quoted, quoted_at, name_at};

use crate::source::Source;
use asm_core::{Items, Memory, Quoted, Span};
use c_literals::{Raw, raws_between, raws_in};
use c_tokens::Token;
use std::alloc::{AllocError, Global};

/// The bytes of adjacent literals.
#[tactic(auto, using(crate::proofs::LiteralLemmas::literal_steps))]
fn raws_of(alloc: Global, text: &[u8], tokens: &[Token]) -> Result<Vec<Raw>, AllocError>
    ensures { IfOk result (λ raws. raws.items ≡ raws_of text.now tokens.now) }
{
    let mut raws = Vec::new(alloc);
    for token in tokens {
        let mut more = raws_in(alloc, text, token)?;
        raws.append(&mut more)?;
    }
    Ok(raws)
}

/// Bytes with their offsets as one value.
pub fn quoted(alloc: Global, raws: &[Raw], span: Span) -> Result<Quoted, Memory>
    ensures { IfOk result (λ q. q ≡ quoted raws.now span) }
{
    let bytes = raws.iter().map(|r| r.byte).collect(alloc)?;
    let at = raws.iter().map(|r| r.at).collect(alloc)?;
    Ok(Quoted {
        bytes: Items::from_vec(bytes),
        at: Items::from_vec(at),
        span,
    })
}

/// The literals from the index `first` up to `end`, their bytes taken as they stand.
pub fn quoted_at(
    alloc: Global,
    source: &Source<'_>,
    first: usize,
    end: usize,
) -> Result<Quoted, Memory>
    requires { (first < end) × (end ≤ length source.now.tokens.now) }
    ensures { IfOk result (λ q. q ≡ quoted_at source.now.text.now source.now.tokens.now first end) }
{
    let raws = raws_of(alloc, source.text, &source.tokens[first..end])?;
    quoted(alloc, &raws, source.span_of(first, end - 1))
}

/// The name with this index.
pub fn name_at(alloc: Global, source: &Source<'_>, i: usize) -> Result<Quoted, Memory>
    ensures { IfOk result (λ q. q ≡ name_at source.now.text.now source.now.tokens.now i) }
{
    let span = source.span_of(i, i);
    let raws = raws_between(alloc, source.text, span.from as usize, span.to)?;
    quoted(alloc, &raws, span)
}
