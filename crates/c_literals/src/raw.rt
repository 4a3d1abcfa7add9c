//! The bytes of a source as they stand there, spliced lines aside.

ghost use Rattle.std.specs.Prelude.{◌≡◌, ◌<◌, ◌≤◌, ◌-◌, ◌^◌, length, IfOk};
ghost use Rattle.c_literals.specs.Raws.{is_splice, raws_between, raws_in};

use c_tokens::{Token, byte_at};
use std::alloc::{AllocError, Global};

/// A byte, and the offset in the file at which its source begins.
#[derive(Clone, Copy)]
pub struct Raw {
    pub byte: u8,
    pub at: u32,
}

/// Whether the byte belongs to a backslash and newline, which give no byte.
fn is_splice(b: u8, next: u8) -> bool
    ensures { result ≡ is_splice b next }
{
    b == b'\n' || (b == b'\\' && next == b'\n')
}

/// The bytes of the text from one offset up to another, but for spliced lines (C11 5.1.1.2).
#[tactic(auto, using(crate::proofs::RawLemmas::raw_steps, crate::proofs::RawLemmas::raws_few))]
pub fn raws_between(
    alloc: Global,
    text: &[u8],
    from: usize,
    to: u32,
) -> Result<Vec<Raw>, AllocError>
    ensures is { IfOk result (λ raws. raws.items ≡ raws_between text.now from to) }
    ensures few { IfOk result (λ raws. length raws.items ≤ to - from) }
{
    let mut raws = Vec::new(alloc);
    let mut i = from;
    while i < text.len() && i < to as usize {
        let byte = text[i];
        let at = i as u32;
        i += 1;
        if is_splice(byte, byte_at(text, i)) {
            continue;
        }
        raws.push(Raw { byte, at })?;
    }
    Ok(raws)
}

/// The bytes between the quotes of a literal that has no prefix.
pub fn raws_in(alloc: Global, text: &[u8], token: &Token) -> Result<Vec<Raw>, AllocError>
    ensures is { IfOk result (λ raws. raws.items ≡ raws_in text.now token.now) }
    // No more than the token has in the source.
    ensures few { IfOk result (λ raws. length raws.items ≤ token.now.span.to - token.now.span.from) }
    ensures short { IfOk result (λ raws. length raws.items < 2 ^ 32) }
{
    raws_between(
        alloc,
        text,
        token.span.from as usize + 1,
        token.span.to.saturating_sub(1),
    )
}
