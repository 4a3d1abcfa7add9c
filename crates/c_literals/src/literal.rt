//! The bytes that a literal stands for.

ghost use Rattle.std.specs.Prelude.{◌≡◌, ◌<◌, ◌≤◌, ◌-◌, ◌^◌, length, IfOk};
ghost use Rattle.c_literals.specs.Literals.{GivesBytes, read_all, unprefixed};

use crate::escape::read_at;
use crate::literal_end::LiteralEnd;
use crate::plain::Plain;
use crate::raw::{Raw, raws_in};
use c_tokens::{Token, byte_at};
use std::alloc::Global;

/// The bytes that stand between a literal's quotes, escapes read (C11 6.4.4.4); each keeps the offset of its source.
///
/// # Errors
/// The offset of the first form that is no escape, and no byte that may stand as itself; or want of memory.
#[tactic(auto, using(crate::proofs::LiteralLemmas::read_steps))]
pub fn read_all(alloc: Global, raws: &[Raw], plain: Plain) -> Result<Vec<Raw>, LiteralEnd>
    ensures is { GivesBytes (λ v. v.items) result (read_all plain raws.now) }
    ensures few { IfOk result (λ v. length v.items ≤ length raws.now) }
{
    let bytes: Vec<u8> = raws.iter().map(|raw| raw.byte).collect(alloc)?;
    let mut list = Vec::new(alloc);
    let mut i = 0;
    while i < raws.len() {
        let at = raws[i].at;
        match read_at(&bytes, plain, i) {
            Some(read) => {
                list.push(Raw {
                    byte: read.byte,
                    at,
                })?;
                i = read.end;
                continue;
            }
            None => return Err(LiteralEnd::Bad(at)),
        }
    }
    Ok(list)
}

/// The bytes that a literal stands for, if it begins with the quote and not with a prefix.
pub fn unprefixed(
    alloc: Global,
    text: &[u8],
    token: &Token,
    quote: u8,
) -> Result<Vec<Raw>, LiteralEnd>
    ensures is { GivesBytes (λ v. v.items) result (unprefixed quote text.now token.now) }
    // No more than the token has in the source.
    ensures few { IfOk result (λ v. length v.items ≤ token.now.span.to - token.now.span.from) }
    ensures short { IfOk result (λ v. length v.items < 2 ^ 32) }
{
    if byte_at(text, token.span.from as usize) != quote {
        return Err(LiteralEnd::Bad(token.span.from));
    }
    let raws = raws_in(alloc, text, token)?;
    read_all(alloc, &raws, Plain::Every)
}
