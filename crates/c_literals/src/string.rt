//! The lengths of string literals.

ghost use Rattle.std.specs.Prelude.{◌≡◌, ◌<◌, ◌≤◌, ◌-◌, ◌^◌, length, IfOk, IfSome};
ghost use Rattle.c_tokens.specs.Cut.{IsOrdered};
ghost use Rattle.c_literals.specs.Literals.{string_length, total_length, capped_length};

use crate::literal::unprefixed;
use crate::literal_end::LiteralEnd;
use asm_core::Memory;
use c_tokens::Token;
use std::alloc::Global;

/// How many bytes a string literal stands for, the final 0 left out (C11 6.4.5). `None` where it has a prefix, an unknown
/// escape, or one greater than 255.
pub fn string_length(alloc: Global, text: &[u8], token: &Token) -> Result<Option<u32>, Memory>
    ensures is { IfOk result (λ found. found ≡ string_length text.now token.now) }
    // No more than the token has in the source.
    ensures few { IfOk result (λ found. IfSome found (λ n. n ≤ token.now.span.to - token.now.span.from)) }
{
    match unprefixed(alloc, text, token, b'"') {
        Ok(raws) => Ok(Some(raws.len() as u32)),
        Err(LiteralEnd::Bad(_)) => Ok(None),
        Err(LiteralEnd::Memory) => Err(Memory),
    }
}

/// How many bytes adjacent string literals stand for together, the final 0 left out (C11 5.1.1.2, phase 6). `None` where one
/// of them has no length; also from 2^32 bytes on, which no literals of one text have.
//#[tactic(auto, using(crate::proofs::LengthLemmas::total_few))]
pub fn concatenated_length(
    alloc: Global,
    text: &[u8],
    tokens: &[Token],
) -> Result<Option<u32>, Memory>
    ensures is { IfOk result (λ found. found ≡ capped_length (total_length text.now tokens.now)) }
    // Tokens one behind the other in the text have the sum itself, and it is at most the text's length.
    ensures whole { IsOrdered 0 tokens.now (length text.now) → length text.now < 2 ^ 32 → IfOk result (λ found. found ≡ total_length text.now tokens.now) }
    ensures few { IsOrdered 0 tokens.now (length text.now) → IfOk result (λ found. IfSome found (λ n. n ≤ length text.now)) }
{
    let mut total: u32 = 0;
    for token in tokens {
        let Some(length) = string_length(alloc, text, token)? else {
            return Ok(None);
        };
        let Some(sum) = total.checked_add(length) else {
            return Ok(None);
        };
        total = sum;
    }
    Ok(Some(total))
}
