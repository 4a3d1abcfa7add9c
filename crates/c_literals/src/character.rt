//! Character constants.

ghost use Rattle.std.specs.Prelude.{◌≡◌, IfOk};
ghost use Rattle.c_literals.specs.Literals.{character_constant, only_byte};

use crate::literal::unprefixed;
use crate::literal_end::LiteralEnd;
use crate::raw::Raw;
use asm_core::Memory;
use c_tokens::Token;
use std::alloc::Global;

/// The byte, if there is exactly one.
fn only_byte(raws: &[Raw]) -> Option<u8>
    ensures { result ≡ only_byte raws.now }
{
    match raws {
        [raw] => Some(raw.byte),
        _ => None,
    }
}

/// The byte that a character constant stands for (C11 6.4.4.4). `None` where it has a prefix, not exactly one character or
/// escape, an unknown escape, or one greater than 255. Whether the byte counts as negative is left to the caller.
pub fn character_constant(alloc: Global, text: &[u8], token: &Token) -> Result<Option<u8>, Memory>
    ensures { IfOk result (λ found. found ≡ character_constant text.now token.now) }
{
    match unprefixed(alloc, text, token, b'\'') {
        Ok(raws) => Ok(only_byte(&raws)),
        Err(LiteralEnd::Bad(_)) => Ok(None),
        Err(LiteralEnd::Memory) => Err(Memory),
    }
}
