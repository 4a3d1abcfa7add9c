//! Tokens that the compiler cuts otherwise.

ghost use Rattle.std.specs.Prelude.{◌≡◌};
ghost use Rattle.asm_statement.specs.Foreign.{begins_digraph, is_digraph, is_foreign, is_foreign_name, is_raw_prefix};

use crate::class::is;
use crate::source::bytes_of;
use c_tokens::{Token, TokenKind, byte_at};

/// Whether the two bytes are a digraph.
fn is_digraph(b: u8, c: u8) -> bool
    ensures { result ≡ is_digraph b c }
{
    match b {
        b'<' => c == b'%' || c == b':',
        b'%' => c == b'>' || c == b':',
        b':' => c == b'>',
        _ => false,
    }
}

/// Whether a digraph begins with the token.
pub fn begins_digraph(text: &[u8], token: &Token) -> bool
    ensures { result ≡ begins_digraph text.now token.now }
{
    let from = token.span.from as usize;
    match token.kind {
        TokenKind::Punct => is_digraph(byte_at(text, from), byte_at(text, from + 1)),
        _ => false,
    }
}

/// Whether the name may stand before the quote of a raw string.
fn is_raw_prefix(name: &[u8]) -> bool
    ensures { result ≡ is_raw_prefix name.now }
{
    is(name, b"R") || is(name, b"LR") || is(name, b"uR") || is(name, b"UR") || is(name, b"u8R")
}

/// Whether the compiler takes the name for more, or for less, `next` being the byte behind it.
fn is_foreign_name(name: &[u8], next: u8) -> bool
    ensures { result ≡ is_foreign_name name.now next }
{
    is(name, b"_Pragma") || (is_raw_prefix(name) && next == b'"')
}

/// Whether the compiler cuts otherwise what stands at the token.
pub fn is_foreign(text: &[u8], token: &Token) -> bool
    ensures { result ≡ is_foreign text.now token.now }
{
    let next = byte_at(text, token.span.to as usize);
    match token.kind {
        TokenKind::Name => is_foreign_name(bytes_of(text, token), next),
        TokenKind::Number => next == b'\'',
        TokenKind::Punct => begins_digraph(text, token),
        TokenKind::Text | TokenKind::Char => false,
    }
}
