//! Brackets among the tokens.

ghost use Rattle.std.specs.Prelude.{◌≡◌, ℕ, [], IfOk};
ghost use Rattle.c_tokens.specs.Brackets.{mark_of, opens, closes, partner_of, closes_last, unbalanced_at};

use crate::bytes::byte_at;
use crate::token::{Token, TokenKind};
use std::alloc::{AllocError, Global};

/// The byte of a punctuator where it begins, and 0 for another token.
pub fn mark_of(text: &[u8], token: &Token) -> u8
    ensures { result ≡ mark_of text.now token.now }
{
    match token.kind {
        TokenKind::Punct => byte_at(text, token.span.from as usize),
        TokenKind::Name | TokenKind::Number | TokenKind::Char | TokenKind::Text => 0,
    }
}

pub fn opens(b: u8) -> bool
    ensures { result ≡ opens b }
{
    matches!(b, b'(' | b'[' | b'{')
}

pub fn closes(b: u8) -> bool
    ensures { result ≡ closes b }
{
    matches!(b, b')' | b']' | b'}')
}

/// The bracket that opens what this one closes.
fn partner_of(b: u8) -> u8
    ensures { result ≡ partner_of b }
{
    match b {
        b')' => b'(',
        b']' => b'[',
        b'}' => b'{',
        _ => 0,
    }
}

/// Whether the bracket closes the innermost one that is open.
fn closes_last(text: &[u8], opened: &[u32], b: u8) -> bool
    ensures { result ≡ closes_last text.now opened.now b }
{
    match opened.last() {
        Some(o) => byte_at(text, *o as usize) == partner_of(b),
        None => false,
    }
}

/// The offset of the first bracket that is unbalanced, if one is.
#[tactic(auto, using(crate::proofs::BracketLemmas::bracket_steps))]
pub fn unbalanced_at(
    alloc: Global,
    text: &[u8],
    tokens: &[Token],
) -> Result<Option<u32>, AllocError>
    ensures { IfOk result (λ o. o ≡ unbalanced_at text.now [] tokens.now) }
{
    let mut opened = Vec::new(alloc);
    for token in tokens {
        let b = mark_of(text, token);
        if opens(b) {
            opened.push(token.span.from)?;
            continue;
        }
        if closes(b) {
            if !closes_last(text, &opened, b) {
                return Ok(Some(token.span.from));
            }
            opened.pop();
            continue;
        }
    }
    Ok(opened.first().copied())
}
