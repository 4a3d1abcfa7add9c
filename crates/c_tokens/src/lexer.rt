//! From a text to its tokens.

ghost use Rattle.std.specs.Prelude.{◌≡◌, ℕ, ◌<◌, ◌≤◌, length, IfOk};
ghost use Rattle.c_tokens.specs.Cut.{Explains, ExplainsScan, HasOneAnswer, IsOrdered};
ghost use Rattle.c_tokens.specs.Tokens.{Gives, token, tokens_from, tokens_of};

use crate::brackets::unbalanced_at;
use crate::item::{Item, item_at};
use crate::token::{Token, TokenKind, Tokens};
use crate::token_end::TokenEnd;
use asm_core::{Items, Span};
use std::alloc::Global;

fn token(kind: TokenKind, from: usize, to: usize) -> Token
    requires { (from < 4294967296) × (to < 4294967296) }
    ensures { result ≡ token kind from to }
{
    Token {
        kind,
        span: Span {
            from: from as u32,
            to: to as u32,
        },
    }
}

/// The tokens of the text, brackets aside, in one pass.
#[tactic(auto, using(crate::proofs::ScanLemmas::scan_steps))]
fn scan(alloc: Global, text: &[u8]) -> Result<Items<Token>, TokenEnd>
    requires { length text.now < 4294967295 }
    ensures is { Gives (λ ts. ts) result (tokens_from text.now 0 0 text.now) }
    ensures explained { ExplainsScan text.now result }
{
    let mut list = Items::new(alloc);
    let mut i = 0;
    while i < text.len() {
        match item_at(text, i) {
            Item::White(end) => {
                i = end;
                continue;
            }
            Item::Piece(kind, end) => {
                list.push(token(kind, i, end))?;
                i = end;
                continue;
            }
            Item::OpenString => return Err(TokenEnd::OpenString(i as u32)),
            Item::OpenComment => return Err(TokenEnd::OpenComment(i as u32)),
            Item::BadByte => return Err(TokenEnd::BadByte(i as u32)),
        }
    }
    Ok(list)
}

/// The tokens of the text, or its first fault from the left. An unbalanced bracket is a fault only where there is no other.
#[tactic(auto, using(crate::proofs::OnceLemmas::explains_once), unfolding(crate::specs::Tokens::tokens_of))]
pub fn tokens(alloc: Global, text: &[u8]) -> Result<Tokens, TokenEnd>
    requires { length text.now < 4294967295 }
    // Exactly the definition's answer, unless memory runs out.
    ensures is { Gives (λ t. t.list) result (tokens_of text.now) }
    // The spans are in order, apart, not empty, and inside the text.
    ensures ordered { IfOk result (λ t. IsOrdered 0 t.list (length text.now)) }
    ensures few { IfOk result (λ t. length t.list ≤ length text.now) }
    // Each token is the longest of any kind there, and none begins where white space does; between them is only white
    // space, and brackets match. A fault is the first from the left, inside the text.
    ensures explained { Explains text.now result }
    // No other answer is explained so.
    ensures one { HasOneAnswer text.now }
{
    let list = scan(alloc, text)?;
    match unbalanced_at(alloc, text, list.as_slice())? {
        Some(offset) => Err(TokenEnd::Unbalanced(offset)),
        None => Ok(Tokens { list }),
    }
}
