//! What the tokens of a text are.

ghost use Rattle.std.specs.Prelude.{◌≡◌, map, slice_range, IfOk};
ghost use Rattle.c_words.specs.Words.{text_word, word_of};

use crate::Word;
use crate::spelling::{name_word, punct_of};
use c_tokens::{Token, TokenKind};
use std::alloc::{AllocError, Global};

/// The bytes of the text between two offsets.
fn between(text: &[u8], from: usize, to: usize) -> &[u8]
    ensures { result.now ≡ slice_range text.now from to }
{
    let to = to.min(text.len());
    let from = from.min(to);
    &text[from..to]
}

/// The bytes of a token.
pub fn bytes_of<'a>(text: &'a [u8], token: &Token) -> &'a [u8]
    ensures { result.now ≡ slice_range text.now token.now.span.from token.now.span.to }
{
    between(text, token.span.from as usize, token.span.to as usize)
}

/// What a string literal with these bytes is.
fn text_word(literal: &[u8]) -> Word
    ensures { result ≡ text_word literal.now }
{
    match literal {
        [b'"', ..] => Word::Text,
        _ => Word::PrefixedText,
    }
}

/// What a token of the text is to the grammar.
fn word_of(text: &[u8], token: &Token) -> Word
    ensures { result ≡ word_of text.now token.now }
{
    let bytes = bytes_of(text, token);
    match token.kind {
        TokenKind::Name => name_word(bytes),
        TokenKind::Number => Word::Number,
        TokenKind::Char => Word::Char,
        TokenKind::Text => text_word(bytes),
        TokenKind::Punct => Word::Punct(punct_of(bytes)),
    }
}

/// What each token of the text is, in their order.
pub fn words_of(alloc: Global, text: &[u8], tokens: &[Token]) -> Result<Vec<Word>, AllocError>
    ensures { IfOk result (λ words. words.items ≡ map (word_of text.now) tokens.now) }
{
    tokens
        .iter()
        .map(|token| word_of(text, token))
        .collect(alloc)
}
