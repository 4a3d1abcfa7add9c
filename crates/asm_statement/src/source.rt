//! The tokens of a text by their index.

ghost use Rattle.std.specs.Prelude.{◌≡◌, ℕ, ◌<◌, ◌-◌, ◌≤◌, ◌≢◌, length, slice_index, slice_range, IfSome};
ghost use Rattle.c_tokens.specs.Closers.{AreClosers, closer_at};
ghost use Rattle.asm_statement.specs.declared.class.Class.TheVariants.{Missing};
ghost use Rattle.asm_statement.specs.Source.{class_of, class_at, start_at, end_at, span_of};

use crate::class::{Class, literal_class, mark_class, name_class};
use asm_core::Span;
use c_tokens::{Token, TokenKind, byte_at};

/// The bytes of the text between two offsets.
fn between(text: &[u8], from: usize, to: usize) -> &[u8]
    ensures { result.now ≡ slice_range text.now from to }
{
    let to = to.min(text.len());
    let from = from.min(to);
    &text[from..to]
}

/// The bytes of a token.
pub fn bytes_of<'a>(text: &'a [u8], token: &Token) -> &'a [u8]
    ensures { result.now ≡ slice_range text.now token.now.span.from token.now.span.to }
{
    between(text, token.span.from as usize, token.span.to as usize)
}

/// What the token is to the grammar of asm statements.
pub fn class_of(text: &[u8], token: &Token) -> Class
    ensures { result ≡ class_of text.now token.now }
{
    let from = token.span.from as usize;
    match token.kind {
        TokenKind::Name => name_class(bytes_of(text, token)),
        TokenKind::Text => literal_class(byte_at(text, from)),
        TokenKind::Punct => mark_class(byte_at(text, from)),
        TokenKind::Number | TokenKind::Char => Class::Other,
    }
}

/// A text, its tokens, and for each opening bracket among them the index of the token that closes it.
#[derive(Drop)]
pub struct Source<'a> {
    pub text: &'a [u8],
    pub tokens: &'a [Token],
    pub closers: &'a [Option<u32>],
    ghost closing: { AreClosers text.now tokens.now closers.now },
}

impl<'a> Source<'a> {
    /// The class of the token with this index.
    pub fn class_at(&self, i: usize) -> Class
        ensures is { result ≡ class_at self.now.text.now self.now.tokens.now i }
        ensures inside { result ≢ Missing → i < length self.now.tokens.now }
    {
        match self.tokens.get(i) {
            Some(token) => class_of(self.text, token),
            None => Class::Missing,
        }
    }

    /// The offset at which the token with this index begins.
    pub fn start_at(&self, i: usize) -> u32
        ensures { result ≡ start_at self.now.tokens.now i }
    {
        match self.tokens.get(i) {
            Some(token) => token.span.from,
            None => 0,
        }
    }

    /// The offset past the token with this index.
    pub fn end_at(&self, i: usize) -> u32
        ensures { result ≡ end_at self.now.tokens.now i }
    {
        match self.tokens.get(i) {
            Some(token) => token.span.to,
            None => 0,
        }
    }

    /// From the first token's first byte to past the last token.
    pub fn span_of(&self, first: usize, last: usize) -> Span
        ensures { result ≡ span_of self.now.tokens.now first last }
    {
        Span {
            from: self.start_at(first),
            to: self.end_at(last),
        }
    }

    /// The index of the token that closes the bracket with this index.
    pub fn closer_at(&self, i: usize) -> Option<usize>
        ensures is { result ≡ closer_at self.now.text.now self.now.tokens.now i }
        ensures within { IfSome result (λ c. c < 4294967296) }
    {
        match self.closers.get(i) {
            Some(Some(closer)) => Some(*closer as usize),
            _ => None,
        }
    }
}
