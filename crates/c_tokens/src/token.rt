//! Tokens.

use asm_core::{Items, Span};

/// What a token is.
#[derive(Clone, Copy, Debug, PartialEq, Eq)]
pub enum TokenKind {
    /// An identifier or a keyword (C11 6.4.1, 6.4.2).
    Name,
    /// A preprocessing number (C11 6.4.8).
    Number,
    /// A character constant, with its prefix (C11 6.4.4.4).
    Char,
    /// A string literal, with its prefix (C11 6.4.5).
    Text,
    /// A punctuator (C11 6.4.6).
    Punct,
}

/// A token: its kind, and where its bytes stand in the text.
#[derive(Clone, Copy, Debug, PartialEq, Eq)]
pub struct Token {
    pub kind: TokenKind,
    pub span: Span,
}

/// The tokens of a text, from left to right.
#[derive(Debug, Drop)]
pub struct Tokens {
    pub list: Items<Token>,
}
