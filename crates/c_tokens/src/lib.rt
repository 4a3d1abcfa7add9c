//! The tokens of a preprocessed C file (C11 6.4 in this project's profile), places in a text, and edits of it.
#![tactic(auto)]

mod brackets;
mod bytes;
mod closing;
mod edits;
mod ends;
mod item;
mod lexer;
mod line_starts;
mod lines;
mod punctuator;
mod token;
mod token_end;

pub use bytes::byte_at;
pub use closing::closers;
pub use edits::splice;
pub use lexer::tokens;
pub use line_starts::LineStarts;
pub use lines::line_col;
pub use token::{Token, TokenKind, Tokens};
pub use token_end::TokenEnd;
