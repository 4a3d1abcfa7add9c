//! What stands at an offset of a text.

ghost use Rattle.std.specs.Prelude.{◌≡◌, ℕ, ◌<◌, ◌≤◌, ◌+◌, Bool, true, length, slice_index, IfSome};
ghost use Rattle.c_tokens.specs.Bytes.{is_quote};
ghost use Rattle.c_tokens.specs.Items.{opens_line, opening_at, literal_at, word_at, piece_at, item_at, begins_number, EndsWithin};

use crate::bytes::{begins_name, byte_at, is_blank, is_digit, is_pair_at, is_quote, is_space};
use crate::ends::{comment_end, line_end, literal_end, name_end, number_end};
use crate::punctuator::punctuator_len;
use crate::token::TokenKind;

/// White space or a token, with the offset past it, or a fault.
#[derive(Clone, Copy)]
pub enum Item {
    White(usize),
    Piece(TokenKind, usize),
    OpenString,
    OpenComment,
    BadByte,
}

/// Whether only blanks and tabs stand before the offset in its line.
#[tactic(auto, using(crate::proofs::LineLemmas::opening_steps))]
fn opens_line(text: &[u8], i: usize) -> bool
    requires { i ≤ length text.now }
    ensures { result ≡ opens_line text.now i }
{
    let mut from = i;
    while from > 0 {
        if !is_blank(text[from - 1]) {
            return text[from - 1] == b'\n';
        }
        from -= 1;
    }
    true
}

/// The offset of the quote of the literal that begins at `i`, if one does.
#[tactic(auto, unfolding(crate::specs::Items::opening_at))]
fn opening_at(text: &[u8], i: usize) -> Option<usize>
    requires { i < length text.now }
    ensures is { result ≡ opening_at text.now i }
    ensures within { IfSome result (λ q. (i ≤ q) × (q < length text.now)) }
{
    let b = text[i];
    if is_quote(b) {
        return Some(i);
    }
    if matches!(b, b'L' | b'u' | b'U') && is_quote(byte_at(text, i + 1)) {
        return Some(i + 1);
    }
    if is_pair_at(text, i, b'u', b'8') && is_quote(byte_at(text, i + 2)) {
        return Some(i + 2);
    }
    None
}

#[tactic(auto, unfolding(crate::specs::Items::literal_at))]
fn literal_at(text: &[u8], at: usize) -> Item
    requires { at < length text.now }
    ensures is { result ≡ literal_at text.now at }
    ensures within { EndsWithin at (length text.now) result }
{
    let quote = text[at];
    match literal_end(text, quote, at + 1) {
        None => Item::OpenString,
        Some(end) => {
            if quote == b'"' {
                Item::Piece(TokenKind::Text, end)
            } else {
                Item::Piece(TokenKind::Char, end)
            }
        }
    }
}

fn begins_number(text: &[u8], i: usize) -> bool
    requires { i < length text.now }
    ensures { result ≡ begins_number text.now i }
{
    is_digit(text[i]) || (text[i] == b'.' && is_digit(byte_at(text, i + 1)))
}

#[tactic(auto, unfolding(crate::specs::Items::word_at))]
fn word_at(text: &[u8], i: usize) -> Item
    requires { i < length text.now }
    ensures is { result ≡ word_at text.now i }
    ensures within { EndsWithin i (length text.now) result }
{
    if begins_name(text[i]) {
        return Item::Piece(TokenKind::Name, name_end(text, i + 1));
    }
    if begins_number(text, i) {
        return Item::Piece(TokenKind::Number, number_end(text, i + 1));
    }
    let len = punctuator_len(text, i);
    if len == 0 {
        return Item::BadByte;
    }
    Item::Piece(TokenKind::Punct, i + len)
}

#[tactic(auto, unfolding(crate::specs::Items::piece_at))]
fn piece_at(text: &[u8], i: usize) -> Item
    requires { i < length text.now }
    ensures is { result ≡ piece_at text.now i }
    ensures within { EndsWithin i (length text.now) result }
{
    match opening_at(text, i) {
        Some(quote) => literal_at(text, quote),
        None => word_at(text, i),
    }
}

/// What stands at `i`.
#[tactic(auto, unfolding(crate::specs::Items::item_at))]
pub fn item_at(text: &[u8], i: usize) -> Item
    requires { i < length text.now }
    ensures is { result ≡ item_at text.now i }
    ensures within { EndsWithin i (length text.now) result }
{
    if is_space(text[i]) {
        return Item::White(i + 1);
    }
    if is_pair_at(text, i, b'\\', b'\n') {
        return Item::White(i + 2);
    }
    if is_pair_at(text, i, b'/', b'*') {
        return match comment_end(text, i + 2) {
            None => Item::OpenComment,
            Some(end) => Item::White(end),
        };
    }
    if is_pair_at(text, i, b'/', b'/') {
        return Item::White(line_end(text, i + 2));
    }
    if text[i] == b'#' && opens_line(text, i) {
        return Item::White(line_end(text, i + 1));
    }
    piece_at(text, i)
}
