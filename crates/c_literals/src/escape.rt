//! Escapes, and bytes that stand as themselves.

ghost use Rattle.std.specs.Prelude.{◌≡◌, ℕ, ◌+◌, ◌*◌, ◌<◌, ◌≤◌, length, drop, slice_range, IfSome};
ghost use Rattle.c_literals.specs.Escapes.{simple_escape, digits_end, numbered, escape_at, read_at};

use crate::base::Base;
use crate::number::{digit_count, number};
use crate::plain::Plain;
use c_tokens::byte_at;

/// A byte that was read, and the index behind its source.
#[derive(Clone, Copy)]
pub struct Read {
    pub byte: u8,
    pub end: usize,
}

/// The byte of an escape of one letter or mark.
#[tactic(auto, unfolding(crate::specs::Escapes::simple_escape))]
fn simple_escape(b: u8) -> Option<u8>
    ensures is { result ≡ simple_escape b }
    ensures there { IfSome result (λ _. 0 < b) }
{
    match b {
        b'\'' | b'"' | b'?' | b'\\' => Some(b),
        b'a' => Some(7),
        b'b' => Some(8),
        b'e' => Some(27),
        b'f' => Some(12),
        b'n' => Some(b'\n'),
        b'r' => Some(b'\r'),
        b't' => Some(b'\t'),
        b'v' => Some(11),
        _ => None,
    }
}

/// The end of the digits from `start` on.
#[tactic(auto, using(crate::proofs::EscapeLemmas::digit_steps))]
fn digits_end(bytes: &[u8], base: Base, start: usize) -> usize
    requires { start ≤ length bytes.now }
    ensures is { result ≡ digits_end base bytes.now start }
    ensures within { (start ≤ result) × (result ≤ length bytes.now) }
{
    start + digit_count(&bytes[start..], base)
}

/// The byte of the digits from one index up to another.
#[tactic(auto, using(crate::proofs::EscapeLemmas::numbered_steps))]
fn numbered(bytes: &[u8], base: Base, from: usize, end: usize) -> Option<Read>
    requires { (from ≤ end) × (end ≤ length bytes.now) }
    ensures is { result ≡ numbered bytes.now base from end }
    ensures within { IfSome result (λ x. (from < x.end) × (x.end ≤ length bytes.now)) }
{
    if from == end {
        return None;
    }
    let value = number(&bytes[from..end], base)?;
    if value > 255 {
        return None;
    }
    Some(Read {
        byte: value as u8,
        end,
    })
}

/// The escape that stands behind a backslash.
#[tactic(auto, unfolding(crate::specs::Escapes::escape_at))]
fn escape_at(bytes: &[u8], i: usize) -> Option<Read>
    requires { i ≤ length bytes.now }
    ensures is { result ≡ escape_at bytes.now i }
    ensures within { IfSome result (λ x. (i < x.end) × (x.end ≤ length bytes.now)) }
{
    let b = byte_at(bytes, i);
    if Base::Octal.has_digit(b) {
        let end = digits_end(bytes, Base::Octal, i).min(i + 3);
        return numbered(bytes, Base::Octal, i, end);
    }
    if b == b'x' {
        let end = digits_end(bytes, Base::Hexadecimal, i + 1);
        return numbered(bytes, Base::Hexadecimal, i + 1, end);
    }
    match simple_escape(b) {
        Some(byte) => Some(Read { byte, end: i + 1 }),
        None => None,
    }
}

/// The byte at an index, as itself or by an escape.
#[tactic(auto, unfolding(crate::specs::Escapes::read_at))]
pub fn read_at(bytes: &[u8], plain: Plain, i: usize) -> Option<Read>
    requires { i < length bytes.now }
    ensures is { result ≡ read_at plain bytes.now i }
    ensures within { IfSome result (λ x. (i < x.end) × (x.end ≤ length bytes.now)) }
{
    let byte = byte_at(bytes, i);
    if byte == b'\\' {
        return escape_at(bytes, i + 1);
    }
    if plain.has(byte) {
        return Some(Read { byte, end: i + 1 });
    }
    None
}
