//! The classes of bytes that the grammar of tokens speaks of.

ghost use Rattle.std.specs.Prelude.{◌≡◌, ◌<◌, ◌+◌, ℕ, length, slice_index, IsTrue};
ghost use Rattle.c_tokens.specs.Bytes.{is_pair_at, is_space, is_blank, is_digit, is_letter, begins_name, continues_name, continues_number, is_exponent, is_sign, is_quote};

/// The byte at `i`, or 0 past the end of the text. 0 begins and continues nothing.
pub fn byte_at(text: &[u8], i: usize) -> u8
    ensures value { result ≡ slice_index text.now i }
    ensures inside { 0 < result → i < length text.now }
{
    if i < text.len() { text[i] } else { 0 }
}

/// Whether the two bytes stand at `i`, one after the other.
pub fn is_pair_at(text: &[u8], i: usize, first: u8, second: u8) -> bool
    requires { (i < length text.now) × (0 < second) }
    ensures is { result ≡ is_pair_at text.now i first second }
    ensures inside { IsTrue result → i + 1 < length text.now }
{
    text[i] == first && byte_at(text, i + 1) == second
}

pub fn is_space(b: u8) -> bool
    ensures { result ≡ is_space b }
{
    matches!(b, b' ' | b'\t'..=b'\r')
}

pub fn is_blank(b: u8) -> bool
    ensures { result ≡ is_blank b }
{
    matches!(b, b' ' | b'\t')
}

pub fn is_digit(b: u8) -> bool
    ensures { result ≡ is_digit b }
{
    matches!(b, b'0'..=b'9')
}

fn is_letter(b: u8) -> bool
    ensures { result ≡ is_letter b }
{
    matches!(b, b'A'..=b'Z' | b'a'..=b'z')
}

pub fn begins_name(b: u8) -> bool
    ensures { result ≡ begins_name b }
{
    is_letter(b) || b == b'_' || b == b'$' || b >= 128
}

pub fn continues_name(b: u8) -> bool
    ensures { result ≡ continues_name b }
{
    begins_name(b) || is_digit(b)
}

pub fn continues_number(b: u8) -> bool
    ensures { result ≡ continues_number b }
{
    is_letter(b) || is_digit(b) || b == b'_' || b == b'.'
}

pub fn is_exponent(b: u8) -> bool
    ensures { result ≡ is_exponent b }
{
    matches!(b, b'e' | b'E' | b'p' | b'P')
}

pub fn is_sign(b: u8) -> bool
    ensures { result ≡ is_sign b }
{
    matches!(b, b'+' | b'-')
}

pub fn is_quote(b: u8) -> bool
    ensures { result ≡ is_quote b }
{
    matches!(b, b'"' | b'\'')
}
