//! Codes of a template's elements: bytes, 1 for `%=`, and 0 for an operand.

ghost use Rattle.std.specs.Prelude.{◌≡◌, slice_index};
ghost use Rattle.asm_core.specs.Reading.Cut.{is_blank, is_digit, is_word};

/// The code at `i`, or 0 past the end.
pub fn code_at(codes: &[u8], i: usize) -> u8
    ensures { result ≡ slice_index codes.now i }
{
    if i < codes.len() { codes[i] } else { 0 }
}

/// Whether it is a blank or a tab.
pub fn is_blank(code: u8) -> bool
    ensures { result ≡ is_blank code }
{
    code == b' ' || code == b'\t'
}

pub fn is_digit(code: u8) -> bool
    ensures { result ≡ is_digit code }
{
    matches!(code, b'0'..=b'9')
}

/// Whether it is a letter, a digit or `_`.
pub fn is_word(code: u8) -> bool
    ensures { result ≡ is_word code }
{
    is_digit(code) || matches!(code, b'a'..=b'z') || matches!(code, b'A'..=b'Z') || code == b'_'
}
