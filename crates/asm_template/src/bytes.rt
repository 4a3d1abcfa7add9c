//! Classes of a template's bytes.

ghost use Rattle.std.specs.Prelude.{◌≡◌, ◌<◌, length, slice_index};
ghost use Rattle.asm_core.specs.TemplateForms.{continues_name, is_digit, is_letter, is_quotable};
ghost use Rattle.asm_core.specs.Pieces.{is_word};

/// The byte at `i`, or 0 past the end. 0 is in no form.
pub fn byte_at(bytes: &[u8], i: usize) -> u8
    ensures value { result ≡ slice_index bytes.now i }
    ensures inside { 0 < result → i < length bytes.now }
{
    if i < bytes.len() { bytes[i] } else { 0 }
}

pub fn is_digit(b: u8) -> bool
    ensures { result ≡ is_digit b }
{
    matches!(b, b'0'..=b'9')
}

fn is_letter(b: u8) -> bool
    ensures { result ≡ is_letter b }
{
    matches!(b, b'A'..=b'Z' | b'a'..=b'z')
}

/// Whether a C name may go on with the byte.
pub fn continues_name(b: u8) -> bool
    ensures { result ≡ continues_name b }
{
    is_letter(b) || is_digit(b) || b == b'_' || b == b'$' || b >= 128
}

/// Whether the byte is a letter, a digit or `_`.
pub fn is_word(b: u8) -> bool
    ensures { result ≡ is_word b }
{
    is_letter(b) || is_digit(b) || b == b'_'
}

/// Whether a `%` makes the byte a plain one.
pub fn is_quotable(b: u8) -> bool
    ensures { result ≡ is_quotable b }
{
    matches!(b, b'%' | b'{' | b'|' | b'}')
}
