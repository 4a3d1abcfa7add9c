//! The words of a statement: labels, prefixes and names.

ghost use Rattle.std.specs.Prelude.{◌≡◌, ◌≤◌, drop, length};
ghost use Rattle.std.specs.List.{list_all};
ghost use Rattle.asm_core.specs.Reading.Cut.{is_digit, is_label, is_number_label, is_part, is_unique_label, is_word, prefix_named, word_len};

use crate::code::{code_at, is_digit, is_word};
use asm_core::Prefix;

/// The code of `%=`.
const UNIQUE: u8 = 1;

/// Whether it is part of a label, of a prefix or of a name: a letter, a digit, `_`, `.`, or `%=`.
fn is_part(code: u8) -> bool
    ensures { result ≡ is_part code }
{
    is_word(code) || code == b'.' || code == UNIQUE
}

/// How many codes the word at the beginning has.
pub fn word_len(codes: &[u8]) -> usize
    ensures is { result ≡ word_len codes.now }
    ensures within { result ≤ length codes.now }
{
    codes.iter().take_while(|code| is_part(**code)).count()
}

fn all_digits(codes: &[u8]) -> bool
    ensures { result ≡ list_all is_digit codes.now }
{
    codes.iter().all(|code| is_digit(*code))
}

fn all_words(codes: &[u8]) -> bool
    ensures { result ≡ list_all is_word codes.now }
{
    codes.iter().all(|code| is_word(*code))
}

/// Whether it is 1 to 4 digits.
pub fn is_number_label(word: &[u8]) -> bool
    ensures { result ≡ is_number_label word.now }
{
    !word.is_empty() && word.len() <= 4 && all_digits(word)
}

/// What stands behind the first two codes.
fn behind_two(word: &[u8]) -> &[u8]
    ensures { result.now ≡ drop 2 word.now }
{
    match word {
        [_, _, behind @ ..] => behind,
        _ => &[],
    }
}

/// Whether it is `.L`, letters, digits and `_` of which the last is no digit, and `%=`.
pub fn is_unique_label(word: &[u8]) -> bool
    ensures { result ≡ is_unique_label word.now }
{
    let end = word.len().saturating_sub(1);
    code_at(word, 0) == b'.'
        && code_at(word, 1) == b'L'
        && code_at(word, end) == UNIQUE
        && all_words(behind_two(&word[..end]))
        && !is_digit(code_at(word, end.saturating_sub(1)))
}

/// Whether a label may have that name.
pub fn is_label(word: &[u8]) -> bool
    ensures { result ≡ is_label word.now }
{
    is_number_label(word) || is_unique_label(word)
}

/// The prefix of that name.
pub fn prefix_named(word: &[u8]) -> Option<Prefix>
    ensures { result ≡ prefix_named word.now }
{
    match word {
        b"lock" => Some(Prefix::Lock),
        b"rep" => Some(Prefix::Rep),
        b"repe" | b"repz" => Some(Prefix::Repe),
        b"repne" | b"repnz" => Some(Prefix::Repne),
        _ => None,
    }
}
