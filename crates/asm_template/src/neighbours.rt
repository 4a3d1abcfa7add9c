//! What may stand beside an operand, and around `%=`.

ghost use Rattle.std.specs.Prelude.{◌≡◌, ◌<◌, ◌≤◌, ◌+◌, length, drop, take};
ghost use Rattle.std.specs.List.{suffix_len};
ghost use Rattle.asm_core.specs.Pieces.{ends_label, ends_name, is_bare, is_word, may_begin_name, may_follow, may_precede, may_stand};

use crate::bytes::{byte_at, is_digit, is_word};
use asm_core::{Modifier, TemplateForm};

/// Whether an operand with the modifier is a number without `$`.
fn is_bare(modifier: Modifier) -> bool
    ensures { result ≡ is_bare modifier }
{
    matches!(modifier, Modifier::C)
}

/// Whether an operand may stand behind these.
fn may_precede(modifier: Modifier, before: &[u8]) -> bool
    ensures { result ≡ may_precede modifier before.now }
{
    if before.is_empty() {
        return true;
    }
    match before[before.len() - 1] {
        b' ' | b'\t' | b'\n' | b';' | b':' | b',' | b'(' => true,
        b'$' => is_bare(modifier),
        _ => false,
    }
}

/// Whether these may stand behind an operand.
fn may_follow(modifier: Modifier, after: &[u8]) -> bool
    ensures { result ≡ may_follow modifier after.now }
{
    if after.is_empty() {
        return true;
    }
    match after[0] {
        b' ' | b'\t' | b'\n' | b';' | b',' | b')' | b'#' => true,
        b'(' => is_bare(modifier),
        _ => false,
    }
}

/// Whether a name may begin behind these.
fn may_begin_name(before: &[u8]) -> bool
    ensures { result ≡ may_begin_name before.now }
{
    before.is_empty() || matches!(before[before.len() - 1], b' ' | b'\t' | b'\n' | b';' | b':')
}

/// How many letters, digits and `_` stand at the end.
#[tactic(auto, using(crate::proofs::LabelLemmas::word_bounds))]
fn word_len(before: &[u8]) -> usize
    ensures is { result ≡ suffix_len is_word before.now }
    ensures within { result ≤ length before.now }
{
    before.iter().rev().take_while(|c| is_word(**c)).count()
}

/// Whether these end in a name `.L`, letters, digits and `_`, the last no digit.
fn ends_label(before: &[u8]) -> bool
    ensures { result ≡ ends_label before.now }
{
    let word = before.len() - word_len(before);
    byte_at(before, word) == b'L'
        && !is_digit(byte_at(before, before.len() - 1))
        && word > 0
        && before[word - 1] == b'.'
        && may_begin_name(&before[..word - 1])
}

/// Whether no part of a name stands first; 0 is an operand's code, 1 that of `%=`.
fn ends_name(after: &[u8]) -> bool
    ensures { result ≡ ends_name after.now }
{
    after.is_empty() || !(is_word(after[0]) || matches!(after[0], b'.' | b'$' | 0 | 1))
}

/// Whether the form at `k` may stand there, inside a comment or not.
pub fn may_stand(inside: bool, codes: &[u8], k: usize, form: TemplateForm) -> bool
    requires { k < length codes.now }
    ensures { result ≡ may_stand inside (take k codes.now) form (drop (k + 1) codes.now) }
{
    let before = &codes[..k];
    let after = &codes[k + 1..];
    match form {
        TemplateForm::Byte(_, _) => true,
        TemplateForm::Hole(_, modifier, _) => {
            inside || (may_precede(modifier, before) && may_follow(modifier, after))
        }
        TemplateForm::Unique(_) => inside || (ends_label(before) && ends_name(after)),
        TemplateForm::Outside(_) => false,
    }
}
