//! The punctuators.

ghost use Rattle.std.specs.Prelude.{◌≡◌, ℕ, ◌+◌, ◌<◌, ◌≤◌, [], ◌∷◌, length, drop};
ghost use Rattle.c_tokens.specs.Puncts.{threes, twos, ones, one_of, punctuator_len};

use crate::bytes::byte_at;

fn is_of_three(b: u8, c: u8, d: u8) -> bool
    ensures { result ≡ one_of threes (b ∷ c ∷ d ∷ []) }
{
    matches!(
        (b, c, d),
        (b'.', b'.', b'.') | (b'<', b'<', b'=') | (b'>', b'>', b'=')
    )
}

fn is_of_two(b: u8, c: u8, d: u8) -> bool
    ensures { result ≡ one_of twos (b ∷ c ∷ d ∷ []) }
{
    match b {
        b'#' => c == b'#',
        b'&' => c == b'&' || c == b'=',
        b'|' => c == b'|' || c == b'=',
        b'+' => c == b'+' || c == b'=',
        b'-' => c == b'>' || c == b'-' || c == b'=',
        b'<' => c == b'<' || c == b'=',
        b'>' => c == b'>' || c == b'=',
        b'=' | b'!' | b'*' | b'/' | b'%' | b'^' => c == b'=',
        _ => false,
    }
}

fn is_of_one(b: u8, c: u8, d: u8) -> bool
    ensures { result ≡ one_of ones (b ∷ c ∷ d ∷ []) }
{
    matches!(
        b,
        b'[' | b']'
            | b'('
            | b')'
            | b'{'
            | b'}'
            | b'.'
            | b'&'
            | b'*'
            | b'+'
            | b'-'
            | b'~'
            | b'!'
            | b'/'
            | b'%'
            | b'<'
            | b'>'
            | b'^'
            | b'|'
            | b'?'
            | b':'
            | b';'
            | b'='
            | b','
            | b'#'
    )
}

#[tactic(auto, unfolding(crate::specs::Puncts::punctuator_len))]
fn len_of(b: u8, c: u8, d: u8) -> usize
    ensures { result ≡ punctuator_len (b ∷ c ∷ d ∷ []) }
{
    if is_of_three(b, c, d) {
        3
    } else if is_of_two(b, c, d) {
        2
    } else if is_of_one(b, c, d) {
        1
    } else {
        0
    }
}

/// The length of the longest punctuator at `i`, or 0.
#[tactic(auto, using(crate::proofs::PunctLemmas::punctuator_rules))]
pub fn punctuator_len(text: &[u8], i: usize) -> usize
    requires { i < length text.now }
    ensures is { result ≡ punctuator_len (drop i text.now) }
    ensures within { i + result ≤ length text.now }
{
    len_of(text[i], byte_at(text, i + 1), byte_at(text, i + 2))
}
