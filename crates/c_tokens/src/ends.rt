//! Where a token, a comment or a line ends.

ghost use Rattle.std.specs.Prelude.{◌≡◌, ℕ, ◌+◌, ◌<◌, ◌≤◌, Bool, false, length, drop, IfSome};
ghost use Rattle.std.specs.List.{take_while};
ghost use Rattle.c_tokens.specs.Bytes.{continues_name};
ghost use Rattle.c_tokens.specs.Ends.{name_end, number_end, literal_end, comment_end, line_end};

use crate::bytes::{continues_name, continues_number, is_exponent, is_pair_at, is_sign};

/// How many bytes from the front on go on with a name.
fn name_len(bytes: &[u8]) -> usize
    ensures { result ≡ length (take_while continues_name bytes.now) }
{
    bytes.iter().take_while(|b| continues_name(**b)).count()
}

/// The end of the name whose next byte would be at `start`.
#[tactic(auto, using(crate::proofs::EndSteps::name_rules), unfolding(crate::specs::Ends::name_end))]
pub fn name_end(text: &[u8], start: usize) -> usize
    requires { start ≤ length text.now }
    ensures is { result ≡ name_end text.now start }
    ensures within { (start ≤ result) × (result ≤ length text.now) }
{
    start + name_len(&text[start..])
}

/// The end of the number whose next byte would be at `start`.
#[tactic(auto, using(crate::proofs::EndSteps::number_steps))]
pub fn number_end(text: &[u8], start: usize) -> usize
    requires { start ≤ length text.now }
    ensures is { result ≡ number_end false start (drop start text.now) }
    ensures within { (start ≤ result) × (result ≤ length text.now) }
{
    let mut exponent = false;
    let mut i = start;
    while i < text.len() {
        let b = text[i];
        if continues_number(b) || (exponent && is_sign(b)) {
            exponent = is_exponent(b);
            i += 1;
            continue;
        }
        return i;
    }
    i
}

/// The end of the literal with this quote whose next byte would be at `start`, past the quote that closes it.
#[tactic(auto, using(crate::proofs::EndSteps::literal_steps))]
pub fn literal_end(text: &[u8], quote: u8, start: usize) -> Option<usize>
    requires { start ≤ length text.now }
    ensures is { result ≡ literal_end quote false start (drop start text.now) }
    ensures within { IfSome result (λ e. (start < e) × (e ≤ length text.now)) }
{
    let mut taken = false;
    let mut i = start;
    while i < text.len() {
        let b = text[i];
        i += 1;
        if taken {
            taken = false;
            continue;
        }
        if b == quote {
            return Some(i);
        }
        if b == b'\\' {
            taken = true;
            continue;
        }
        if b == b'\n' {
            return None;
        }
    }
    None
}

/// The end of the comment whose next byte would be at `start`, past its `*/`.
#[tactic(auto, using(crate::proofs::EndSteps::comment_steps))]
pub fn comment_end(text: &[u8], start: usize) -> Option<usize>
    requires { start ≤ length text.now }
    ensures is { result ≡ comment_end start (drop start text.now) }
    ensures within { IfSome result (λ e. (start < e) × (e ≤ length text.now)) }
{
    let mut i = start;
    while i < text.len() {
        if is_pair_at(text, i, b'*', b'/') {
            return Some(i + 2);
        }
        i += 1;
    }
    None
}

/// The first newline from `start` on that no backslash stands directly before, or the text's end.
#[tactic(auto, using(crate::proofs::EndSteps::line_steps))]
pub fn line_end(text: &[u8], start: usize) -> usize
    requires { start ≤ length text.now }
    ensures is { result ≡ line_end false start (drop start text.now) }
    ensures within { (start ≤ result) × (result ≤ length text.now) }
{
    let mut spliced = false;
    let mut i = start;
    while i < text.len() {
        let b = text[i];
        if spliced || b != b'\n' {
            spliced = b == b'\\';
            i += 1;
            continue;
        }
        return i;
    }
    i
}
