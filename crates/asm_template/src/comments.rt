//! Comments in a template.

ghost use Rattle.std.specs.Prelude.{◌≡◌, ℕ, ◌≤◌, ◌<◌, ◌+◌, None, IsTrue, IfOk, IfSome, drop, length, slice_index};
ghost use Rattle.asm_core.specs.Comments.{block_end, closes_block, comment_breaks, comment_end, comment_until, comments_of, is_one_of, line_end, opens_block};

use crate::bytes::byte_at;
use std::alloc::{AllocError, Global};

/// Whether `/*` may begin a comment behind the byte.
fn is_comment_break(b: u8) -> bool
    ensures { result ≡ is_one_of comment_breaks b }
{
    matches!(b, b' ' | b'\t' | b'\n' | b';' | b':' | b',')
}

/// Whether a `/*` at `i` may begin a comment.
fn opens_block(codes: &[u8], i: usize) -> bool
    requires { i < length codes.now }
    ensures { result ≡ opens_block codes.now i }
{
    codes[i] == b'/' && byte_at(codes, i + 1) == b'*' && (i == 0 || is_comment_break(codes[i - 1]))
}

/// Whether a `*/` stands at `i`.
fn closes_block(codes: &[u8], i: usize) -> bool
    requires { i < length codes.now }
    ensures is { result ≡ closes_block codes.now i }
    ensures within { IsTrue result → i + 1 < length codes.now }
{
    codes[i] == b'*' && byte_at(codes, i + 1) == b'/'
}

/// The index of the next newline from `start` on, or the end.
#[tactic(auto, using(crate::proofs::CommentLemmas::line_steps))]
fn line_end(codes: &[u8], start: usize) -> usize
    requires { start ≤ length codes.now }
    ensures is { result ≡ line_end start (drop start codes.now) }
    ensures within { (start ≤ result) × (result ≤ length codes.now) }
{
    let mut i = start;
    while i < codes.len() {
        if codes[i] == b'\n' {
            return i;
        }
        i += 1;
    }
    i
}

/// The index behind the next `*/` from `start` on.
#[tactic(auto, using(crate::proofs::CommentLemmas::block_steps))]
fn block_end(codes: &[u8], start: usize) -> Option<usize>
    requires { start ≤ length codes.now }
    ensures is { result ≡ block_end start (drop start codes.now) }
    ensures within { IfSome result (λ e. (start < e) × (e ≤ length codes.now)) }
{
    let mut i = start;
    while i < codes.len() {
        if closes_block(codes, i) {
            return Some(i + 2);
        }
        i += 1;
    }
    None
}

/// The index behind the last `*/`, or 0. No `*/` stands behind it, so none is looked for there.
#[tactic(auto, using(crate::proofs::CommentLemmas::last_steps))]
fn last_block_end(codes: &[u8]) -> usize
    ensures { (k : ℕ) → result ≤ k + 1 → block_end k (drop k codes.now) ≡ None }
{
    let mut end = codes.len();
    while end >= 2 {
        if closes_block(codes, end - 2) {
            return end;
        }
        end -= 1;
    }
    0
}

/// The index behind the comment that begins at `i`; the last `*/` ends at `last`.
#[tactic(auto, unfolding(asm_core::specs::Comments::comment_end))]
fn comment_end(codes: &[u8], i: usize, last: usize) -> Option<usize>
    requires within { i < length codes.now }
    requires last { (k : ℕ) → last ≤ k + 1 → block_end k (drop k codes.now) ≡ None }
    ensures is { result ≡ comment_end codes.now i }
    ensures within { IfSome result (λ e. (i < e) × (e ≤ length codes.now)) }
{
    if codes[i] == b'#' {
        return Some(line_end(codes, i + 1));
    }
    if i + 2 < last && opens_block(codes, i) {
        return block_end(codes, i + 2);
    }
    None
}

/// The index behind the comment in which the byte at `i` stands, where it stands in one; the one before ends at `until`.
#[tactic(auto, unfolding(asm_core::specs::Comments::comment_until))]
fn comment_until(codes: &[u8], until: usize, i: usize, last: usize) -> usize
    requires within { i < length codes.now }
    requires last { (k : ℕ) → last ≤ k + 1 → block_end k (drop k codes.now) ≡ None }
    ensures { result ≡ comment_until codes.now until i }
{
    if i < until {
        return until;
    }
    comment_end(codes, i, last).unwrap_or(until)
}

/// Whether each byte stands in a comment.
#[tactic(auto, using(crate::proofs::CommentLemmas::comment_steps))]
pub fn comments(alloc: Global, codes: &[u8]) -> Result<Vec<bool>, AllocError>
    ensures { IfOk result (λ marks. marks.items ≡ comments_of codes.now) }
{
    let last = last_block_end(codes);
    let mut marks = Vec::new(alloc);
    let mut until = 0;
    for i in 0..codes.len() {
        until = comment_until(codes, until, i, last);
        marks.push(i < until)?;
    }
    Ok(marks)
}
