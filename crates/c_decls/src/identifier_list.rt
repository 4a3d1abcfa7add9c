//! Lists of identifiers, and the bodies of functions that have one (C11 6.9.1, 6).

ghost use Rattle.std.specs.Prelude.{◌≡◌, ◌<◌, ◌≤◌, length, IfSome};
ghost use Rattle.c_decls.specs.Recovery.{body_behind, has_list, holds_names, is_identifier_list, last_name};

use crate::ends::{Stop, level_end};
use c_reader::marks::{
    is_close_paren, is_comma, is_name, is_open_brace, is_open_paren, is_semicolon,
};
use c_words::Source;

/// The index of the last of the names from the index on, with commas between them.
#[tactic(auto, using(crate::proofs::RecoveryLemmas::name_steps))]
fn last_name(source: &Source<'_>, first: usize) -> usize
    ensures is { result ≡ last_name source.now first }
    ensures few { first < 4294967296 → result < 4294967298 }
{
    let mut i = first;
    while i < source.len() {
        if !is_name(source.word(i)) {
            return i;
        }
        if !is_comma(source.word(i + 1)) {
            return i;
        }
        i += 2;
    }
    i
}

/// Whether names alone stand in the parenthesis at the index.
fn holds_names(source: &Source<'_>, paren: usize) -> bool
    requires inside { paren < length source.now.tokens }
    requires few { length source.now.tokens < 4294967296 }
    ensures { result ≡ holds_names source.now paren }
{
    let last = last_name(source, paren + 1);
    is_name(source.word(last)) && is_close_paren(source.word(last + 1))
}

/// Whether a list of identifiers opens at the index, behind a declarator.
fn is_identifier_list(source: &Source<'_>, i: usize) -> bool
    requires { i < length source.now.tokens }
    ensures { result ≡ is_identifier_list source.now i }
{
    let before = source.word(i.saturating_sub(1));
    is_open_paren(source.word(i))
        && (is_name(before) || is_close_paren(before))
        && holds_names(source, i)
}

/// Whether the group at the index is or has such a list.
#[tactic(auto, using(crate::proofs::RecoveryLemmas::list_steps))]
pub fn has_list(source: &Source<'_>, first: usize) -> bool
    ensures { result ≡ has_list source.now first }
{
    let end = source.past(first);
    let mut i = first;
    while i < source.len() {
        if i >= end {
            return false;
        }
        if is_identifier_list(source, i) {
            return true;
        }
        i += 1;
    }
    false
}

/// The index of the brace that directly follows a semicolon: that at the index, or one of the `more - 1` behind it at its level.
#[tactic(auto, using(crate::proofs::RecoveryLemmas::body_steps))]
pub fn body_behind(source: &Source<'_>, more: usize, first: usize) -> Option<usize>
    requires inside { first < length source.now.tokens }
    requires few { length source.now.tokens < 4294967296 }
    ensures is { result ≡ body_behind source.now more first }
    ensures within { IfSome result (λ brace. (first < brace) × (brace < length source.now.tokens)) }
{
    let mut left = more;
    let mut i = first;
    while left > 0 {
        if is_open_brace(source.word(i + 1)) {
            return Some(i + 1);
        }
        let end = level_end(source, Stop::Semicolon, i + 1);
        if !is_semicolon(source.word(end)) {
            return None;
        }
        i = end;
        left -= 1;
    }
    None
}
