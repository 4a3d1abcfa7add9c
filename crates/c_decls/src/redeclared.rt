//! Typedef names that a declaration declares again which isn't covered.

ghost use Rattle.std.specs.Prelude.{◌≡◌, ◌<◌, ◌≤◌, length, IfOk, IfSome};
ghost use Rattle.c_decls.specs.Progress.{going};
ghost use Rattle.c_decls.specs.Hiding.{behind_body, behind_parenthesis, declarator_hidden, hidden_outer_names, is_followed, opens_parameters, outer_step};

use crate::ends::{Stop, body_index, closes, has_body, level_end};
use crate::hiding::Hidden;
use crate::uncovered::{hide_at, was_typedef};
use asm_core::Memory;
use c_reader::attributes_at;
use c_reader::marks::{is_name, is_star};
use c_scopes::Scopes;
use c_words::{Punct, Source, Word};
use std::alloc::Global;

/// Whether a name or a star stands at the index, an asm label and attributes aside.
fn is_followed(source: &Source<'_>, i: usize) -> bool
    ensures { result ≡ is_followed source.now i }
{
    let behind = attributes_at(source, source.behind_asm_label(i)).end;
    source.is_name_token(behind) || is_star(source.word(behind))
}

/// The index behind the body that `struct`, `union` or `enum` at the index has, or behind its tag.
fn behind_body(source: &Source<'_>, i: usize) -> usize
    requires { i < 4294967296 }
    ensures is { result ≡ behind_body source.now i }
    ensures behind { i < result }
{
    let body = body_index(source, i);
    if has_body(source, i) {
        source.past(body)
    } else {
        body
    }
}

/// Hides the typedef name at the index where neither a name nor a star follows it. The index at which to go on.
fn hide_declarator(
    alloc: Global,
    source: &Source<'_>,
    scopes: &mut Scopes,
    h: Hidden,
    i: usize,
) -> Result<Option<usize>, Memory>
    requires first { h.first < 4294967296 }
    requires few { i < 4294967296 }
    ensures is { IfOk result (λ next. going scopes.new next ≡ declarator_hidden source.now h i scopes.old) }
    ensures further { IfOk result (λ next. IfSome next (λ j. i < j)) }
{
    if was_typedef(source, scopes, h, i) && !is_followed(source, i + 1) {
        hide_at(alloc, source, scopes, h, i)?;
    }
    Ok(Some(i + 1))
}

/// Whether the parenthesis at the index opens parameters: it stands behind the name or the brackets of a declarator.
fn opens_parameters(source: &Source<'_>, scopes: &Scopes, h: Hidden, i: usize) -> bool
    ensures { result ≡ opens_parameters source.now h i scopes.now }
{
    let before = source.word(i.saturating_sub(1));
    if !is_name(before) {
        return closes(before);
    }
    let of_tag = matches!(source.word(i.saturating_sub(2)), Word::Tag(_));
    !(was_typedef(source, scopes, h, i.saturating_sub(1)) || of_tag)
}

/// The index behind the parenthesis at the index, where it stands around a declarator, or behind its group.
fn behind_parenthesis(source: &Source<'_>, scopes: &Scopes, h: Hidden, i: usize) -> usize
    requires inside { i < length source.now.tokens }
    requires few { length source.now.tokens < 4294967296 }
    ensures is { result ≡ behind_parenthesis source.now h i scopes.now }
    ensures behind { i < result }
{
    let past = source.past(i);
    if opens_parameters(source, scopes, h, i) || is_followed(source, past) {
        past
    } else {
        i + 1
    }
}

/// One token of those outside brackets, where typedef names are hidden that the declaration declares. The index at which to go on, `None`
/// behind the declaration.
#[tactic(auto, unfolding(crate::specs::Hiding::outer_step))]
fn outer_step(
    alloc: Global,
    source: &Source<'_>,
    scopes: &mut Scopes,
    h: Hidden,
    i: usize,
) -> Result<Option<usize>, Memory>
    requires inside { i < length source.now.tokens }
    requires begun { h.first ≤ i }
    ensures is { IfOk result (λ next. going scopes.new next ≡ outer_step source.now h i scopes.old) }
    ensures further { IfOk result (λ next. IfSome next (λ j. i < j)) }
{
    if i >= h.end {
        return Ok(None);
    }
    match source.word(i) {
        Word::Tag(_) => Ok(Some(behind_body(source, i))),
        Word::Name => hide_declarator(alloc, source, scopes, h, i),
        Word::Punct(Punct::OpenParen) => Ok(Some(behind_parenthesis(source, scopes, h, i))),
        Word::Punct(Punct::Assign) => Ok(Some(level_end(source, Stop::Comma, i + 1))),
        _ => Ok(Some(source.past(i))),
    }
}

/// Hides the typedef names outside brackets that the declaration declares.
#[tactic(auto, using(crate::proofs::HidingLemmas::outer_steps))]
pub fn hide_outer_names(
    alloc: Global,
    source: &Source<'_>,
    scopes: &mut Scopes,
    h: Hidden,
) -> Result<(), Memory>
    ensures { IfOk result (λ _. scopes.new ≡ hidden_outer_names source.now h scopes.old) }
{
    let mut i = h.first;
    while i < source.len() {
        match outer_step(alloc, source, scopes, h, i)? {
            Some(next) => {
                i = next;
                continue;
            }
            None => return Ok(()),
        }
    }
    Ok(())
}
