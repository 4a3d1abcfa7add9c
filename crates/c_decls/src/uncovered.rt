//! Declarations that aren't covered: what they hide.

ghost use Rattle.std.specs.Prelude.{◌≡◌, ◌+◌, ◌<◌, ◌≤◌, length, IfOk, IfSome};
ghost use Rattle.c_decls.specs.Progress.{going};
ghost use Rattle.c_decls.specs.Hiding.{behind_blocks, follows_star, hidden_at, hidden_by, hidden_entity, hidden_inside, hidden_names, is_qualifier, is_sealed, is_typedef_near, is_typedef_word, lone_tag_hidden, name_hidden, names_step, tag_hidden, was_typedef};

use crate::ends::{body_index, has_body, opens_block};
use crate::hiding::{Hidden, declare, hide_bodies, hide_body, hide_tag_at};
use crate::redeclared::hide_outer_names;
use crate::sealed::hide_sealed;
use asm_core::Memory;
use c_reader::attributes_at;
use c_reader::marks::{is_close_paren, is_semicolon, is_star};
use c_scopes::{Entity, NameKind, Scopes, name_kind};
use c_words::{Source, TagWord, Word};
use std::alloc::Global;

fn is_typedef_word(word: Word) -> bool
    ensures { result ≡ is_typedef_word word }
{
    matches!(word, Word::Typedef)
}

/// Whether `typedef` is among the three tokens from the index on.
fn is_typedef_near(source: &Source<'_>, i: usize) -> bool
    requires { i < 4294967296 }
    ensures { result ≡ is_typedef_near source.now i }
{
    is_typedef_word(source.word(i))
        || is_typedef_word(source.word(i + 1))
        || is_typedef_word(source.word(i + 2))
}

/// What the names of the declaration that begins at the index are.
fn hidden_entity(source: &Source<'_>, first: usize) -> Entity
    requires { first < 4294967296 }
    ensures { result ≡ hidden_entity source.now first }
{
    if is_typedef_near(source, first) {
        Entity::Name(NameKind::Typedef)
    } else {
        Entity::Name(NameKind::Other)
    }
}

/// Whether the name at the index is a typedef name where the declaration begins.
pub fn was_typedef(source: &Source<'_>, scopes: &Scopes, h: Hidden, i: usize) -> bool
    ensures { result ≡ was_typedef source.now h i scopes.now }
{
    matches!(
        name_kind(scopes, source.bytes(i), source.start(h.first)),
        Some(NameKind::Typedef)
    )
}

/// Hides the name at the index from the declaration's first token on.
pub fn hide_at(
    alloc: Global,
    source: &Source<'_>,
    scopes: &mut Scopes,
    h: Hidden,
    i: usize,
) -> Result<(), Memory>
    requires { h.first < 4294967296 }
    ensures { IfOk result (λ _. scopes.new ≡ hidden_at source.now h i scopes.old) }
{
    let entity = hidden_entity(source, h.first);
    let from = source.start(h.first);
    declare(alloc, scopes, source.bytes(i), entity, None, from, h.to)
}

/// Whether the brace at the index opens a function's body at which the declaration ends: it follows the parameters.
fn is_sealed(source: &Source<'_>, h: Hidden, i: usize) -> bool
    ensures { result ≡ is_sealed source.now h i }
{
    let Some(brace) = h.braces else {
        return false;
    };
    let before = source.word(i.saturating_sub(1));
    brace == i && (is_close_paren(before) || is_semicolon(before))
}

/// The index behind the block in a statement expression, or behind the function's body, that opens at the index; else behind the token.
fn behind_blocks(source: &Source<'_>, h: Hidden, i: usize) -> usize
    requires inside { i < length source.now.tokens }
    requires few { length source.now.tokens < 4294967296 }
    ensures is { result ≡ behind_blocks source.now h i }
    ensures behind { i < result }
{
    if opens_block(source, i) || is_sealed(source, h, i) {
        source.past(i)
    } else {
        i + 1
    }
}

/// Hides what the body declares that `struct`, `union` or `enum` at the index has, if it has one. The index at which to go on.
fn hide_tagged(
    alloc: Global,
    source: &Source<'_>,
    scopes: &mut Scopes,
    h: Hidden,
    kind: TagWord,
    i: usize,
) -> Result<Option<usize>, Memory>
    requires inside { i < length source.now.tokens }
    requires few { length source.now.tokens < 4294967296 }
    ensures is { IfOk result (λ next. going scopes.new next ≡ tag_hidden source.now h kind i scopes.old) }
    ensures further { IfOk result (λ next. IfSome next (λ j. i < j)) }
{
    let tag = attributes_at(source, i + 1).end;
    hide_bodies(alloc, source, scopes, h.to, i + 1, tag)?;
    let body = body_index(source, i);
    if !has_body(source, i) {
        hide_lone_tag(alloc, source, scopes, h, i)?;
        return Ok(Some(body));
    }
    hide_body(alloc, source, scopes, source.start(h.first), h.to, kind, i)?;
    Ok(Some(body + 1))
}

/// Hides the tag of the keyword with this index where it stands alone, attributes behind it aside.
fn hide_lone_tag(
    alloc: Global,
    source: &Source<'_>,
    scopes: &mut Scopes,
    h: Hidden,
    i: usize,
) -> Result<(), Memory>
    requires { i < 4294967296 }
    ensures { IfOk result (λ _. scopes.new ≡ lone_tag_hidden source.now h i scopes.old) }
{
    let behind = attributes_at(source, body_index(source, i)).end;
    if !is_semicolon(source.word(behind)) {
        return Ok(());
    }
    let tag = attributes_at(source, i + 1).end;
    hide_tag_at(alloc, source, scopes, source.start(h.first), h.to, tag)
}

fn is_qualifier(word: Word) -> bool
    ensures { result ≡ is_qualifier word }
{
    matches!(word, Word::Qualifier)
}

/// Whether a star stands before the index, qualifiers between them aside.
#[tactic(auto, using(crate::proofs::HidingLemmas::star_steps))]
fn follows_star(source: &Source<'_>, i: usize) -> bool
    ensures { result ≡ follows_star source.now i }
{
    let mut j = i;
    while j > 0 {
        j -= 1;
        if !is_qualifier(source.word(j)) {
            return is_star(source.word(j));
        }
    }
    false
}

/// Hides the name at the index, a typedef name where a star stands before it. The index at which to go on.
fn hide_named(
    alloc: Global,
    source: &Source<'_>,
    scopes: &mut Scopes,
    h: Hidden,
    i: usize,
) -> Result<Option<usize>, Memory>
    requires first { h.first < 4294967296 }
    requires few { i < 4294967296 }
    ensures is { IfOk result (λ next. going scopes.new next ≡ name_hidden source.now h i scopes.old) }
    ensures further { IfOk result (λ next. IfSome next (λ j. i < j)) }
{
    if was_typedef(source, scopes, h, i) && !follows_star(source, i) {
        return Ok(Some(i + 1));
    }
    hide_at(alloc, source, scopes, h, i)?;
    Ok(Some(i + 1))
}

/// One token of those in which each name is hidden. The index at which to go on, `None` behind the declaration.
#[tactic(auto, unfolding(crate::specs::Hiding::names_step))]
fn names_step(
    alloc: Global,
    source: &Source<'_>,
    scopes: &mut Scopes,
    h: Hidden,
    i: usize,
) -> Result<Option<usize>, Memory>
    requires inside { i < length source.now.tokens }
    requires begun { h.first ≤ i }
    ensures is { IfOk result (λ next. going scopes.new next ≡ names_step source.now h i scopes.old) }
    ensures further { IfOk result (λ next. IfSome next (λ j. i < j)) }
{
    if i >= h.end {
        return Ok(None);
    }
    match source.word(i) {
        Word::Tag(kind) => hide_tagged(alloc, source, scopes, h, kind, i),
        Word::Name => hide_named(alloc, source, scopes, h, i),
        _ => Ok(Some(behind_blocks(source, h, i))),
    }
}

/// Hides each name in the declaration.
#[tactic(auto, using(crate::proofs::HidingLemmas::names_steps))]
fn hide_names(
    alloc: Global,
    source: &Source<'_>,
    scopes: &mut Scopes,
    h: Hidden,
) -> Result<(), Memory>
    ensures { IfOk result (λ _. scopes.new ≡ hidden_names source.now h scopes.old) }
{
    let mut i = h.first;
    while i < source.len() {
        match names_step(alloc, source, scopes, h, i)? {
            Some(next) => {
                i = next;
                continue;
            }
            None => return Ok(()),
        }
    }
    Ok(())
}

/// Hides the names and tags of the function's body at which the declaration ends, if there is one, in that body alone.
fn hide_inside(
    alloc: Global,
    source: &Source<'_>,
    scopes: &mut Scopes,
    h: Hidden,
) -> Result<(), Memory>
    ensures { IfOk result (λ _. scopes.new ≡ hidden_inside source.now h scopes.old) }
{
    match h.braces {
        Some(brace) if is_sealed(source, h, brace) => hide_sealed(alloc, source, scopes, brace),
        _ => Ok(()),
    }
}

/// Hides what a declaration that isn't covered may declare.
pub fn hide_declaration(
    alloc: Global,
    source: &Source<'_>,
    scopes: &mut Scopes,
    h: Hidden,
) -> Result<(), Memory>
    ensures { IfOk result (λ _. scopes.new ≡ hidden_by source.now h scopes.old) }
{
    hide_names(alloc, source, scopes, h)?;
    hide_outer_names(alloc, source, scopes, h)?;
    hide_inside(alloc, source, scopes, h)
}
