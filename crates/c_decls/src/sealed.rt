//! The body of a function whose declaration isn't covered.

ghost use Rattle.std.specs.Prelude.{◌≡◌, ◌+◌, ◌<◌, length, IfOk, IfSome};
ghost use Rattle.c_decls.specs.Progress.{going};
ghost use Rattle.c_decls.specs.Hiding.{hidden_sealed, last_of, name_sealed, sealed_step, tag_sealed};

use crate::ends::{body_index, has_body};
use crate::hiding::{hide_bodies, hide_name, hide_tag_at};
use asm_core::Memory;
use c_reader::attributes_at;
use c_scopes::Scopes;
use c_words::{Source, Word};
use std::alloc::Global;

/// The index of the brace that closes the body which opens at the index.
fn last_of(source: &Source<'_>, brace: usize) -> usize
    ensures { result ≡ last_of source.now brace }
{
    source.past(brace).saturating_sub(1)
}

/// Hides in the body the tag of `struct`, `union` or `enum` at the index, where it has a body of its own.
fn hide_tag_in(
    alloc: Global,
    source: &Source<'_>,
    scopes: &mut Scopes,
    brace: usize,
    i: usize,
) -> Result<(), Memory>
    requires { i < 4294967296 }
    ensures { IfOk result (λ _. scopes.new ≡ tag_sealed source.now brace i scopes.old) }
{
    let tag = attributes_at(source, i + 1).end;
    let to = source.end(last_of(source, brace));
    hide_bodies(alloc, source, scopes, to, i + 1, tag)?;
    if !has_body(source, i) {
        return Ok(());
    }
    hide_tag_at(alloc, source, scopes, source.start(brace), to, tag)
}

/// Hides in the body the name at the index.
fn hide_name_in(
    alloc: Global,
    source: &Source<'_>,
    scopes: &mut Scopes,
    brace: usize,
    i: usize,
) -> Result<(), Memory>
    ensures { IfOk result (λ _. scopes.new ≡ name_sealed source.now brace i scopes.old) }
{
    let to = source.end(last_of(source, brace));
    hide_name(alloc, scopes, source.bytes(i), source.start(brace), to)
}

/// One token of a body in which names and tags are hidden. The index at which to go on, `None` at the brace that closes it.
#[tactic(auto, unfolding(crate::specs::Hiding::sealed_step))]
fn sealed_step(
    alloc: Global,
    source: &Source<'_>,
    scopes: &mut Scopes,
    brace: usize,
    i: usize,
) -> Result<Option<usize>, Memory>
    requires { i < length source.now.tokens }
    ensures is { IfOk result (λ next. going scopes.new next ≡ sealed_step source.now brace i scopes.old) }
    ensures further { IfOk result (λ next. IfSome next (λ j. i < j)) }
{
    if i >= last_of(source, brace) {
        return Ok(None);
    }
    match source.word(i) {
        Word::Tag(_) => {
            hide_tag_in(alloc, source, scopes, brace, i)?;
            Ok(Some(body_index(source, i)))
        }
        Word::Name => {
            hide_name_in(alloc, source, scopes, brace, i)?;
            Ok(Some(i + 1))
        }
        _ => Ok(Some(i + 1)),
    }
}

/// Hides in the body whose brace has this index each name and each tag with a body.
#[tactic(auto, using(crate::proofs::HidingLemmas::sealed_steps))]
pub fn hide_sealed(
    alloc: Global,
    source: &Source<'_>,
    scopes: &mut Scopes,
    brace: usize,
) -> Result<(), Memory>
    ensures { IfOk result (λ _. scopes.new ≡ hidden_sealed source.now brace scopes.old) }
{
    let mut i = brace;
    while i < source.len() {
        match sealed_step(alloc, source, scopes, brace, i)? {
            Some(next) => {
                i = next;
                continue;
            }
            None => return Ok(()),
        }
    }
    Ok(())
}
