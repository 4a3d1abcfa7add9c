//! The tags of structs, unions and enumerations in a declaration (C11 6.7.2.3).

ghost use Rattle.std.specs.Prelude.{◌≡◌, ◌<◌, IfOk, IfSome, length};
ghost use Rattle.c_reader.specs.declared.next.Next.TheVariants.{More};
ghost use Rattle.c_decls.specs.Progress.{going};
ghost use Rattle.c_decls.specs.Tags.{expression_passed, named_tags, tag_found, tag_named, tags_step, word_passed};
ghost use Rattle.c_decls.specs.Bodies.{body_declared};

use crate::bodies::declare_body;
use crate::ends::{behind_word, body_index, has_body};
use crate::hiding::hide_bodies;
use crate::tag_declarations::refer;
use asm_core::Memory;
use c_reader::attributes_at;
use c_reader::marks::{is_name, is_open_paren};
use c_scopes::Scopes;
use c_words::{Punct, Source, TagWord, Word};
use std::alloc::Global;

/// Declares what `struct`, `union` or `enum` at the index names without a body. Its tag may stand at the index `tag`.
fn declare_named(
    alloc: Global,
    source: &Source<'_>,
    scopes: &mut Scopes,
    to: u32,
    kind: TagWord,
    i: usize,
    tag: usize,
) -> Result<usize, Memory>
    requires keyword { i < 4294967296 }
    requires behind { i < tag }
    ensures is { IfOk result (λ next. More scopes.new next ≡ tag_named source.now to kind i tag scopes.old) }
    ensures further { IfOk result (λ next. i < next) }
{
    if !is_name(source.word(tag)) {
        return Ok(i + 1);
    }
    refer(alloc, source, scopes, to, kind, tag)?;
    Ok(tag + 1)
}

/// Declares what `struct`, `union` or `enum` at the index names, with its body if it has one.
#[cycle(bodies)]
fn declare_tag(
    alloc: Global,
    source: &Source<'_>,
    scopes: &mut Scopes,
    to: u32,
    depth: u32,
    kind: TagWord,
    i: usize,
) -> Result<usize, Memory>
    requires { i < 4294967296 }
    ensures is { IfOk result (λ next. More scopes.new next ≡ tag_found source.now to (body_declared source.now to depth) kind i scopes.old) }
    ensures further { IfOk result (λ next. i < next) }
{
    let tag = attributes_at(source, i + 1).end;
    hide_bodies(alloc, source, scopes, to, i + 1, tag)?;
    if has_body(source, i) {
        declare_body(alloc, source, scopes, to, depth, kind, i)?;
        return Ok(source.past(body_index(source, i)));
    }
    declare_named(alloc, source, scopes, to, kind, i, tag)
}

/// Passes over the brackets at the index, in which an expression stands.
fn pass_expression(
    alloc: Global,
    source: &Source<'_>,
    scopes: &mut Scopes,
    to: u32,
    bracket: usize,
) -> Result<usize, Memory>
    requires { bracket < length source.now.tokens }
    ensures is { IfOk result (λ next. More scopes.new next ≡ expression_passed source.now to bracket scopes.old) }
    ensures further { IfOk result (λ next. bracket < next) }
{
    let past = source.past(bracket);
    hide_bodies(alloc, source, scopes, to, bracket + 1, past)?;
    Ok(past)
}

/// Passes over the word at the index and the parentheses that may follow it, in which an expression stands.
fn pass_word(
    alloc: Global,
    source: &Source<'_>,
    scopes: &mut Scopes,
    to: u32,
    i: usize,
) -> Result<usize, Memory>
    requires { i < 4294967296 }
    ensures is { IfOk result (λ next. More scopes.new next ≡ word_passed source.now to i scopes.old) }
    ensures further { IfOk result (λ next. i < next) }
{
    if is_open_paren(source.word(i + 1)) {
        return pass_expression(alloc, source, scopes, to, i + 1);
    }
    Ok(i + 1)
}

/// One token of a part of a declaration, which ends before the index `end`.
#[cycle(bodies)]
#[tactic(auto, unfolding(crate::specs::Tags::tags_step))]
fn tags_step(
    alloc: Global,
    source: &Source<'_>,
    scopes: &mut Scopes,
    to: u32,
    depth: u32,
    end: usize,
    i: usize,
) -> Result<Option<usize>, Memory>
    ensures is { IfOk result (λ next. going scopes.new next ≡ tags_step source.now to (body_declared source.now to depth) end i scopes.old) }
    ensures further { IfOk result (λ next. IfSome next (λ j. i < j)) }
{
    if i >= end {
        return Ok(None);
    }
    let next = match source.word(i) {
        Word::Tag(kind) => declare_tag(alloc, source, scopes, to, depth, kind, i)?,
        Word::Typeof | Word::Attribute => pass_word(alloc, source, scopes, to, i)?,
        Word::Asm => behind_word(source, i),
        Word::Punct(Punct::OpenBracket) => pass_expression(alloc, source, scopes, to, i)?,
        _ => i + 1,
    };
    Ok(Some(next))
}

/// Declares the tags that stand from one index up to another, in their order, in the scope that ends at the offset `to`.
/// So many levels of nesting may still come.
#[cycle(bodies)]
#[tactic(auto, using(crate::proofs::TagLemmas::tag_steps))]
pub fn name_tags_within(
    alloc: Global,
    source: &Source<'_>,
    scopes: &mut Scopes,
    to: u32,
    depth: u32,
    first: usize,
    end: usize,
) -> Result<(), Memory>
    ensures { IfOk result (λ _. scopes.new ≡ named_tags source.now to (body_declared source.now to depth) first end scopes.old) }
{
    let mut i = first;
    while i < source.len() {
        match tags_step(alloc, source, scopes, to, depth, end, i)? {
            Some(next) => {
                i = next;
                continue;
            }
            None => return Ok(()),
        }
    }
    Ok(())
}
