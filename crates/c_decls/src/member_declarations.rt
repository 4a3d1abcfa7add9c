//! The declarations of members between the braces of a struct or union (C11 6.7.2.1).

ghost use Rattle.std.specs.Prelude.{◌≡◌, ◌<◌, ◌≤◌, IfOk, length};
ghost use Rattle.c_reader.specs.Reads.{IsBehind};
ghost use Rattle.c_decls.specs.Progress.{finding, read};
ghost use Rattle.c_decls.specs.Members.{behind_specifiers, covered_or_unknown, has_untagged_body, is_unnamed, member_declaration, members_in, members_step, no_members, tag_word_from, without_declarator};
ghost use Rattle.c_decls.specs.Bodies.{body_declared};

use crate::ends::{Stop, behind_semicolon, closes, has_body, level_end};
use crate::hiding::hide_bodies;
use crate::member_declarators::read_declarators;
use crate::members::{Members, is_plain, member_type, specifiers_in};
use crate::tag_names::name_tags_within;
use crate::unknown_members::unknown_members;
use asm_core::Memory;
use c_reader::marks::{is_name, is_semicolon};
use c_reader::{Next, Specifiers, attributes_at};
use c_scopes::Scopes;
use c_types::CType;
use c_words::{Source, Word};
use std::alloc::Global;

/// The index of the first `struct`, `union` or `enum` from one index up to another, outside brackets.
#[tactic(auto, using(crate::proofs::MemberLemmas::tag_word_steps))]
fn tag_word_from(source: &Source<'_>, first: usize, end: usize) -> usize
    ensures is { result ≡ tag_word_from source.now first end }
    ensures few { first ≤ length source.now.tokens → result < 4294967296 }
{
    let mut i = first;
    while i < source.len() {
        if i >= end || matches!(source.word(i), Word::Tag(_)) {
            return i;
        }
        i = source.past(i);
    }
    i
}

/// Whether a body without a tag follows the keyword.
fn has_untagged_body(source: &Source<'_>, keyword: usize) -> bool
    requires { keyword < 4294967296 }
    ensures { result ≡ has_untagged_body source.now keyword }
{
    has_body(source, keyword) && !is_name(source.word(attributes_at(source, keyword + 1).end))
}

/// Whether the specifiers from the index on are those of a struct or union that has a body and no tag.
fn is_unnamed(source: &Source<'_>, first: usize, specifiers: &Specifiers) -> bool
    requires { first < length source.now.tokens }
    ensures { result ≡ is_unnamed source.now first specifiers.now }
{
    matches!(&specifiers.ctype, CType::Tagged(_))
        && has_untagged_body(source, tag_word_from(source, first, specifiers.end))
}

/// The members of a declaration without declarators: those of an unnamed struct or union without a tag are the outer one's.
#[tactic(auto, unfolding(crate::specs::Members::without_declarator))]
fn without_declarator(
    alloc: Global,
    source: &Source<'_>,
    first: usize,
    specifiers: Specifiers,
    members: Members,
) -> Result<Members, Memory>
    requires { first < length source.now.tokens }
    ensures { IfOk result (λ m. m ≡ without_declarator source.now first specifiers members) }
{
    if !is_unnamed(source, first, &specifiers) {
        return Ok(members);
    }
    let attributes = specifiers.attributes;
    let ctype = member_type(attributes, specifiers.ctype);
    members.with(alloc, &[], ctype, is_plain(attributes))
}

/// What the specifiers from the index on declare, with the declarators behind them.
#[cycle(bodies)]
fn behind_specifiers(
    alloc: Global,
    source: &Source<'_>,
    scopes: &mut Scopes,
    to: u32,
    depth: u32,
    first: usize,
    specifiers: Specifiers,
) -> Result<Members, Memory>
    requires { first < length source.now.tokens }
    ensures { IfOk result (λ m. read scopes.new m ≡ behind_specifiers source.now to depth (body_declared source.now to depth) first (read scopes.old no_members) (Some specifiers)) }
{
    let none = Members::new(alloc);
    let word = source.word(specifiers.end);
    if is_semicolon(word) || closes(word) {
        return without_declarator(alloc, source, first, specifiers, none);
    }
    read_declarators(alloc, source, scopes, to, depth, &specifiers, none)
}

/// The declaration of members at the index.
#[cycle(bodies)]
#[tactic(auto, unfolding(crate::specs::Members::member_declaration))]
fn read_declaration(
    alloc: Global,
    source: &Source<'_>,
    scopes: &mut Scopes,
    to: u32,
    depth: u32,
    i: usize,
) -> Result<Members, Memory>
    requires { i < length source.now.tokens }
    ensures { IfOk result (λ m. read scopes.new m ≡ member_declaration source.now to depth (body_declared source.now to depth) i scopes.old) }
{
    let Some(first) = specifiers_in(alloc, source, scopes, depth, i)? else {
        return Ok(Members::new(alloc).uncovered());
    };
    name_tags_within(alloc, source, scopes, to, depth, i, first.end)?;
    match specifiers_in(alloc, source, scopes, depth, i)? {
        Some(specifiers) => behind_specifiers(alloc, source, scopes, to, depth, i, specifiers),
        None => Ok(Members::new(alloc).uncovered()),
    }
}

/// The members of the declaration at the index: what was read of it, if that is covered.
fn covered_or_unknown(
    alloc: Global,
    source: &Source<'_>,
    scopes: &mut Scopes,
    to: u32,
    i: usize,
    members: Members,
) -> Result<Members, Memory>
    ensures { IfOk result (λ m. read scopes.new m ≡ covered_or_unknown source.now to i (read scopes.old members)) }
{
    if members.covered {
        return Ok(members);
    }
    let end = level_end(source, Stop::Semicolon, i);
    hide_bodies(alloc, source, scopes, to, i, end)?;
    unknown_members(alloc, source, scopes, i, end)
}

// ---- the members between the braces

/// One declaration of members, or a static assertion.
#[cycle(bodies)]
#[tactic(auto, unfolding(crate::specs::Members::members_step))]
fn members_step(
    alloc: Global,
    source: &Source<'_>,
    scopes: &mut Scopes,
    to: u32,
    depth: u32,
    i: usize,
    members: Members,
) -> Result<Next<Members, Members>, Memory>
    requires { i < length source.now.tokens }
    ensures is { IfOk result (λ next. finding scopes.new next ≡ members_step source.now to depth (body_declared source.now to depth) i (read scopes.old members)) }
    ensures further { IfOk result (IsBehind i) }
{
    let word = source.word(i);
    if closes(word) {
        return Ok(Next::Done(members));
    }
    if is_semicolon(word) {
        return Ok(Next::More(members, i + 1));
    }
    let next = behind_semicolon(source, i);
    if matches!(word, Word::StaticAssert) {
        hide_bodies(alloc, source, scopes, to, i, next)?;
        return Ok(Next::More(members, next));
    }
    let read = read_declaration(alloc, source, scopes, to, depth, i)?;
    let more = covered_or_unknown(alloc, source, scopes, to, i, read)?;
    Ok(Next::More(members.append(more)?, next))
}

/// The members of the body whose brace has this index.
#[cycle(bodies)]
#[tactic(auto, using(crate::proofs::MemberLemmas::member_steps))]
pub fn read_members(
    alloc: Global,
    source: &Source<'_>,
    scopes: &mut Scopes,
    to: u32,
    depth: u32,
    brace: usize,
) -> Result<Members, Memory>
    ensures { IfOk result (λ m. read scopes.new m ≡ members_in source.now to depth (body_declared source.now to depth) brace scopes.old) }
{
    let mut members = Members::new(alloc);
    if brace >= source.len() {
        return Ok(members);
    }
    let mut i = brace + 1;
    while i < source.len() {
        match members_step(alloc, source, scopes, to, depth, i, members)? {
            Next::Done(members) => return Ok(members),
            Next::More(more, next) => {
                members = more;
                i = next;
                continue;
            }
        }
    }
    Ok(members)
}
