//! The declarators of the members of structs and unions (C11 6.7.2.1).

ghost use Rattle.std.specs.Prelude.{◌≡◌, ◌<◌, ◌≤◌, IfOk};
ghost use Rattle.c_reader.specs.Reads.{IsBehind};
ghost use Rattle.c_decls.specs.Progress.{finding, read};
ghost use Rattle.c_decls.specs.Members.{asked_of, bit_field, declarators_read, member_declared, member_step, next_declarator};
ghost use Rattle.c_decls.specs.Bodies.{body_declared};

use crate::ends::{Stop, closes, level_end};
use crate::hiding::hide_bodies;
use crate::members::{Members, declarator_in, is_plain, member_type, name_of};
use crate::tag_names::name_tags_within;
use asm_core::Memory;
use c_reader::marks::{is_colon, is_comma, is_semicolon};
use c_reader::{Asked, Declarator, Next, Specifiers, attributes_from};
use c_scopes::Scopes;
use c_types::CType;
use c_words::Source;
use std::alloc::Global;

/// Goes on behind a declarator, which ends before the index.
#[tactic(auto, unfolding(crate::specs::Members::next_declarator))]
fn next_declarator(source: &Source<'_>, i: usize, members: Members) -> Next<Members, Members>
    ensures is { result ≡ next_declarator source.now i members }
    ensures further { IsBehind i result }
{
    let word = source.word(i);
    if is_comma(word) {
        return Next::More(members, i + 1);
    }
    if is_semicolon(word) || closes(word) {
        return Next::Done(members);
    }
    Next::Done(members.uncovered())
}

/// The width of a bit-field, whose colon has this index.
fn read_bit_field(
    alloc: Global,
    source: &Source<'_>,
    scopes: &mut Scopes,
    to: u32,
    colon: usize,
    members: Members,
) -> Result<Next<Members, Members>, Memory>
    requires { colon < 4294967296 }
    ensures is { IfOk result (λ next. finding scopes.new next ≡ bit_field source.now to colon (read scopes.old members)) }
    ensures further { IfOk result (IsBehind colon) }
{
    let end = level_end(source, Stop::Comma, colon + 1);
    hide_bodies(alloc, source, scopes, to, colon + 1, end)?;
    Ok(next_declarator(source, end, members.without_size()))
}

fn asked_of(source: &Source<'_>, specifiers: &Specifiers, declarator: &Declarator) -> Asked
    ensures is { result ≡ asked_of source.now specifiers.now declarator.now }
    ensures behind { declarator.now.end ≤ result.end }
{
    let already = specifiers.attributes.both(declarator.attributes);
    attributes_from(source, already, declarator.end)
}

/// The member that a declarator declares, and what follows it.
fn declare_member(
    alloc: Global,
    source: &Source<'_>,
    scopes: &mut Scopes,
    to: u32,
    specifiers: &Specifiers,
    members: Members,
    declarator: Declarator,
) -> Result<Next<Members, Members>, Memory>
    ensures is { IfOk result (λ next. finding scopes.new next ≡ member_declared source.now to specifiers.now (read scopes.old members) declarator) }
    ensures further { IfOk result (IsBehind declarator.end) }
{
    let asked = asked_of(source, specifiers, &declarator);
    let name = name_of(source, declarator.name);
    if is_colon(source.word(asked.end)) {
        let members = members.with(alloc, name, CType::Unknown, false)?;
        return read_bit_field(alloc, source, scopes, to, asked.end, members);
    }
    let ctype = member_type(asked.attributes, declarator.ctype);
    let members = members.with(alloc, name, ctype, is_plain(asked.attributes))?;
    Ok(next_declarator(source, asked.end, members))
}

/// One declarator of several, behind these specifiers.
#[cycle(bodies)]
#[tactic(auto, unfolding(crate::specs::Members::member_step))]
fn member_step(
    alloc: Global,
    source: &Source<'_>,
    scopes: &mut Scopes,
    to: u32,
    depth: u32,
    specifiers: &Specifiers,
    i: usize,
    members: Members,
) -> Result<Next<Members, Members>, Memory>
    ensures is { IfOk result (λ next. finding scopes.new next ≡ member_step source.now to depth (body_declared source.now to depth) specifiers.now i (read scopes.old members)) }
    ensures further { IfOk result (IsBehind i) }
{
    if is_colon(source.word(i)) {
        return read_bit_field(alloc, source, scopes, to, i, members);
    }
    let Some(first) = declarator_in(alloc, source, scopes, depth, specifiers, i)? else {
        return Ok(Next::Done(members.uncovered()));
    };
    let end = asked_of(source, specifiers, &first).end;
    name_tags_within(alloc, source, scopes, to, depth, i, end)?;
    hide_bodies(alloc, source, scopes, to, i, end)?;
    match declarator_in(alloc, source, scopes, depth, specifiers, i)? {
        Some(declarator) => declare_member(
            alloc, source, scopes, to, specifiers, members, declarator,
        ),
        None => Ok(Next::Done(members.uncovered())),
    }
}

/// The declarators behind these specifiers.
#[cycle(bodies)]
#[tactic(auto, using(crate::proofs::MemberLemmas::declarator_steps))]
pub fn read_declarators(
    alloc: Global,
    source: &Source<'_>,
    scopes: &mut Scopes,
    to: u32,
    depth: u32,
    specifiers: &Specifiers,
    already: Members,
) -> Result<Members, Memory>
    ensures { IfOk result (λ m. read scopes.new m ≡ declarators_read source.now to depth (body_declared source.now to depth) specifiers.now (read scopes.old already)) }
{
    let mut members = already;
    let mut i = specifiers.end;
    while i < source.len() {
        match member_step(alloc, source, scopes, to, depth, specifiers, i, members)? {
            Next::Done(members) => return Ok(members),
            Next::More(more, next) => {
                members = more;
                i = next;
                continue;
            }
        }
    }
    Ok(members.uncovered())
}
