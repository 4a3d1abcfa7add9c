//! How tags are declared: where they are first named, or with a body (C11 6.7.2.3).

ghost use Rattle.std.specs.Prelude.{◌≡◌, ◌<◌, IfOk};
ghost use Rattle.c_types.specs.declared.ctype.CType.{out-CType};
ghost use Rattle.c_reader.specs.Specifiers.{tag_bytes, tag_place};
ghost use Rattle.c_scopes.specs.declared.declaration.Entity.TheVariants as entities;
ghost use Rattle.c_decls.specs.Hiding.{declared};
ghost use Rattle.c_decls.specs.Tags.{first_named, is_last, is_open, is_open_type, is_outer, is_there, lone_tag, new_tag, opened, referred, renewed, renewed_at, tag_declared};

use crate::hiding::{declare, unknown_tag};
use crate::items::behind_extensions;
use asm_core::Memory;
use c_reader::attributes_at;
use c_reader::marks::{is_name, is_semicolon};
use c_scopes::{Entity, NameSpace, Scopes};
use c_types::{CType, NO_BODY};
use c_words::{Source, TagWord, Word};
use std::alloc::Global;

/// Declares what the tag at the index names, or under the empty tag what has none there.
pub fn declare_at(
    alloc: Global,
    source: &Source<'_>,
    scopes: &mut Scopes,
    tag: usize,
    ctype: Option<CType>,
    to: u32,
) -> Result<(), Memory>
    ensures { IfOk result (λ _. scopes.new ≡ declared (tag_bytes source.now tag) entities.Tag ctype (tag_place source.now tag) to scopes.old) }
{
    if is_name(source.word(tag)) {
        declare(
            alloc,
            scopes,
            source.bytes(tag),
            Entity::Tag,
            ctype,
            source.end(tag),
            to,
        )
    } else {
        declare(
            alloc,
            scopes,
            &[],
            Entity::Tag,
            ctype,
            source.start(tag),
            to,
        )
    }
}

/// Declares a struct, or a union where `joined` holds, without a body, from one offset of the file up to another.
/// More of them than a type can number count as want of memory.
fn declare_new(
    alloc: Global,
    scopes: &mut Scopes,
    joined: bool,
    tag: &[u8],
    from: u32,
    to: u32,
) -> Result<(), Memory>
    ensures { IfOk result (λ _. scopes.new ≡ new_tag joined tag.now from to scopes.old) }
{
    let Ok(number) = u32::try_from(scopes.tag_count()) else {
        return Err(Memory);
    };
    scopes.add_tag(unknown_tag(alloc, joined))?;
    let ctype = Some(CType::Tagged(number));
    declare(alloc, scopes, tag, Entity::Tag, ctype, from, to)
}

/// Declares a tag where it is first named, without a body: an enumeration has no type there.
fn declare_first(
    alloc: Global,
    scopes: &mut Scopes,
    kind: TagWord,
    tag: &[u8],
    from: u32,
    to: u32,
) -> Result<(), Memory>
    ensures { IfOk result (λ _. scopes.new ≡ first_named kind tag.now from to scopes.old) }
{
    match kind {
        TagWord::Struct => declare_new(alloc, scopes, false, tag, from, to),
        TagWord::Union => declare_new(alloc, scopes, true, tag, from, to),
        TagWord::Enum => declare(alloc, scopes, tag, Entity::Tag, None, from, to),
    }
}

/// Whether what the tag at the index names is declared already, in any scope.
fn is_declared(source: &Source<'_>, scopes: &Scopes, tag: usize) -> bool
    ensures { result ≡ is_there (tag_declared source.now tag scopes.now) }
{
    match scopes.declaration(NameSpace::Tag, source.bytes(tag), source.start(tag)) {
        Some(_) => true,
        None => false,
    }
}

/// Whether it is declared in a scope around the one that ends at the offset `to`.
fn is_outer(source: &Source<'_>, scopes: &Scopes, to: u32, tag: usize) -> bool
    ensures { result ≡ is_outer to (tag_declared source.now tag scopes.now) }
{
    match scopes.declaration(NameSpace::Tag, source.bytes(tag), source.start(tag)) {
        Some(declaration) => declaration.seen.to != to,
        None => false,
    }
}

/// Declares the tag at the index, which is named without a body, in the scope that ends at the offset `to`, unless it is declared.
pub fn refer(
    alloc: Global,
    source: &Source<'_>,
    scopes: &mut Scopes,
    to: u32,
    kind: TagWord,
    tag: usize,
) -> Result<(), Memory>
    ensures { IfOk result (λ _. scopes.new ≡ referred source.now to kind tag scopes.old) }
{
    if is_declared(source, scopes, tag) {
        return Ok(());
    }
    declare_first(alloc, scopes, kind, source.bytes(tag), source.end(tag), to)
}

/// Declares the tag at the index in the scope that ends at the offset `to`, if a scope around has one.
fn renew(
    alloc: Global,
    source: &Source<'_>,
    scopes: &mut Scopes,
    to: u32,
    kind: TagWord,
    tag: usize,
) -> Result<(), Memory>
    ensures { IfOk result (λ _. scopes.new ≡ renewed source.now to kind tag scopes.old) }
{
    if !is_outer(source, scopes, to, tag) {
        return Ok(());
    }
    declare_first(alloc, scopes, kind, source.bytes(tag), source.end(tag), to)
}

/// Whether a tag stands at the index and behind it nothing but attributes.
fn is_last(source: &Source<'_>, tag: usize) -> bool
    ensures { result ≡ is_last source.now tag }
{
    is_name(source.word(tag)) && is_semicolon(source.word(attributes_at(source, tag + 1).end))
}

/// Declares the tag of the keyword at the index anew, if it is one and the tag is last.
fn renew_at(
    alloc: Global,
    source: &Source<'_>,
    scopes: &mut Scopes,
    to: u32,
    i: usize,
) -> Result<(), Memory>
    ensures { IfOk result (λ _. scopes.new ≡ renewed_at source.now to i scopes.old) }
{
    let Word::Tag(kind) = source.word(i) else {
        return Ok(());
    };
    let tag = attributes_at(source, i + 1).end;
    if !is_last(source, tag) {
        return Ok(());
    }
    renew(alloc, source, scopes, to, kind, tag)
}

/// A declaration of a tag alone, `__extension__` and attributes aside, declares it anew in the scope that ends at the offset `to` where a
/// scope around has one (C11 6.7.2.3, 7).
pub fn declare_lone_tag(
    alloc: Global,
    source: &Source<'_>,
    scopes: &mut Scopes,
    to: u32,
    first: usize,
) -> Result<(), Memory>
    ensures { IfOk result (λ _. scopes.new ≡ lone_tag source.now to first scopes.old) }
{
    let i = attributes_at(source, behind_extensions(source, first)).end;
    renew_at(alloc, source, scopes, to, i)
}

/// Whether the type is a struct, or a union where `joined` holds, that has no body yet.
fn is_open_type(scopes: &Scopes, joined: bool, ctype: &CType) -> bool
    ensures { result ≡ is_open_type scopes.now joined (out-CType ctype.now) }
{
    match ctype {
        CType::Tagged(number) => match scopes.tags().list.get(*number as usize) {
            Some(tag) => tag.joined == joined && tag.known_from == NO_BODY,
            None => false,
        },
        _ => false,
    }
}

/// Whether the tag at the index, if one stands there, was declared without a body in the scope that ends at the offset `to` (C11 6.7.2.3, 4).
fn is_open(source: &Source<'_>, scopes: &Scopes, to: u32, joined: bool, tag: usize) -> bool
    ensures { result ≡ is_open source.now to joined tag scopes.now }
{
    if !is_name(source.word(tag)) {
        return false;
    }
    match scopes.declaration(NameSpace::Tag, source.bytes(tag), source.start(tag)) {
        Some(declaration) => match &declaration.ctype {
            Some(ctype) => declaration.seen.to == to && is_open_type(scopes, joined, ctype),
            None => false,
        },
        None => false,
    }
}

/// Declares the struct, or the union where `joined` holds, whose tag may stand at the index, unless its body belongs to one that is declared.
/// A body without a tag is declared under the empty one.
pub fn declare_open(
    alloc: Global,
    source: &Source<'_>,
    scopes: &mut Scopes,
    to: u32,
    joined: bool,
    tag: usize,
) -> Result<(), Memory>
    ensures { IfOk result (λ _. scopes.new ≡ opened source.now to joined tag scopes.old) }
{
    if !is_name(source.word(tag)) {
        return declare_new(alloc, scopes, joined, &[], source.start(tag), to);
    }
    if is_open(source, scopes, to, joined, tag) {
        return Ok(());
    }
    declare_new(
        alloc,
        scopes,
        joined,
        source.bytes(tag),
        source.end(tag),
        to,
    )
}
