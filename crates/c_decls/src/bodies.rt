//! The bodies of structs, unions and enumerations (C11 6.7.2.1, 6.7.2.2).

ghost use Rattle.std.specs.Prelude.{◌≡◌, ◌<◌, IfOk, IfSome};
ghost use Rattle.std.specs.Option.{ForSome};
ghost use Rattle.c_types.specs.Extents.{IsAlignment};
ghost use Rattle.c_decls.specs.Progress.{read};
ghost use Rattle.c_decls.specs.Bodies.{body_declared, completed, layout_in, struct_declared, tag_number, tag_of};

use crate::ends::body_index;
use crate::enumerators::{declare_enum, is_plain_body};
use crate::hiding::{body_place, hide_body};
use crate::member_declarations::read_members;
use crate::members::Members;
use crate::tag_declarations::declare_open;
use asm_core::Memory;
use c_reader::{Reader, attributes_at};
use c_scopes::{Scopes, tagged};
use c_types::{CType, Layout, Tag, layout};
use c_words::{Source, TagWord};
use std::alloc::Global;

/// Where the members lie of the struct, or of the union where `joined` holds, whose keyword has this index, if their sizes are known
/// and neither an attribute nor a `#pragma pack` changes its size.
fn layout_in(
    alloc: Global,
    source: &Source<'_>,
    scopes: &Scopes,
    i: usize,
    joined: bool,
    members: &Members,
) -> Result<Option<Layout>, Memory>
    requires { i < 4294967296 }
    ensures is { IfOk result (λ l. l ≡ layout_in source.now i joined scopes.now members.now) }
    ensures sound { IfOk result (λ l. IfSome l (λ laid. IsAlignment laid.align)) }
{
    let place = body_place(source, i);
    if source.is_packed(place) {
        return Ok(None);
    }
    if !members.sized || !is_plain_body(source, i) {
        return Ok(None);
    }
    layout(
        alloc,
        members.types.as_slice(),
        joined,
        scopes.tags(),
        place,
    )
}

/// The struct, or the union where `joined` holds, with these members, whose keyword has this index (C11 6.7.2.1, 8).
fn tag_of(
    alloc: Global,
    source: &Source<'_>,
    scopes: &Scopes,
    i: usize,
    joined: bool,
    members: Members,
) -> Result<Tag, Memory>
    requires { i < 4294967296 }
    ensures is { IfOk result (λ t. t ≡ tag_of source.now i joined (read scopes.now members)) }
    ensures aligned { IfOk result (λ t. ForSome t.layout (λ l. IsAlignment l.align)) }
{
    let layout = layout_in(alloc, source, scopes, i, joined, &members)?;
    Ok(Tag {
        joined,
        names: members.names,
        members: members.types,
        layout,
        known_from: body_place(source, i),
    })
}

/// The number of the struct or union that was declared at its tag.
fn tag_number(source: &Source<'_>, scopes: &Scopes, tag: usize) -> Option<u32>
    ensures { result ≡ tag_number source.now tag scopes.now }
{
    let reader = Reader { source, scopes };
    match tagged(scopes, reader.tag_bytes(tag), reader.tag_place(tag)) {
        Some(CType::Tagged(number)) => Some(*number),
        _ => None,
    }
}

/// Completes the struct or union of that number.
#[tactic(auto, using(crate::proofs::BodyLemmas::completed_steps))]
fn complete(scopes: &mut Scopes, number: Option<u32>, tag: Tag)
    requires { ForSome tag.layout (λ l. IsAlignment l.align) }
    ensures { scopes.new ≡ completed tag scopes.old number }
{
    let Some(number) = number else {
        return;
    };
    if (number as usize) < scopes.tag_count() {
        scopes.complete(number, tag);
    }
}

/// Declares the struct, or the union where `joined` holds, whose keyword has this index, and completes it by its body.
#[cycle(bodies)]
fn declare_struct(
    alloc: Global,
    source: &Source<'_>,
    scopes: &mut Scopes,
    to: u32,
    depth: u32,
    joined: bool,
    i: usize,
) -> Result<(), Memory>
    requires { i < 4294967296 }
    ensures { IfOk result (λ _. scopes.new ≡ struct_declared source.now to depth (body_declared source.now to depth) joined i scopes.old) }
{
    let tag = attributes_at(source, i + 1).end;
    declare_open(alloc, source, scopes, to, joined, tag)?;
    let members = read_members(alloc, source, scopes, to, depth, body_index(source, i))?;
    let completed = tag_of(alloc, source, scopes, i, joined, members)?;
    let number = tag_number(source, scopes, tag);
    complete(scopes, number, completed);
    Ok(())
}

/// Declares what the body at the keyword with this index declares, in the scope that ends at the offset `to`, where so many levels of
/// nesting may still come; a deeper one hides its names.
#[cycle(bodies)]
#[tactic(auto, using(crate::proofs::BodyLemmas::body_steps))]
pub fn declare_body(
    alloc: Global,
    source: &Source<'_>,
    scopes: &mut Scopes,
    to: u32,
    depth: u32,
    kind: TagWord,
    i: usize,
) -> Result<(), Memory>
    requires { i < 4294967296 }
    ensures { IfOk result (λ _. scopes.new ≡ body_declared source.now to depth kind i scopes.old) }
{
    if depth == 0 {
        return hide_body(alloc, source, scopes, source.start(i), to, kind, i);
    }
    match kind {
        TagWord::Struct => declare_struct(alloc, source, scopes, to, depth - 1, false, i),
        TagWord::Union => declare_struct(alloc, source, scopes, to, depth - 1, true, i),
        TagWord::Enum => declare_enum(alloc, source, scopes, to, depth - 1, i),
    }
}
