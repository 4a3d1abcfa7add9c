//! Names and tags that are hidden, since what they mean isn't known.

ghost use Rattle.std.specs.Prelude.{◌≡◌, ◌<◌, length, slice_get, IfOk, IfSome};
ghost use Rattle.c_reader.specs.Specifiers.{tag_index};
ghost use Rattle.c_decls.specs.Progress.{going};
ghost use Rattle.c_decls.specs.Hiding.{behind_block, bodies_step, body_hidden, body_place, declared, enumerators_step, forgotten, forgotten_at, hidden_bodies, hidden_body, hidden_enumerators, hidden_name, hidden_tag, hidden_tag_at, unknown_tag};

use crate::ends::{Stop, body_index, has_body, level_end, opens_block};
use asm_core::{Items, Memory, Span};
use c_reader::marks::{is_comma, is_name};
use c_reader::{Reader, attributes_at};
use c_scopes::{Declaration, Entity, NameKind, Scopes, tagged};
use c_types::{CType, NO_BODY, Tag};
use c_words::{Source, TagWord, Word};
use std::alloc::Global;

/// A declaration that isn't covered, and its scope.
#[derive(Clone, Copy)]
pub struct Hidden {
    /// The index of its first token.
    pub first: usize,
    /// The index behind it.
    pub end: usize,
    /// The index of the opening brace, where it ends at braces.
    pub braces: Option<usize>,
    /// The offset in the file at which its scope ends.
    pub to: u32,
}

/// Declares a name from an offset of the file on, up to the offset at which its scope ends.
pub fn declare(
    alloc: Global,
    scopes: &mut Scopes,
    name: &[u8],
    entity: Entity,
    ctype: Option<CType>,
    from: u32,
    to: u32,
) -> Result<(), Memory>
    ensures { IfOk result (λ _. scopes.new ≡ declared name.now entity ctype from to scopes.old) }
{
    let name = Items::from_slice(alloc, name)?;
    scopes.declare(Declaration {
        name,
        entity,
        ctype,
        seen: Span { from, to },
    })
}

/// Declares an ordinary name of which nothing is known.
pub fn hide_name(
    alloc: Global,
    scopes: &mut Scopes,
    name: &[u8],
    from: u32,
    to: u32,
) -> Result<(), Memory>
    ensures { IfOk result (λ _. scopes.new ≡ hidden_name name.now from to scopes.old) }
{
    let entity = Entity::Name(NameKind::Other);
    declare(alloc, scopes, name, entity, None, from, to)
}

/// Declares a tag of which nothing is known.
pub fn hide_tag(
    alloc: Global,
    scopes: &mut Scopes,
    tag: &[u8],
    from: u32,
    to: u32,
) -> Result<(), Memory>
    ensures { IfOk result (λ _. scopes.new ≡ hidden_tag tag.now from to scopes.old) }
{
    declare(alloc, scopes, tag, Entity::Tag, None, from, to)
}

/// Hides the enumerator at the index. The index at which the next may stand, `None` behind the last.
#[tactic(auto, unfolding(crate::specs::Hiding::enumerators_step))]
fn enumerators_step(
    alloc: Global,
    source: &Source<'_>,
    scopes: &mut Scopes,
    from: u32,
    to: u32,
    i: usize,
) -> Result<Option<usize>, Memory>
    ensures is { IfOk result (λ next. going scopes.new next ≡ enumerators_step source.now from to i scopes.old) }
    ensures further { IfOk result (λ next. IfSome next (λ j. i < j)) }
{
    if !is_name(source.word(i)) {
        return Ok(None);
    }
    let behind = level_end(source, Stop::Comma, i);
    hide_name(alloc, scopes, source.bytes(i), from, to)?;
    if !is_comma(source.word(behind)) {
        return Ok(None);
    }
    Ok(Some(behind + 1))
}

/// Hides from an offset on the enumerators of the body whose brace is at the index.
#[tactic(auto, using(crate::proofs::HidingLemmas::enumerators_steps))]
pub fn hide_enumerators(
    alloc: Global,
    source: &Source<'_>,
    scopes: &mut Scopes,
    from: u32,
    to: u32,
    brace: usize,
) -> Result<(), Memory>
    ensures { IfOk result (λ _. scopes.new ≡ hidden_enumerators source.now from to brace scopes.old) }
{
    if brace >= source.len() {
        return Ok(());
    }
    let mut i = brace + 1;
    while i < source.len() {
        match enumerators_step(alloc, source, scopes, from, to, i)? {
            Some(next) => {
                i = next;
                continue;
            }
            None => return Ok(()),
        }
    }
    Ok(())
}

/// A struct or union of which nothing is known.
pub fn unknown_tag(alloc: Global, joined: bool) -> Tag
    ensures { result ≡ unknown_tag joined }
{
    Tag {
        joined,
        names: Items::new(alloc),
        members: Items::new(alloc),
        layout: None,
        known_from: NO_BODY,
    }
}

/// The offset in the file behind the body of the struct, union or enumeration whose keyword has this index.
pub fn body_place(source: &Source<'_>, i: usize) -> u32
    requires { i < 4294967296 }
    ensures { result ≡ body_place source.now i }
{
    source.end(source.past(body_index(source, i)).saturating_sub(1))
}

/// Forgets what the body that ends at the offset `place` of the file said of the struct or union with this number.
fn forget_at(alloc: Global, scopes: &mut Scopes, place: u32, number: u32)
    ensures { scopes.new ≡ forgotten_at place scopes.old number (slice_get scopes.old.tags.list number) }
{
    let Some(tag) = scopes.tags().list.get(number as usize) else {
        return;
    };
    if tag.known_from != place {
        return;
    }
    let unknown = unknown_tag(alloc, tag.joined);
    scopes.complete(number, unknown);
}

/// Forgets what the body of the struct or union said whose keyword has this index.
fn forget(alloc: Global, source: &Source<'_>, scopes: &mut Scopes, i: usize)
    requires { i < 4294967296 }
    ensures { scopes.new ≡ forgotten source.now i scopes.old }
{
    let tag = attributes_at(source, i + 1).end;
    let reader = Reader {
        source: &*source,
        scopes: &*scopes,
    };
    if let Some(CType::Tagged(number)) = tagged(
        scopes,
        reader.tag_bytes(tag),
        reader.tag_place(tag),
    ) {
        let number = *number;
        forget_at(alloc, scopes, body_place(source, i), number);
    }
}

/// Hides the tag at the index, if one stands there.
pub fn hide_tag_at(
    alloc: Global,
    source: &Source<'_>,
    scopes: &mut Scopes,
    from: u32,
    to: u32,
    i: usize,
) -> Result<(), Memory>
    ensures { IfOk result (λ _. scopes.new ≡ hidden_tag_at source.now from to i scopes.old) }
{
    if is_name(source.word(i)) {
        return hide_tag(alloc, scopes, source.bytes(i), from, to);
    }
    Ok(())
}

/// Hides from an offset on what the body at the keyword with this index declares: its tag, and the names of an enumeration.
pub fn hide_body(
    alloc: Global,
    source: &Source<'_>,
    scopes: &mut Scopes,
    from: u32,
    to: u32,
    kind: TagWord,
    i: usize,
) -> Result<(), Memory>
    requires { i < 4294967296 }
    ensures { IfOk result (λ _. scopes.new ≡ hidden_body source.now from to kind i scopes.old) }
{
    forget(alloc, source, scopes, i);
    let tag = attributes_at(source, i + 1).end;
    hide_tag_at(alloc, source, scopes, from, to, tag)?;
    match kind {
        TagWord::Enum => {
            hide_enumerators(alloc, source, scopes, from, to, body_index(source, i))
        }
        TagWord::Struct | TagWord::Union => Ok(()),
    }
}

/// Hides what the body declares that `struct`, `union` or `enum` at the index has, if it has one. The index at which to go on.
fn body_passed(
    alloc: Global,
    source: &Source<'_>,
    scopes: &mut Scopes,
    to: u32,
    kind: TagWord,
    i: usize,
) -> Result<Option<usize>, Memory>
    requires inside { i < length source.now.tokens }
    requires few { length source.now.tokens < 4294967296 }
    ensures is { IfOk result (λ next. going scopes.new next ≡ body_hidden source.now to kind i scopes.old) }
    ensures further { IfOk result (λ next. IfSome next (λ j. i < j)) }
{
    if has_body(source, i) {
        hide_body(alloc, source, scopes, source.start(i), to, kind, i)?;
    }
    Ok(Some(i + 1))
}

/// One token of those in which bodies hide their names. The index at which to go on, `None` from the index `end` on.
#[tactic(auto, unfolding(crate::specs::Hiding::bodies_step))]
fn bodies_step(
    alloc: Global,
    source: &Source<'_>,
    scopes: &mut Scopes,
    to: u32,
    end: usize,
    i: usize,
) -> Result<Option<usize>, Memory>
    requires { i < length source.now.tokens }
    ensures is { IfOk result (λ next. going scopes.new next ≡ bodies_step source.now to end i scopes.old) }
    ensures further { IfOk result (λ next. IfSome next (λ j. i < j)) }
{
    if i >= end {
        return Ok(None);
    }
    match source.word(i) {
        Word::Tag(kind) => body_passed(alloc, source, scopes, to, kind, i),
        _ => Ok(Some(behind_block(source, i))),
    }
}

/// Hides the names of each body of a struct, union or enumeration between two indices, blocks in statement expressions aside,
/// from its keyword on: it stands in an expression or an initialiser.
#[tactic(auto, using(crate::proofs::HidingLemmas::bodies_steps))]
pub fn hide_bodies(
    alloc: Global,
    source: &Source<'_>,
    scopes: &mut Scopes,
    to: u32,
    first: usize,
    end: usize,
) -> Result<(), Memory>
    ensures { IfOk result (λ _. scopes.new ≡ hidden_bodies source.now to first end scopes.old) }
{
    let mut i = first;
    while i < source.len() {
        match bodies_step(alloc, source, scopes, to, end, i)? {
            Some(next) => {
                i = next;
                continue;
            }
            None => return Ok(()),
        }
    }
    Ok(())
}

/// The index behind the block in a statement expression that opens at the index, or behind the token.
pub fn behind_block(source: &Source<'_>, i: usize) -> usize
    requires inside { i < length source.now.tokens }
    requires few { length source.now.tokens < 4294967296 }
    ensures is { result ≡ behind_block source.now i }
    ensures behind { i < result }
{
    if opens_block(source, i) {
        source.past(i)
    } else {
        i + 1
    }
}
