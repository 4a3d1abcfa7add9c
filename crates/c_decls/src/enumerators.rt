//! Enumerations and their constants (C11 6.7.2.2).

ghost use Rattle.std.specs.Prelude.{◌≡◌, ◌<◌, IfOk, length};
ghost use Rattle.c_reader.specs.Reads.{IsBehind};
ghost use Rattle.c_decls.specs.Progress.{finding, read};
ghost use Rattle.c_decls.specs.Enumerators.{constant_declared, enum_declared, enumerated, enumeration_type, enumerator_step, enumerators_in, is_known, is_plain_body, named_at, next_enumerator, settled, written_value};

use crate::ends::{Stop, body_index, has_colon, level_end};
use crate::enumerated::{Enumerated, int_value};
use crate::hiding::{body_place, declare, hide_bodies, hide_enumerators, hide_name};
use crate::members::is_plain;
use crate::tag_declarations::declare_at;
use asm_core::Memory;
use c_reader::marks::{is_assign, is_close_brace, is_comma, is_name};
use c_reader::{Level, Next, Reader, attributes_at};
use c_scopes::{Entity, NameKind, Scopes};
use c_types::CType;
use c_values::TypeEnd;
use c_words::Source;
use std::alloc::Global;

/// The value that is written behind the `=` at the index, if it is known.
fn written_value(
    alloc: Global,
    source: &Source<'_>,
    scopes: &Scopes,
    depth: u32,
    assign: usize,
) -> Result<Option<i64>, Memory>
    requires { assign < 4294967296 }
    ensures { IfOk result (λ v. v ≡ written_value source.now depth assign scopes.now) }
{
    let end = level_end(source, Stop::Comma, assign + 1);
    let reader = Reader { source, scopes };
    match reader.nested(alloc, depth, Level::Conditional, assign + 1) {
        Ok(read) => {
            if read.end == end {
                Ok(int_value(read.value.constant))
            } else {
                Ok(None)
            }
        }
        Err(TypeEnd::NoType) => Ok(None),
        Err(TypeEnd::Memory) => Err(Memory),
    }
}

/// Declares a constant; without a value it is a name of which nothing is known.
fn declare_constant(
    alloc: Global,
    scopes: &mut Scopes,
    name: &[u8],
    value: Option<i64>,
    from: u32,
    to: u32,
) -> Result<(), Memory>
    ensures { IfOk result (λ _. scopes.new ≡ constant_declared name.now value from to scopes.old) }
{
    let Some(number) = value else {
        return hide_name(alloc, scopes, name, from, to);
    };
    let entity = Entity::Name(NameKind::Constant(Some(number)));
    let ctype = CType::Int {
        size: 4,
        signed: true,
    };
    declare(alloc, scopes, name, entity, Some(ctype), from, to)
}

/// Goes on behind a constant, whose part ends before the index.
#[tactic(auto, unfolding(crate::specs::Enumerators::next_enumerator))]
fn next_enumerator(
    source: &Source<'_>,
    i: usize,
    so_far: Enumerated,
) -> Next<Enumerated, Enumerated>
    ensures is { result ≡ next_enumerator source.now i so_far }
    ensures further { IsBehind i result }
{
    let word = source.word(i);
    if is_comma(word) {
        return Next::More(so_far, i + 1);
    }
    if is_close_brace(word) {
        return Next::Done(so_far);
    }
    Next::Done(so_far.malformed())
}

/// The constant at the index with that value, whose part ends at the index `end`.
fn enumerate(
    alloc: Global,
    source: &Source<'_>,
    scopes: &mut Scopes,
    to: u32,
    i: usize,
    end: usize,
    value: Option<i64>,
    so_far: Enumerated,
) -> Result<Next<Enumerated, Enumerated>, Memory>
    requires { i < end }
    ensures is { IfOk result (λ next. finding scopes.new next ≡ enumerated source.now to i end value (read scopes.old so_far)) }
    ensures further { IfOk result (IsBehind end) }
{
    declare_constant(
        alloc,
        scopes,
        source.bytes(i),
        value,
        source.end(end - 1),
        to,
    )?;
    Ok(next_enumerator(source, end, so_far.behind(value)))
}

/// The constant at the index, with its attributes up to the index `behind`.
fn enumerator_named(
    alloc: Global,
    source: &Source<'_>,
    scopes: &mut Scopes,
    to: u32,
    depth: u32,
    i: usize,
    behind: usize,
    so_far: Enumerated,
) -> Result<Next<Enumerated, Enumerated>, Memory>
    requires { i < behind }
    ensures is { IfOk result (λ next. finding scopes.new next ≡ named_at source.now to depth i behind (read scopes.old so_far)) }
    ensures further { IfOk result (IsBehind behind) }
{
    if !is_assign(source.word(behind)) {
        return enumerate(alloc, source, scopes, to, i, behind, so_far.next, so_far);
    }
    let value = written_value(alloc, source, scopes, depth, behind)?;
    let end = level_end(source, Stop::Comma, behind + 1);
    hide_bodies(alloc, source, scopes, to, behind + 1, end)?;
    enumerate(alloc, source, scopes, to, i, end, value, so_far)
}

/// One constant, or the closing brace.
#[tactic(auto, unfolding(crate::specs::Enumerators::enumerator_step))]
fn enumerator_step(
    alloc: Global,
    source: &Source<'_>,
    scopes: &mut Scopes,
    to: u32,
    depth: u32,
    i: usize,
    so_far: Enumerated,
) -> Result<Next<Enumerated, Enumerated>, Memory>
    requires { i < length source.now.tokens }
    ensures is { IfOk result (λ next. finding scopes.new next ≡ enumerator_step source.now to depth i (read scopes.old so_far)) }
    ensures further { IfOk result (IsBehind i) }
{
    let word = source.word(i);
    if is_name(word) {
        let behind = attributes_at(source, i + 1).end;
        hide_bodies(alloc, source, scopes, to, i + 1, behind)?;
        return enumerator_named(alloc, source, scopes, to, depth, i, behind, so_far);
    }
    if is_close_brace(word) {
        return Ok(Next::Done(so_far));
    }
    Ok(Next::Done(so_far.malformed()))
}

/// The constants of the body whose brace has this index.
#[tactic(auto, using(crate::proofs::EnumeratorLemmas::enumerator_steps))]
fn read_enumerators(
    alloc: Global,
    source: &Source<'_>,
    scopes: &mut Scopes,
    to: u32,
    depth: u32,
    brace: usize,
) -> Result<Enumerated, Memory>
    ensures { IfOk result (λ e. read scopes.new e ≡ enumerators_in source.now to depth brace scopes.old) }
{
    let mut so_far = Enumerated::new();
    if brace >= source.len() {
        return Ok(so_far.malformed());
    }
    let mut i = brace + 1;
    while i < source.len() {
        match enumerator_step(alloc, source, scopes, to, depth, i, so_far)? {
            Next::Done(read) => return Ok(read),
            Next::More(more, next) => {
                so_far = more;
                i = next;
                continue;
            }
        }
    }
    Ok(so_far.malformed())
}

/// Whether all values of the enumeration whose keyword has this index are known, and its type, which no colon names.
fn is_known(source: &Source<'_>, i: usize, constants: Enumerated) -> bool
    requires { i < 4294967296 }
    ensures { result ≡ is_known source.now i constants }
{
    constants.known && !has_colon(source, i)
}

/// Hides the constants of the body at the keyword with this index behind it, unless they are known.
fn settle(
    alloc: Global,
    source: &Source<'_>,
    scopes: &mut Scopes,
    to: u32,
    i: usize,
    constants: Enumerated,
) -> Result<(), Memory>
    requires { i < 4294967296 }
    ensures { IfOk result (λ _. scopes.new ≡ settled source.now to i (read scopes.old constants)) }
{
    if is_known(source, i, constants) {
        return Ok(());
    }
    hide_enumerators(
        alloc,
        source,
        scopes,
        body_place(source, i),
        to,
        body_index(source, i),
    )
}

fn enumeration_type(known: bool) -> Option<CType>
    ensures { result ≡ enumeration_type known }
{
    if known {
        Some(CType::Enumeration)
    } else {
        None
    }
}

/// Whether no attribute before or behind the body at the keyword with this index changes its size.
pub fn is_plain_body(source: &Source<'_>, i: usize) -> bool
    requires { i < 4294967296 }
    ensures { result ≡ is_plain_body source.now i }
{
    let before = attributes_at(source, i + 1).attributes;
    let behind = attributes_at(source, source.past(body_index(source, i))).attributes;
    is_plain(before.both(behind))
}

/// Declares the enumeration whose keyword has this index, with its constants. It has the type only where all values and the type are known.
pub fn declare_enum(
    alloc: Global,
    source: &Source<'_>,
    scopes: &mut Scopes,
    to: u32,
    depth: u32,
    i: usize,
) -> Result<(), Memory>
    requires { i < 4294967296 }
    ensures { IfOk result (λ _. scopes.new ≡ enum_declared source.now to depth i scopes.old) }
{
    let read = read_enumerators(alloc, source, scopes, to, depth, body_index(source, i))?;
    settle(alloc, source, scopes, to, i, read)?;
    let ctype = enumeration_type(is_known(source, i, read) && is_plain_body(source, i));
    let tag = attributes_at(source, i + 1).end;
    declare_at(alloc, source, scopes, tag, ctype, to)
}
