//! The edits of a constraint.

ghost use Rattle.std.specs.Prelude.{◌≡◌, ◌<◌, ◌+◌, ◌++◌, length, drop, IfOk, OnOk};
ghost use Rattle.blk_patch.specs.Edits.{change_of, change_at, edit_at, edit_if, is_early, asks_plus, asks_byte, asks_early, byte_edits, position_after, constraint_edits};

use crate::Item;
use crate::item::has;
use crate::letters::is_inside_after;
use asm_core::{Edit, Items, Memory, Quoted, Span};
use std::alloc::Global;

/// What is to change in a constraint, or at one of its bytes.
#[derive(Clone, Copy, Debug)]
pub struct Change {
    /// `+` for `=`.
    pub plus: bool,
    /// `&` behind it.
    pub early: bool,
    /// `q` for `r`.
    pub byte: bool,
}

/// Where in a constraint a byte stands.
#[derive(Clone, Copy, Debug)]
pub struct Position {
    /// At its beginning.
    pub first: bool,
    /// In brackets.
    pub inside: bool,
}

/// What the items change in operand k's constraint.
pub fn change_of(items: &[Item], k: u8) -> Change
    ensures { result ≡ change_of items.now k }
{
    Change {
        plus: has(items, Item::Plus(k)),
        early: has(items, Item::Early(k)),
        byte: has(items, Item::Byte(k)),
    }
}

/// Whether the alternative that begins with these bytes has an early mark.
fn is_early(bytes: &[u8]) -> bool
    ensures { result ≡ is_early bytes.now }
{
    bytes
        .iter()
        .take_while(|byte| **byte != b',')
        .any(|byte| *byte == b'&')
}

fn asks_plus(change: Change, position: Position, byte: u8) -> bool
    ensures { result ≡ asks_plus change position byte }
{
    position.first && byte == b'=' && change.plus
}

fn asks_byte(change: Change, position: Position, byte: u8) -> bool
    ensures { result ≡ asks_byte change position byte }
{
    !position.inside && byte == b'r' && change.byte
}

fn asks_early(change: Change, position: Position, byte: u8, behind: &[u8]) -> bool
    ensures { result ≡ asks_early change position byte behind.now }
{
    (position.first || byte == b',') && change.early && !is_early(behind)
}

/// What of it is to change at a byte, before the others.
fn change_at(change: Change, position: Position, byte: u8, behind: &[u8]) -> Change
    ensures { result ≡ change_at change position byte behind.now }
{
    Change {
        plus: asks_plus(change, position, byte),
        early: asks_early(change, position, byte, behind),
        byte: asks_byte(change, position, byte),
    }
}

fn position_after(position: Position, byte: u8) -> Position
    ensures { result ≡ position_after position byte }
{
    Position {
        first: false,
        inside: is_inside_after(position.inside, byte),
    }
}

/// The offset behind the one; no text is so long that there is none.
fn past(at: u32) -> Result<u32, Memory>
    ensures { IfOk result (λ to. to ≡ at + 1) }
{
    match at.checked_add(1) {
        Some(to) => Ok(to),
        None => Err(Memory),
    }
}

fn push_if(
    alloc: Global,
    edits: &mut Items<Edit>,
    wanted: bool,
    span: Span,
    text: &[u8],
) -> Result<(), Memory>
    ensures { OnOk result (edits.new ≡ edits.old ++ edit_if wanted (edit_at span.from span.to text.now)) }
{
    if wanted {
        edits.push(Edit {
            span,
            text: Items::from_slice(alloc, text)?,
        })?;
    }
    Ok(())
}

/// The edits at a byte with that offset.
fn push_byte(alloc: Global, edits: &mut Items<Edit>, change: Change, at: u32) -> Result<(), Memory>
    ensures { OnOk result (edits.new ≡ edits.old ++ byte_edits change at) }
{
    let to = past(at)?;
    let replaced = Span { from: at, to };
    let inserted = Span { from: to, to };
    push_if(alloc, edits, change.plus, replaced, b"+")?;
    push_if(alloc, edits, change.byte, replaced, b"q")?;
    push_if(alloc, edits, change.early, inserted, b"&")
}

/// Appends the edits of a constraint.
pub fn push_constraint(
    alloc: Global,
    edits: &mut Items<Edit>,
    change: Change,
    constraint: &Quoted,
) -> Result<(), Memory>
    ensures { OnOk result (edits.new ≡ edits.old ++ constraint_edits change constraint.now) }
{
    let bytes = constraint.bytes.as_slice();
    let ats = constraint.at.as_slice();
    let mut position = Position {
        first: true,
        inside: false,
    };
    for (n, at) in ats.iter().enumerate() {
        if n >= bytes.len() {
            return Ok(());
        }
        let here = change_at(change, position, bytes[n], behind(bytes, n));
        push_byte(alloc, edits, here, *at)?;
        position = position_after(position, bytes[n]);
    }
    Ok(())
}

/// The bytes behind byte n.
fn behind(bytes: &[u8], n: usize) -> &[u8]
    requires { n < length bytes.now }
    ensures { result.now ≡ drop (n + 1) bytes.now }
{
    &bytes[n + 1..]
}
