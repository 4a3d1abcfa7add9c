//! The lines of a patch report.

ghost use Rattle.std.specs.Prelude.{◌≡◌, ◌<◌, ◌++◌, Some, length, IfOk, OnOk};
ghost use Rattle.std.specs.String.{string_bytes};
ghost use Rattle.ck_report.specs.PatchReport.{patch_report_of, patch_line, patched_line, no_room_line, no_patch_line, items_text, further_text, item_name};
ghost use Rattle.ck_report.specs.Place.{beginning};

use crate::Place;
use crate::places::Places;
use crate::reports::{append_mark, append_ok};
use asm_core::{Finding, Memory};
use blk_patch::{Item, PatchEnd};
use std::alloc::Global;
use std::fmt;
use std::fmt::Write;

/// A statement with what a patch does for it.
#[derive(Debug, Drop)]
pub struct Answered {
    /// The offset of its keyword.
    pub offset: u32,
    pub end: PatchEnd,
}

/// An item, as reports name it.
#[derive(Clone, Copy)]
struct Named(Item);

impl fmt::Display for Named {
    ghost output = { λ n. Some (item_name n.0) };

    fn fmt<W: fmt::Write>(&self, f: &mut fmt::Formatter<W>) -> fmt::Result {
        match self.0 {
            Item::Clobber(register) => write!(f, "clobber {}", register),
            Item::Memory => f.write_str("clobber memory"),
            Item::Cc => f.write_str("clobber cc"),
            Item::Early(k) => write!(f, "early %{}", k),
            Item::Plus(k) => write!(f, "plus %{}", k),
            Item::Byte(k) => write!(f, "byte %{}", k),
        }
    }
}

/// The lines on the patches of the statements of the named file, in their order. An offset past the end of the text
/// counts as the end.
pub fn patch_report(
    alloc: Global,
    name: &str,
    text: &[u8],
    all: &[Answered],
) -> Result<String, Memory>
    requires { length text.now < 4294967295 }
    ensures { IfOk result (λ lines. string_bytes lines ≡ patch_report_of name.now text.now all.now) }
{
    let places = Places::new(alloc, name, text)?;
    let mut lines = String::new(alloc);
    for statement in all {
        append_end(&mut lines, &places, statement.offset, &statement.end)?;
    }
    Ok(lines)
}

/// Appends the line of the statement whose keyword is at that offset.
fn append_end(
    lines: &mut String,
    places: &Places<'_>,
    offset: u32,
    end: &PatchEnd,
) -> Result<(), Memory>
    ensures { OnOk result (string_bytes lines.new ≡ string_bytes lines.old
        ++ patch_line places.now.0 places.now.1 offset end.now) }
{
    match end {
        PatchEnd::Nothing => append_ok(lines, places.place(offset)),
        PatchEnd::Patched(items) => append_patched(lines, places.place(offset), items.as_slice()),
        PatchEnd::NoPatch(finding) => append_no_patch(lines, places.place(offset), finding),
        PatchEnd::NoRoom(items) => append_no_room(lines, places.place(offset), items.as_slice()),
        PatchEnd::Outside(mark) => append_mark(lines, places, offset, *mark),
    }
}

fn append_patched(lines: &mut String, place: Place<'_>, items: &[Item]) -> Result<(), Memory>
    ensures { OnOk result (string_bytes lines.new ≡ string_bytes lines.old
        ++ patched_line (beginning place.entry) items.now) }
{
    write!(lines, "{place}patched ")?;
    append_items(lines, items)?;
    lines.push_str("\n")?;
    Ok(())
}

fn append_no_room(lines: &mut String, place: Place<'_>, items: &[Item]) -> Result<(), Memory>
    ensures { OnOk result (string_bytes lines.new ≡ string_bytes lines.old
        ++ no_room_line (beginning place.entry) items.now) }
{
    write!(lines, "{place}no room: ")?;
    append_items(lines, items)?;
    lines.push_str("\n")?;
    Ok(())
}

fn append_no_patch(lines: &mut String, place: Place<'_>, finding: &Finding) -> Result<(), Memory>
    ensures { OnOk result (string_bytes lines.new ≡ string_bytes lines.old
        ++ no_patch_line (beginning place.entry) finding.now) }
{
    write!(lines, "{place}no patch: {finding}\n")?;
    Ok(())
}

/// Appends the items in their order.
fn append_items(lines: &mut String, items: &[Item]) -> Result<(), Memory>
    ensures { OnOk result (string_bytes lines.new ≡ string_bytes lines.old ++ items_text items.now) }
{
    match items {
        [] => Ok(()),
        [first, further @ ..] => {
            append_item(lines, *first)?;
            append_further(lines, further)
        }
    }
}

fn append_item(lines: &mut String, item: Item) -> Result<(), Memory>
    ensures { OnOk result (string_bytes lines.new ≡ string_bytes lines.old ++ item_name item) }
{
    let name = Named(item);
    write!(lines, "{name}")?;
    Ok(())
}

fn append_further(lines: &mut String, items: &[Item]) -> Result<(), Memory>
    ensures { OnOk result (string_bytes lines.new ≡ string_bytes lines.old ++ further_text items.now) }
{
    for item in items {
        lines.push_str(", ")?;
        append_item(lines, *item)?;
    }
    Ok(())
}
