//! The edit of a clobber list.

ghost use Rattle.std.specs.Prelude.{◌≡◌, ◌++◌, IfOk, OnOk};
ghost use Rattle.std.specs.String.{string_bytes};
ghost use Rattle.blk_patch.specs.Edits.{clobber_name, quoted, names_among, clobbers, listed, lead_of, insertion_of, clobber_edits};

use crate::Item;
use crate::item::has;
use asm_core::{Edit, Items, Memory, Parts, Reg, Span};
use std::alloc::Global;
use std::fmt::Write;

/// The clobbers in the order in which they are written.
fn clobbers() -> [Item; 9]
    ensures { result ≡ clobbers }
{
    [
        Item::Clobber(Reg::Eax),
        Item::Clobber(Reg::Ebx),
        Item::Clobber(Reg::Ecx),
        Item::Clobber(Reg::Edx),
        Item::Clobber(Reg::Esi),
        Item::Clobber(Reg::Edi),
        Item::Clobber(Reg::Ebp),
        Item::Memory,
        Item::Cc,
    ]
}

/// Appends the name of a clobber in quotes.
fn append_clobber(text: &mut String, lead: &str, item: Item) -> Result<(), Memory>
    ensures { OnOk result (string_bytes text.new ≡ string_bytes text.old ++ lead.now ++ quoted (clobber_name item)) }
{
    match item {
        Item::Clobber(register) => write!(text, "{lead}\"{register}\"")?,
        Item::Memory => write!(text, "{lead}\"memory\"")?,
        Item::Cc => write!(text, "{lead}\"cc\"")?,
        _ => write!(text, "{lead}\"\"")?,
    }
    Ok(())
}

/// The names of those of the clobbers that are among the items, after that lead.
fn listed<'a>(
    alloc: Global,
    items: &[Item],
    clobbers: &[Item],
    mut lead: &'a str,
) -> Result<String, Memory>
    ensures { IfOk result (λ text. string_bytes text ≡ listed lead.entry.now (names_among items.now clobbers.now)) }
{
    let mut text = String::new(alloc);
    for item in clobbers {
        if !has(items, *item) {
            continue;
        }
        append_clobber(&mut text, lead, *item)?;
        lead = ", ";
    }
    Ok(text)
}

/// What stands before the first new name.
fn lead_of(parts: &Parts) -> &'static str
    ensures { result.now ≡ lead_of parts.now.colons parts.now.clobbers }
{
    if !parts.clobbers.is_empty() {
        return ", ";
    }
    match parts.colons {
        1 => " : : ",
        2 => " : ",
        _ => " ",
    }
}

/// Appends the insertion of some text.
fn push_insertion(
    alloc: Global,
    edits: &mut Items<Edit>,
    at: u32,
    text: &[u8],
) -> Result<(), Memory>
    ensures { OnOk result (edits.new ≡ edits.old ++ insertion_of at text.now) }
{
    if !text.is_empty() {
        edits.push(Edit {
            span: Span { from: at, to: at },
            text: Items::from_slice(alloc, text)?,
        })?;
    }
    Ok(())
}

/// Appends the edit of the clobber list, if there is one.
pub fn push_clobbers(
    alloc: Global,
    edits: &mut Items<Edit>,
    items: &[Item],
    parts: &Parts,
) -> Result<(), Memory>
    ensures { OnOk result (edits.new ≡ edits.old ++ clobber_edits items.now parts.now) }
{
    let text = listed(alloc, items, &clobbers(), lead_of(parts))?;
    push_insertion(alloc, edits, parts.last, text.as_bytes())
}
