//! Edits of a text.

ghost use Rattle.std.specs.Prelude.{◌≡◌, ℕ, ◌<◌, ◌≤◌, ◌++◌, length, slice_range, IfOk, OnOk};
ghost use Rattle.c_tokens.specs.Splice.{AreApart, spliced_from};

use asm_core::{Edit, Items, Memory};
use std::alloc::{AllocError, Global};

/// Writes the text from an offset up to the edit, and then the edit's own text.
fn write_edit(out: &mut Vec<u8>, text: &[u8], from: usize, edit: &Edit) -> Result<(), AllocError>
    requires { (from ≤ edit.now.span.from) × (edit.now.span.from ≤ length text.now) }
    ensures { OnOk result (out.new.items ≡ out.old.items ++ slice_range text.now from edit.now.span.from ++ edit.now.text) }
{
    out.extend_from_slice(&text[from..edit.span.from as usize])?;
    out.extend_from_slice(edit.text.as_slice())
}

/// The text with the bytes of each edit's span replaced by its text. All other bytes stay as they are, in their order.
pub fn splice(alloc: Global, text: &[u8], edits: &[Edit]) -> Result<Items<u8>, Memory>
    requires text { length text.now < 4294967295 }
    requires apart { AreApart 0 edits.now (length text.now) }
    ensures { IfOk result (λ spliced. spliced ≡ spliced_from text.now 0 edits.now) }
{
    let mut out = Vec::new(alloc);
    let mut from = 0;
    for edit in edits {
        write_edit(&mut out, text, from, edit)?;
        from = edit.span.to as usize;
    }
    out.extend_from_slice(&text[from..])?;
    Ok(Items::from_vec(out))
}
