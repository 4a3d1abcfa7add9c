//! The lines on whole files.

ghost use Rattle.std.specs.Prelude.{◌≡◌, ◌<◌, length, IfOk};
ghost use Rattle.std.specs.String.{string_bytes};
ghost use Rattle.ck_app.specs.Lines.{bad_text_line, fault_of, cannot_be_read_line, too_large_line};

use asm_core::Memory;
use c_tokens::TokenEnd;
use ck_report::Place;
use std::alloc::Global;

pub fn cannot_be_read_line(alloc: Global, name: &str) -> Result<String, Memory>
    ensures { IfOk result (λ line. string_bytes line ≡ cannot_be_read_line name.now) }
{
    Ok(format!(in alloc; "{name}: cannot be read\n")?)
}

pub fn too_large_line(alloc: Global, name: &str) -> Result<String, Memory>
    ensures { IfOk result (λ line. string_bytes line ≡ too_large_line name.now) }
{
    Ok(format!(in alloc; "{name}: too large\n")?)
}

/// The line of a fault of the text.
pub fn bad_text_line(
    alloc: Global,
    name: &str,
    text: &[u8],
    end: TokenEnd,
) -> Result<String, Memory>
    requires { length text.now < 4294967295 }
    ensures { IfOk result (λ line. string_bytes line ≡ bad_text_line name.now text.now end) }
{
    let (what, offset) = fault(end);
    let place = Place::of_offset(name, text, offset);
    Ok(format!(in alloc; "{place}bad text: {what} at {offset}\n")?)
}

/// What a fault is called, and its offset.
fn fault(end: TokenEnd) -> (&'static str, u32)
    ensures what { result.0.now ≡ (fault_of end).0 }
    ensures offset { result.1 ≡ (fault_of end).1 }
{
    match end {
        TokenEnd::OpenString(offset) => ("open string", offset),
        TokenEnd::OpenComment(offset) => ("open comment", offset),
        TokenEnd::BadByte(offset) => ("bad byte", offset),
        TokenEnd::Unbalanced(offset) => ("unbalanced bracket", offset),
        TokenEnd::Memory => ("", 0),
    }
}
