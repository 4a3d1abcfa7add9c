//! Braces that part the dialects of an assembler.

ghost use Rattle.std.specs.Prelude.{◌≡◌, ◌≤◌, ◌<◌, ◌+◌, ◌^◌, false, drop, length, slice_index, IfSome};
ghost use Rattle.asm_core.specs.TemplateForms.{bar_at, closing_at, group_end, opening_at, turn, cut};

use asm_core::{TemplateCut, TemplateForm};

/// The index behind the next brace that closes from `start` on. A `%` takes the byte behind it along.
#[tactic(auto, using(crate::proofs::BraceLemmas::group_steps))]
fn group_end(bytes: &[u8], start: usize) -> Option<usize>
    requires { start ≤ length bytes.now }
    ensures is { result ≡ group_end false start (drop start bytes.now) }
    ensures within { IfSome result (λ e. (start < e) × (e ≤ length bytes.now)) }
{
    let mut taken = false;
    let mut i = start;
    while i < bytes.len() {
        let b = bytes[i];
        i += 1;
        if taken {
            taken = false;
            continue;
        }
        if b == b'}' {
            return Some(i);
        }
        taken = b == b'%';
    }
    None
}

/// A form that leaves the braces as they are.
pub fn cut(braced: bool, form: TemplateForm, end: usize) -> TemplateCut
    ensures { result ≡ cut braced form end }
{
    TemplateCut {
        form: Some(form),
        braced,
        end,
    }
}

/// No form: what comes next stands in braces, or outside them.
fn turn(braced: bool, end: usize) -> TemplateCut
    ensures { result ≡ turn braced end }
{
    TemplateCut {
        form: None,
        braced,
        end,
    }
}

/// The cut at a `{` that stands at `i`, and in the file at `at`.
pub fn opening_at(bytes: &[u8], braced: bool, at: u32, i: usize) -> TemplateCut
    requires { i < length bytes.now }
    ensures is { result ≡ opening_at bytes.now braced at i }
    ensures within { (i < result.end) × (result.end ≤ length bytes.now) }
{
    if !braced && group_end(bytes, i + 1).is_some() {
        return turn(true, i + 1);
    }
    cut(true, TemplateForm::Outside(at), i + 1)
}

/// The cut at a `|`.
pub fn bar_at(bytes: &[u8], braced: bool, at: u32, i: usize) -> TemplateCut
    requires { i < length bytes.now }
    ensures is { result ≡ bar_at bytes.now braced at i }
    ensures within { (i < result.end) × (result.end ≤ length bytes.now) }
{
    if braced {
        return turn(false, group_end(bytes, i + 1).unwrap_or(bytes.len()));
    }
    cut(false, TemplateForm::Outside(at), i + 1)
}

/// The cut at a `}`.
pub fn closing_at(braced: bool, at: u32, i: usize) -> TemplateCut
    requires { i + 1 < 2 ^ 64 }
    ensures { result ≡ closing_at braced at i }
{
    if braced {
        return turn(false, i + 1);
    }
    cut(false, TemplateForm::Outside(at), i + 1)
}
