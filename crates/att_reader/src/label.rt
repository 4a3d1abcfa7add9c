//! The labels of a template, and where a jump goes (GNU as, "Local Labels").

ghost use Rattle.std.specs.Prelude.{◌≡◌, ◌≤◌, ◌&&◌, ◌==◌, nat_le, nat_lt, true, false, map, IsTrue, IfOk};
ghost use Rattle.std.specs.Str.Parse.{digits_value};
ghost use Rattle.asm_core.specs.Reading.Cut.{instruction_count, is_number_label, same_name};
ghost use Rattle.asm_core.specs.Reading.Line.{defines_number, goal_in, goal_of, is_reference, labels_of, numbered_goal};
ghost use Rattle.att_reader.specs.Labels.{label_number};
ghost use Rattle.att_reader.specs.Raws.{raws_as};
ghost use Rattle.att_reader.specs.Text.{defined};

use crate::code::code_at;
use crate::number::numeral;
use crate::raw::Raw;
use crate::words::{is_number_label, is_unique_label};
use asm_core::{Items, Label, Memory};
use std::alloc::Global;

/// Each label with the number of the instruction that it stands before.
#[tactic(auto, using(crate::proofs::LabelLemmas::label_steps))]
pub fn labels(alloc: Global, raws: &[Raw<'_>]) -> Result<Items<Label>, Memory>
    requires { instruction_count (raws_as raws.now) ≤ 512 }
    ensures { IfOk result (λ labels. labels ≡ labels_of (raws_as raws.now)) }
{
    let mut labels = Items::new(alloc);
    let mut before = 0;
    for raw in raws {
        match raw {
            Raw::Label(name) => labels.push(Label {
                name: Items::from_slice(alloc, name)?,
                before,
            })?,
            Raw::Dead(_) | Raw::Live(_) => before += 1,
        }
    }
    Ok(labels)
}

/// The number that a label is; none where it isn't 1 to 4 digits.
#[tactic(auto, using(crate::proofs::LabelLemmas::label_number_is))]
fn label_number(word: &[u8]) -> Option<u32>
    ensures { result ≡ label_number word.now }
{
    if is_number_label(word) {
        numeral(10, 9_999, word)
    } else {
        None
    }
}

/// Whether the label is that number.
fn defines_number(label: &Label, n: u32) -> bool
    ensures { result ≡ defines_number n (defined label.now) }
{
    match label_number(label.name.as_slice()) {
        Some(number) => number == n,
        None => false,
    }
}

/// Whether the label is `n` and stands at or before the instruction.
fn is_behind(label: &Label, inst: u32, n: u32) -> bool
    ensures { result ≡ (defines_number n (defined label.now) && nat_le label.now.before inst) }
{
    defines_number(label, n) && label.before <= inst
}

/// Whether the label is `n` and stands behind the instruction.
fn is_ahead(label: &Label, inst: u32, n: u32) -> bool
    ensures { result ≡ (defines_number n (defined label.now) && nat_lt inst label.now.before) }
{
    defines_number(label, n) && inst < label.before
}

fn is_named(label: &Label, name: &[u8]) -> bool
    ensures { result ≡ same_name label.now.name name.now }
{
    label.name.as_slice() == name
}

/// The nearest label `n` at or before the instruction.
fn goal_back(labels: &[Label], inst: u32, n: u32) -> Option<u32>
    ensures { result ≡ numbered_goal (map defined labels.now) inst n true }
{
    let mut i = labels.len();
    while i > 0 {
        i -= 1;
        let label = &labels[i];
        if is_behind(label, inst, n) {
            return Some(label.before);
        }
    }
    None
}

/// The nearest label `n` behind the instruction.
fn goal_ahead(labels: &[Label], inst: u32, n: u32) -> Option<u32>
    ensures { result ≡ numbered_goal (map defined labels.now) inst n false }
{
    for label in labels {
        if is_ahead(label, inst, n) {
            return Some(label.before);
        }
    }
    None
}

/// The label of that name.
fn goal_named(labels: &[Label], name: &[u8]) -> Option<u32>
    ensures { result ≡ goal_in (map defined labels.now) (λ l. same_name l.0 name.now) }
{
    for label in labels {
        if is_named(label, name) {
            return Some(label.before);
        }
    }
    None
}

/// Whether it is a number of 1 to 4 digits, of which the first is no 0 where there are several.
fn is_reference(digits: &[u8]) -> bool
    ensures { result ≡ is_reference digits.now }
{
    is_number_label(digits) && (digits.len() == 1 || code_at(digits, 0) != b'0')
}

/// Where an operand of that instruction jumps; `None` where the text is no label.
#[tactic(auto, unfolding(asm_core::specs::Reading::Line::goal_of))]
pub fn goal_of(labels: &[Label], inst: u32, text: &[u8]) -> Option<Option<u32>>
    ensures { result ≡ goal_of (map defined labels.now) inst text.now }
{
    let n = text.len().saturating_sub(1);
    let digits = &text[..n];
    let last = code_at(text, n);
    if is_reference(digits) && (last == b'b' || last == b'f') {
        return Some(numbered_goal(labels, inst, digits, last == b'b'));
    }
    if is_unique_label(text) {
        return Some(goal_named(labels, text));
    }
    None
}

/// The nearest label of that number: at or before the instruction, or behind it.
fn numbered_goal(labels: &[Label], inst: u32, digits: &[u8], back: bool) -> Option<u32>
    requires { IsTrue (is_number_label digits.now) }
    ensures { result ≡ numbered_goal (map defined labels.now) inst (digits_value 10 digits.now) back }
{
    let Some(n) = label_number(digits) else {
        return None;
    };
    if back {
        goal_back(labels, inst, n)
    } else {
        goal_ahead(labels, inst, n)
    }
}
