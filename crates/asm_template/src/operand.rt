//! Operands as they are written in a template: a number, or a name in brackets.

ghost use Rattle.std.specs.Prelude.{◌≡◌, ◌≤◌, ◌<◌, ◌+◌, IsTrue, IfSome, All, true, Bool, length, slice_index, drop};
ghost use Rattle.std.specs.Str.Parse.{digits_value};
ghost use Rattle.std.specs.List.{prefix_len};
ghost use Rattle.asm_core.specs.TemplateForms.{continues_name, digits_end, is_digit, is_named, modifier_of, name_end, operand_named, operand_numbered, written_at, written_name, written_number};

use crate::bytes::{byte_at, continues_name, is_digit};
use asm_core::{Items, Modifier, WrittenOperand};

/// The modifier of that letter (GCC manual, "x86 Operand Modifiers").
pub fn modifier_of(b: u8) -> Option<Modifier>
    ensures { result ≡ modifier_of b }
{
    match b {
        b'b' => Some(Modifier::B),
        b'w' => Some(Modifier::W),
        b'k' => Some(Modifier::K),
        b'h' => Some(Modifier::H),
        b'c' => Some(Modifier::C),
        _ => None,
    }
}

/// How many digits stand first.
fn digit_len(bytes: &[u8]) -> usize
    ensures is { result ≡ prefix_len is_digit bytes.now }
    ensures within { result ≤ length bytes.now }
{
    bytes.iter().take_while(|b| is_digit(**b)).count()
}

/// How many bytes of a name stand first.
fn name_len(bytes: &[u8]) -> usize
    ensures is { result ≡ prefix_len continues_name bytes.now }
    ensures within { result ≤ length bytes.now }
{
    bytes.iter().take_while(|b| continues_name(**b)).count()
}

/// The end of the digits from `i` on.
fn digits_end(bytes: &[u8], i: usize) -> usize
    requires { i ≤ length bytes.now }
    ensures is { result ≡ digits_end bytes.now i }
    ensures within { (i ≤ result) × (result ≤ length bytes.now) }
{
    i + digit_len(&bytes[i..])
}

/// The end of the bytes of a name from `i` on.
fn name_end(bytes: &[u8], i: usize) -> usize
    requires { i ≤ length bytes.now }
    ensures is { result ≡ name_end bytes.now i }
    ensures within { (i ≤ result) × (result ≤ length bytes.now) }
{
    i + name_len(&bytes[i..])
}

/// Whether the operand has that name.
fn is_named(name: &[u8], operand: &Option<Items<u8>>) -> bool
    ensures { result ≡ is_named name.now operand.now }
{
    match operand {
        Some(other) => name == other.as_slice(),
        None => false,
    }
}

/// The number of the first operand of that name.
fn first_named(names: &[Option<Items<u8>>], name: &[u8]) -> Option<usize>
    ensures is { result ≡ operand_named names.now name.now }
    ensures within { IfSome result (λ k. k < length names.now) }
{
    names.iter().position(|operand| is_named(name, operand))
}

/// The first operand of that name.
fn operand_named(names: &[Option<Items<u8>>], name: &[u8]) -> Option<u8>
    requires { length names.now ≤ 30 }
    ensures { result ≡ operand_named names.now name.now }
{
    match first_named(names, name) {
        Some(number) => Some(number as u8),
        None => None,
    }
}

/// The operand of the number that the digits stand for, if it is there.
#[tactic(auto, using(crate::proofs::OperandLemmas::number_steps))]
fn operand_numbered(names: &[Option<Items<u8>>], digits: &[u8]) -> Option<u8>
    requires few { length names.now ≤ 30 }
    requires some { 0 < length digits.now }
    requires digits { All (λ b. is_digit b ≡ true) digits.now }
    ensures { result ≡ operand_numbered names.now (digits_value 10 digits.now) }
{
    let mut number = 0;
    for digit in digits {
        number = number * 10 + usize::from(*digit - b'0');
        if number >= names.len() {
            return None;
        }
    }
    Some(number as u8)
}

/// The operand that is written by digits from `i` on.
#[tactic(auto, using(crate::proofs::OperandLemmas::digit_steps))]
fn written_number(bytes: &[u8], names: &[Option<Items<u8>>], i: usize) -> WrittenOperand
    requires few { length names.now ≤ 30 }
    requires digit { IsTrue (is_digit (slice_index bytes.now i)) }
    requires within { i < length bytes.now }
    ensures is { result ≡ written_number bytes.now names.now i }
    ensures within { (i ≤ result.end) × (result.end ≤ length bytes.now) }
{
    let end = digits_end(bytes, i);
    WrittenOperand {
        operand: operand_numbered(names, &bytes[i..end]),
        end,
    }
}

/// The operand whose name stands from `i` on, behind its `[`.
fn written_name(bytes: &[u8], names: &[Option<Items<u8>>], i: usize) -> Option<WrittenOperand>
    requires few { length names.now ≤ 30 }
    requires within { i ≤ length bytes.now }
    ensures is { result ≡ written_name bytes.now names.now i }
    ensures within { IfSome result (λ w. (i ≤ w.end) × (w.end ≤ length bytes.now)) }
{
    let end = name_end(bytes, i);
    if i < end && !is_digit(bytes[i]) && byte_at(bytes, end) == b']' {
        return Some(WrittenOperand {
            operand: operand_named(names, &bytes[i..end]),
            end: end + 1,
        });
    }
    None
}

/// The operand that is written from `i` on, if one is.
#[tactic(auto, unfolding(asm_core::specs::TemplateForms::written_at))]
pub fn written_at(bytes: &[u8], names: &[Option<Items<u8>>], i: usize) -> Option<WrittenOperand>
    requires { length names.now ≤ 30 }
    ensures is { result ≡ written_at bytes.now names.now i }
    ensures within { IfSome result (λ w. (i < w.end + 1) × (w.end ≤ length bytes.now)) }
{
    let b = byte_at(bytes, i);
    if is_digit(b) {
        return Some(written_number(bytes, names, i));
    }
    if b == b'[' {
        return written_name(bytes, names, i + 1);
    }
    None
}
