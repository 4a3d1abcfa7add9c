//! The symbols of a constraint.

ghost use Rattle.std.specs.Prelude.{◌≡◌, ◌<◌, ◌≤◌, ◌+◌, ◌∷◌, min, length, position, IfOk, IfSome};
ghost use Rattle.std.specs.List.{prefix_len};
ghost use Rattle.std.specs.Char.{is_ascii_digit};
ghost use Rattle.asm_core.specs.Constraint.{letter_of, same, number_of, output_numbered, has_name, output_named, is_close_bracket, bracketed, byte_symbol, symbol_at, symbols_from, is_comma, alternatives_in};

use asm_core::{Items, Letter, Memory, Reg, Symbol};
use std::alloc::Global;

/// The letter that a byte is.
#[tactic(auto, unfolding(asm_core::specs::Constraint::letter_of))]
fn letter_of(b: u8) -> Option<Letter>
    ensures { result ≡ letter_of b }
{
    match b {
        b'a' => Some(Letter::One(Reg::Eax)),
        b'b' => Some(Letter::One(Reg::Ebx)),
        b'c' => Some(Letter::One(Reg::Ecx)),
        b'd' => Some(Letter::One(Reg::Edx)),
        b'S' => Some(Letter::One(Reg::Esi)),
        b'D' => Some(Letter::One(Reg::Edi)),
        b'A' => Some(Letter::Pair),
        b'q' | b'Q' => Some(Letter::ByteRegister),
        b'r' => Some(Letter::AnyRegister),
        b'm' => Some(Letter::Memory),
        b'i' | b'n' => Some(Letter::Number),
        b'I' => Some(Letter::WordShift),
        b'J' => Some(Letter::LongShift),
        b'K' => Some(Letter::SignedByte),
        b'M' => Some(Letter::AddressShift),
        b'N' => Some(Letter::UnsignedByte),
        b'g' => Some(Letter::General),
        _ => None,
    }
}

/// The symbol that a byte is.
#[tactic(auto, unfolding(asm_core::specs::Constraint::byte_symbol))]
fn byte_symbol(b: u8) -> Symbol
    ensures { result ≡ byte_symbol b }
{
    match b {
        b'&' => Symbol::Early,
        b'=' | b'+' => Symbol::Sign,
        _ => match letter_of(b) {
            Some(letter) => Symbol::Letter(letter),
            None => Symbol::Other,
        },
    }
}

/// Whether an operand has this name.
pub fn has_name(text: &[u8], name: &Option<Items<u8>>) -> bool
    ensures { result ≡ has_name text.now name.now }
{
    match name {
        Some(name) => name.as_slice() == text,
        None => false,
    }
}

/// The place of the first operand of that name.
fn place_of_name(outputs: &[Option<Items<u8>>], text: &[u8]) -> Option<usize>
    ensures is { result ≡ position (has_name text.now) outputs.now }
    ensures within { IfSome result (λ k. k < length outputs.now) }
{
    outputs.iter().position(|name| has_name(text, name))
}

/// The output of that name.
#[tactic(auto, unfolding(asm_core::specs::Constraint::output_named))]
fn output_named(outputs: &[Option<Items<u8>>], text: &[u8]) -> Option<u8>
    requires { length outputs.now ≤ 30 }
    ensures { result ≡ output_named outputs.now text.now }
{
    match place_of_name(outputs, text) {
        Some(number) => Some(number as u8),
        None => None,
    }
}

/// The number that a digit and those behind it write, or 255 where it is greater.
fn number_of(first: u8, digits: &[u8]) -> u8
    ensures { result ≡ min 255 (number_of (first ∷ digits.now)) }
{
    let mut number = first.saturating_sub(b'0');
    for digit in digits {
        number = number
            .saturating_mul(10)
            .saturating_add(digit.saturating_sub(b'0'));
    }
    number
}

/// The output of the number that a digit and those behind it write.
#[tactic(auto, unfolding(asm_core::specs::Constraint::output_numbered))]
fn output_numbered(outputs: &[Option<Items<u8>>], first: u8, digits: &[u8]) -> Option<u8>
    requires { length outputs.now ≤ 30 }
    ensures { result ≡ output_numbered outputs.now (first ∷ digits.now) }
{
    let number = number_of(first, digits);
    if (number as usize) < outputs.len() {
        Some(number)
    } else {
        None
    }
}

/// How many digits the text begins with.
fn digits_of(text: &[u8]) -> usize
    ensures is { result ≡ prefix_len is_ascii_digit text.now }
    ensures within { result ≤ length text.now }
{
    text.iter().take_while(|b| b.is_ascii_digit()).count()
}

/// Where the text has its first closing bracket.
fn closing_bracket(text: &[u8]) -> Option<usize>
    ensures is { result ≡ position is_close_bracket text.now }
    ensures within { IfSome result (λ k. k < length text.now) }
{
    text.iter().position(|b| *b == b']')
}

/// The symbol that an opening bracket begins, and how many bytes behind it belong to it.
fn bracketed(outputs: &[Option<Items<u8>>], behind: &[u8]) -> (Symbol, usize)
    requires { length outputs.now ≤ 30 }
    ensures is { result ≡ bracketed outputs.now behind.now (position is_close_bracket behind.now) }
    ensures within { result.1 ≤ length behind.now }
{
    match closing_bracket(behind) {
        Some(close) => (
            Symbol::Tie(output_named(outputs, &behind[..close])),
            close + 1,
        ),
        None => (Symbol::Other, behind.len()),
    }
}

/// The symbol that begins with a byte, and how many of the bytes behind it belong to it.
#[tactic(auto, unfolding(asm_core::specs::Constraint::symbol_at))]
fn symbol_at(outputs: &[Option<Items<u8>>], first: u8, behind: &[u8]) -> (Symbol, usize)
    requires { length outputs.now ≤ 30 }
    ensures is { result ≡ symbol_at outputs.now first behind.now }
    ensures within { result.1 ≤ length behind.now }
{
    if first.is_ascii_digit() {
        let digits = digits_of(behind);
        let output = output_numbered(outputs, first, &behind[..digits]);
        return (Symbol::Tie(output), digits);
    }
    if first == b'[' {
        return bracketed(outputs, behind);
    }
    (byte_symbol(first), 0)
}

/// The symbols of one alternative.
fn symbols(
    alloc: Global,
    outputs: &[Option<Items<u8>>],
    text: &[u8],
) -> Result<Items<Symbol>, Memory>
    requires { length outputs.now ≤ 30 }
    ensures { IfOk result (λ made. made ≡ symbols_from outputs.now 0 text.now) }
{
    let mut made = Items::new(alloc);
    let mut at = 0;
    while at < text.len() {
        let (symbol, taken) = symbol_at(outputs, text[at], &text[at + 1..]);
        made.push(symbol)?;
        at += 1 + taken;
    }
    Ok(made)
}

/// Where the text has its first comma.
fn comma_in(text: &[u8]) -> Option<usize>
    ensures is { result ≡ position is_comma text.now }
    ensures within { IfSome result (λ k. k < length text.now) }
{
    text.iter().position(|b| *b == b',')
}

/// The alternatives, which commas part.
#[tactic(auto, unfolding(asm_core::specs::Constraint::alternatives_in))]
pub fn alternatives(
    alloc: Global,
    outputs: &[Option<Items<u8>>],
    text: &[u8],
) -> Result<Items<Items<Symbol>>, Memory>
    requires { length outputs.now ≤ 30 }
    ensures { IfOk result (λ made. made ≡ alternatives_in outputs.now text.now) }
{
    let mut made = Items::new(alloc);
    let mut at = 0;
    while let Some(comma) = comma_in(&text[at..]) {
        made.push(symbols(alloc, outputs, &text[at..at + comma])?)?;
        at += comma + 1;
    }
    made.push(symbols(alloc, outputs, &text[at..])?)?;
    Ok(made)
}
