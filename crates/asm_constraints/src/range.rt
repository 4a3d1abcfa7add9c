//! The numbers that an alternative allows.

ghost use Rattle.std.specs.Prelude.{◌≡◌};
ghost use Rattle.asm_core.specs.Interface.{letter_range, symbol_range, joined, range_of, numbers_of_size, cut_to, has_known, kept_range, range_in, numbers_of};

use asm_core::{Letter, Symbol};

/// The least and the greatest number.
type Range = (i64, i64);

fn letter_range(letter: Letter) -> Option<Range>
    ensures { result ≡ letter_range letter }
{
    match letter {
        Letter::Number | Letter::General => Some((i32::MIN as i64, i32::MAX as i64)),
        Letter::WordShift => Some((0, 31)),
        Letter::LongShift => Some((0, 63)),
        Letter::SignedByte => Some((-128, 127)),
        Letter::AddressShift => Some((0, 3)),
        Letter::UnsignedByte => Some((0, 255)),
        _ => None,
    }
}

fn symbol_range(symbol: Symbol) -> Option<Range>
    ensures { result ≡ symbol_range symbol }
{
    match symbol {
        Symbol::Letter(letter) => letter_range(letter),
        _ => None,
    }
}

/// The least range with all numbers of both.
fn joined(range: Option<Range>, other: Option<Range>) -> Option<Range>
    ensures { result ≡ joined range other }
{
    match (range, other) {
        (Some(range), Some(other)) => Some((range.0.min(other.0), range.1.max(other.1))),
        (Some(range), None) => Some(range),
        (None, other) => other,
    }
}

/// The one range of all letters.
#[tactic(auto, unfolding(asm_core::specs::Interface::range_of))]
fn range_of(alternative: &[Symbol]) -> Option<Range>
    ensures { result ≡ range_of alternative.now }
{
    let mut range = None;
    for symbol in alternative {
        range = joined(range, symbol_range(*symbol));
    }
    range
}

/// The signed numbers of so many bytes.
fn numbers_of_size(size: u32) -> Range
    ensures { result ≡ numbers_of_size size }
{
    match size {
        1 => (i8::MIN as i64, i8::MAX as i64),
        2 => (i16::MIN as i64, i16::MAX as i64),
        _ => (i32::MIN as i64, i32::MAX as i64),
    }
}

/// The numbers of a range that a whole has.
fn cut_to(whole: Range, range: Range) -> Range
    ensures { result ≡ cut_to whole range }
{
    (range.0.max(whole.0), range.1.min(whole.1))
}

/// Whether a known number is in the range.
fn has_known(known: Option<i64>, range: Range) -> bool
    ensures { result ≡ has_known known range }
{
    match known {
        Some(number) => !(number < range.0 || range.1 < number),
        None => true,
    }
}

fn kept_range(known: Option<i64>, range: Range) -> Option<Range>
    ensures { result ≡ kept_range known range }
{
    if has_known(known, range) {
        Some(range)
    } else {
        None
    }
}

fn range_in(size: u32, known: Option<i64>, range: Option<Range>) -> Option<Range>
    ensures { result ≡ range_in size known range }
{
    match range {
        Some(range) => kept_range(known, cut_to(numbers_of_size(size), range)),
        None => None,
    }
}

/// The numbers that an alternative allows an operand of that size and known value: none where it is an output.
#[tactic(auto, unfolding(asm_core::specs::Interface::numbers_of))]
pub fn numbers_of(
    output: bool,
    size: u32,
    known: Option<i64>,
    alternative: &[Symbol],
) -> Option<Range>
    ensures { result ≡ numbers_of output size known alternative.now }
{
    if output {
        None
    } else {
        range_in(size, known, range_of(alternative))
    }
}
