//! Numbers as they are written.

ghost use Rattle.std.specs.Prelude.{◌≡◌, ◌≤◌};
ghost use Rattle.asm_core.specs.Reading.Written.{as_negative, as_positive, magnitude_of, not_above, number_of, numeral_value};
ghost use Rattle.att_reader.specs.Number.{more_digits};

/// The number with one digit more, where it is a digit of the radix and the number isn't above the limit.
fn more_digits(radix: u32, limit: u32, value: u32, digit: u8) -> Option<u32>
    requires { (2 ≤ radix) × (radix ≤ 36) }
    ensures { result ≡ more_digits radix limit value digit }
{
    let digit = char::from(digit).to_digit(radix)?;
    let more = value.checked_mul(radix)?.checked_add(digit)?;
    if more <= limit { Some(more) } else { None }
}

/// The number that the digits write, where there are nothing but digits and the number isn't above the limit.
#[tactic(auto, using(crate::proofs::NumberLemmas::numeral_steps))]
pub fn numeral(radix: u32, limit: u32, digits: &[u8]) -> Option<u32>
    requires { (2 ≤ radix) × (radix ≤ 36) }
    ensures { result ≡ not_above (numeral_value radix digits.now) limit }
{
    if digits.is_empty() {
        return None;
    }
    let mut value = 0;
    for digit in digits {
        value = more_digits(radix, limit, value, *digit)?;
    }
    Some(value)
}

/// Hexadecimal behind `0x`, binary behind `0b`, octal behind another `0`, else decimal.
#[tactic(auto, unfolding(asm_core::specs::Reading::Written::magnitude_of))]
fn magnitude_of(limit: u32, text: &[u8]) -> Option<u32>
    ensures { result ≡ not_above (magnitude_of text.now) limit }
{
    match text {
        [b'0', b'x', digits @ ..] => numeral(16, limit, digits),
        [b'0', b'b', digits @ ..] => numeral(2, limit, digits),
        [b'0', digits @ ..] if !digits.is_empty() => numeral(8, limit, digits),
        _ => numeral(10, limit, text),
    }
}

fn as_negative(n: Option<u32>) -> Option<i64>
    ensures { result ≡ as_negative n }
{
    match n {
        Some(n) => Some(-i64::from(n)),
        None => None,
    }
}

fn as_positive(n: Option<u32>) -> Option<i64>
    ensures { result ≡ as_positive n }
{
    match n {
        Some(n) => Some(i64::from(n)),
        None => None,
    }
}

/// A number from -2^31 to 2^32 - 1, with or without a `-`.
#[tactic(auto, unfolding(asm_core::specs::Reading::Written::number_of))]
pub fn number_of(text: &[u8]) -> Option<i64>
    ensures { result ≡ number_of text.now }
{
    match text {
        [b'-', digits @ ..] => as_negative(magnitude_of(1 << 31, digits)),
        _ => as_positive(magnitude_of(u32::MAX, text)),
    }
}
