//! Digits, and the numbers that they stand for.

ghost use Rattle.std.specs.Prelude.{◌≡◌, ◌+◌, ◌*◌, ◌≤◌, length};
ghost use Rattle.std.specs.List.{prefix_len};
ghost use Rattle.c_literals.specs.Digits.{digit_value, fitting, is_digit, number, radix};

use crate::base::{Base, digit_value};

/// How many digits the bytes begin with.
pub fn digit_count(bytes: &[u8], base: Base) -> usize
    ensures is { result ≡ prefix_len (is_digit base) bytes.now }
    ensures within { result ≤ length bytes.now }
{
    bytes.iter().take_while(|b| base.has_digit(**b)).count()
}

/// The number with one digit more, if it is below 2^64.
fn with_digit(value: u64, base: Base, digit: u8) -> Option<u64>
    ensures { result ≡ fitting 64 (value * radix base + digit_value digit) }
{
    value
        .checked_mul(base.radix())?
        .checked_add(u64::from(digit_value(digit)))
}

/// The number that the digits stand for, if it is below 2^64.
#[tactic(auto, using(crate::proofs::NumberLemmas::number_steps))]
pub fn number(digits: &[u8], base: Base) -> Option<u64>
    ensures { result ≡ fitting 64 (number base digits.now) }
{
    let mut value = 0;
    for digit in digits {
        value = with_digit(value, base, *digit)?;
    }
    Some(value)
}
