ghost use Rattle.std.specs.Prelude.{◌≡◌, ◌+◌, ◌-◌, ◌*◌, ◌/◌, ◌%◌, ◌<◌, ◌≤◌, ◌^◌};
ghost use Rattle.asm_core.specs.Function.{bits_of, modulus_of, dividend_of, shift_count, extended_by_32, value_of};
ghost use Rattle.asm_core.specs.declared.micro_op.Function.{Function};

use crate::arithmetic::{above, bits, cut, cut_word, sign};
use asm_core::Width;

pub fn count(x: u64) -> u32
    ensures is { result ≡ shift_count x }
    ensures small { result < 32 }
{
    (x % 32) as u32
}

/// A number of the width shifted left, with no bit lost.
fn widened(width: Width, x: u64, by: u32) -> u128
    requires { by < 32 }
    ensures { result ≡ x % modulus_of width * 2 ^ by }
{
    u128::from(cut_word(width, x)) << by
}

pub fn shift_left(width: Width, x: u64, y: u64) -> u64
    ensures { result ≡ value_of Function.ShiftLeft width x y 0 }
{
    cut(width, widened(width, x, count(y)))
}

pub fn shift_right(width: Width, x: u64, y: u64) -> u64
    ensures { result ≡ value_of Function.ShiftRight width x y 0 }
{
    cut_word(width, x) >> count(y)
}

/// A signed number of the width with 32 more bits above.
fn extended_by_32(width: Width, x: u64) -> u128
    ensures is { result ≡ extended_by_32 (modulus_of width) x }
    ensures small { result < 2 ^ 96 }
{
    let ones_above = match width {
        Width::B => 1_099_511_627_520,
        Width::W => 281_474_976_645_120,
        Width::L => 18_446_744_069_414_584_320,
        Width::Q => 79_228_162_495_817_593_519_834_398_720,
    };
    if sign(width, x) == 0 {
        u128::from(cut_word(width, x))
    } else {
        u128::from(cut_word(width, x)) + ones_above
    }
}

pub fn shift_arithmetic_right(width: Width, x: u64, y: u64) -> u64
    ensures { result ≡ value_of Function.ShiftArithmeticRight width x y 0 }
{
    cut(width, extended_by_32(width, x) >> count(y))
}

pub fn out_left(width: Width, x: u64, y: u64) -> u64
    ensures { result ≡ value_of Function.OutLeft width x y 0 }
{
    (above(width, widened(width, x, count(y))) % 2) as u64
}

pub fn out_right(width: Width, x: u64, y: u64) -> u64
    ensures { result ≡ value_of Function.OutRight width x y 0 }
{
    let doubled = 2 * u128::from(cut_word(width, x));
    ((doubled >> count(y)) % 2) as u64
}

pub fn out_arithmetic_right(width: Width, x: u64, y: u64) -> u64
    ensures { result ≡ value_of Function.OutArithmeticRight width x y 0 }
{
    let doubled = 2 * extended_by_32(width, x);
    ((doubled >> count(y)) % 2) as u64
}

/// The bits that leave a number of the width at the top, and those that stay, as one number each.
fn left_with(width: Width, x: u64, y: u64, by: u32) -> u64
    requires { by < 32 }
    ensures { result ≡ (x % modulus_of width * 2 ^ by + y % modulus_of width * 2 ^ by / modulus_of width) % modulus_of width }
{
    cut(
        width,
        widened(width, x, by) + above(width, widened(width, y, by)),
    )
}

pub fn shift_double_left(width: Width, x: u64, y: u64, z: u64) -> u64
    ensures { result ≡ value_of Function.ShiftDoubleLeft width x y z }
{
    left_with(width, x, y, count(z))
}

pub fn rotate_left(width: Width, x: u64, y: u64) -> u64
    ensures { result ≡ value_of Function.RotateLeft width x y 0 }
{
    left_with(width, x, x, count(y) % bits(width))
}

/// The number with halves y and x, shifted right.
fn right_with(width: Width, x: u64, y: u64, by: u32) -> u64
    requires { by < 32 }
    ensures { result ≡ dividend_of (modulus_of width) y x / 2 ^ by % modulus_of width }
{
    let high = u128::from(cut_word(width, y));
    let low = u128::from(cut_word(width, x));
    let both = match width {
        Width::B => high * 256 + low,
        Width::W => high * 65536 + low,
        Width::L => high * 4294967296 + low,
        Width::Q => high * 18446744073709551616 + low,
    };
    cut(width, both >> by)
}

pub fn shift_double_right(width: Width, x: u64, y: u64, z: u64) -> u64
    ensures { result ≡ value_of Function.ShiftDoubleRight width x y z }
{
    right_with(width, x, y, count(z))
}

pub fn rotate_right(width: Width, x: u64, y: u64) -> u64
    ensures { result ≡ value_of Function.RotateRight width x y 0 }
{
    right_with(width, x, x, count(y) % bits(width))
}
