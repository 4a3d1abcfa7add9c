ghost use Rattle.std.specs.Prelude.{◌≡◌, ◌+◌, ◌*◌, ◌/◌, ◌%◌, ◌<◌, ◌≤◌, ◌≢◌, ◌^◌, Bool, IsTrue};
ghost use Rattle.asm_core.specs.Function.{modulus_of, differ, sign_of, dividend_of, dividend_size, magnitude_of, with_sign, signed_quotient_size, value_of};
ghost use Rattle.asm_core.specs.declared.micro_op.Function.{Function};

use crate::arithmetic::{cut, cut_word, differ, modulus, sign};
use asm_core::Width;

fn dividend(width: Width, high: u64, low: u64) -> u128
    ensures { result ≡ dividend_of (modulus_of width) high low }
{
    let high = u128::from(cut_word(width, high));
    let low = u128::from(cut_word(width, low));
    match width {
        Width::B => high * 256 + low,
        Width::W => high * 65536 + low,
        Width::L => high * 4294967296 + low,
        Width::Q => high * 18446744073709551616 + low,
    }
}

pub fn quotient(width: Width, x: u64, y: u64, z: u64) -> u64
    ensures { result ≡ value_of Function.Quotient width x y z }
{
    let divisor = cut_word(width, z);
    if divisor == 0 {
        return 0;
    }
    cut(width, dividend(width, x, y) / u128::from(divisor))
}

pub fn remainder(width: Width, x: u64, y: u64, z: u64) -> u64
    ensures { result ≡ value_of Function.Remainder width x y z }
{
    let divisor = cut_word(width, z);
    if divisor == 0 {
        return 0;
    }
    cut(width, dividend(width, x, y) % u128::from(divisor))
}

pub fn quotient_overflow(width: Width, x: u64, z: u64) -> u64
    ensures { result ≡ value_of Function.QuotientOverflow width x 0 z }
{
    u64::from(cut_word(width, x) >= cut_word(width, z))
}

/// The size of a signed number of the width without its sign.
fn magnitude(width: Width, x: u64) -> u128
    ensures is { result ≡ magnitude_of (modulus_of width) x }
    ensures some { x % modulus_of width ≢ 0 → 1 ≤ result }
{
    let x_cut = u128::from(cut_word(width, x));
    if sign(width, x) == 0 {
        x_cut
    } else {
        modulus(width) - x_cut
    }
}

/// The size of the signed number with these halves.
fn dividend_size(width: Width, high: u64, low: u64) -> u128
    ensures { result ≡ dividend_size (modulus_of width) high low }
{
    let size = dividend(width, high, low);
    if sign(width, high) == 0 {
        return size;
    }
    match width {
        Width::B => 65536 - size,
        Width::W => 4294967296 - size,
        Width::L => 18446744073709551616 - size,
        Width::Q => (u128::MAX - size) + 1,
    }
}

/// The size with that sign.
fn with_sign(width: Width, sign: u64, size: u128) -> u64
    ensures { result ≡ with_sign (modulus_of width) sign size }
{
    if sign == 0 {
        return cut(width, size);
    }
    cut(width, modulus(width) - u128::from(cut(width, size)))
}

pub fn signed_quotient(width: Width, x: u64, y: u64, z: u64) -> u64
    ensures { result ≡ value_of Function.SignedQuotient width x y z }
{
    if cut_word(width, z) == 0 {
        return 0;
    }
    let size = dividend_size(width, x, y) / magnitude(width, z);
    with_sign(width, differ(sign(width, x), sign(width, z)), size)
}

pub fn signed_remainder(width: Width, x: u64, y: u64, z: u64) -> u64
    ensures { result ≡ value_of Function.SignedRemainder width x y z }
{
    if cut_word(width, z) == 0 {
        return 0;
    }
    let size = dividend_size(width, x, y) % magnitude(width, z);
    with_sign(width, sign(width, x), size)
}

pub fn signed_quotient_overflow(width: Width, x: u64, y: u64, z: u64) -> u64
    ensures { result ≡ value_of Function.SignedQuotientOverflow width x y z }
{
    if cut_word(width, z) == 0 {
        return 1;
    }
    let size = dividend_size(width, x, y) / magnitude(width, z);
    let limit = modulus(width) / 2 + u128::from(differ(sign(width, x), sign(width, z)));
    u64::from(size >= limit)
}
