ghost use Rattle.std.specs.Prelude.{◌≡◌, ◌+◌, ◌/◌, ◌%◌, ◌<◌, ◌^◌};
ghost use Rattle.asm_core.specs.Function.{bits_of, modulus_of, differ, sign_of, sum_of, carry_of, sum_overflow_of, difference_of, borrow_of, difference_overflow_of};

use asm_core::Width;

/// How many values an operand of the width has.
pub fn modulus(width: Width) -> u128
    ensures { result ≡ modulus_of width }
{
    match width {
        Width::B => 256,
        Width::W => 65536,
        Width::L => 4294967296,
        Width::Q => 18446744073709551616,
    }
}

pub fn bits(width: Width) -> u32
    ensures { result ≡ bits_of width }
{
    match width {
        Width::B => 8,
        Width::W => 16,
        Width::L => 32,
        Width::Q => 64,
    }
}

/// A number cut to the width.
pub fn cut(width: Width, x: u128) -> u64
    ensures is { result ≡ x % modulus_of width }
    ensures small { result < modulus_of width }
{
    match width {
        Width::B => (x % 256) as u64,
        Width::W => (x % 65536) as u64,
        Width::L => (x % 4294967296) as u64,
        Width::Q => (x % 18446744073709551616) as u64,
    }
}

pub fn cut_word(width: Width, x: u64) -> u64
    ensures is { result ≡ x % modulus_of width }
    ensures small { result < modulus_of width }
{
    cut(width, u128::from(x))
}

/// What stands above the width.
pub fn above(width: Width, x: u128) -> u128
    ensures { result ≡ x / modulus_of width }
{
    match width {
        Width::B => x / 256,
        Width::W => x / 65536,
        Width::L => x / 4294967296,
        Width::Q => x / 18446744073709551616,
    }
}

pub fn sign(width: Width, x: u64) -> u64
    ensures is { result ≡ sign_of (modulus_of width) x }
    ensures small { result < 2 }
{
    match width {
        Width::B => x % 256 / 128,
        Width::W => x % 65536 / 32768,
        Width::L => x % 4294967296 / 2147483648,
        Width::Q => x / 9223372036854775808,
    }
}

pub fn sum(width: Width, x: u64, y: u64, z: u64) -> u64
    ensures { result ≡ sum_of (modulus_of width) x y z }
{
    cut(
        width,
        u128::from(cut_word(width, x)) + u128::from(cut_word(width, y)) + u128::from(z % 2),
    )
}

pub fn carry(width: Width, x: u64, y: u64, z: u64) -> u64
    ensures { result ≡ carry_of (modulus_of width) x y z }
{
    let sum = u128::from(cut_word(width, x)) + u128::from(cut_word(width, y)) + u128::from(z % 2);
    u64::from(sum >= modulus(width))
}

pub fn difference(width: Width, x: u64, y: u64, z: u64) -> u64
    ensures { result ≡ difference_of (modulus_of width) x y z }
{
    let top = 2 * modulus(width) + u128::from(cut_word(width, x));
    cut(
        width,
        top - u128::from(cut_word(width, y)) - u128::from(z % 2),
    )
}

pub fn borrow(width: Width, x: u64, y: u64, z: u64) -> u64
    ensures { result ≡ borrow_of (modulus_of width) x y z }
{
    let taken = u128::from(cut_word(width, y)) + u128::from(z % 2);
    u64::from(u128::from(cut_word(width, x)) < taken)
}

pub fn differ(a: u64, b: u64) -> u64
    requires { a + b < 2 ^ 64 }
    ensures is { result ≡ differ a b }
    ensures small { result < 2 }
{
    (a + b) % 2
}

pub fn sum_overflow(width: Width, x: u64, y: u64, z: u64) -> u64
    ensures { result ≡ sum_overflow_of (modulus_of width) x y z }
{
    let sum_sign = sign(width, sum(width, x, y, z));
    differ(sign(width, x), sum_sign) * differ(sign(width, y), sum_sign)
}

pub fn difference_overflow(width: Width, x: u64, y: u64, z: u64) -> u64
    ensures { result ≡ difference_overflow_of (modulus_of width) x y z }
{
    let x_sign = sign(width, x);
    differ(x_sign, sign(width, y)) * differ(x_sign, sign(width, difference(width, x, y, z)))
}
