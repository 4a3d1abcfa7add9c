ghost use Rattle.std.specs.Prelude.{◌≡◌, ◌+◌, ◌-◌, ◌*◌, ◌/◌, ◌%◌, ◌<◌, ◌≤◌, ◌^◌};
ghost use Rattle.asm_core.specs.Function.{modulus_of, extended};

use crate::arithmetic::{above, cut, cut_word, sign};
use asm_core::Width;

fn product(width: Width, x: u64, y: u64) -> u128
    ensures { result ≡ x % modulus_of width * (y % modulus_of width) }
{
    u128::from(cut_word(width, x)) * u128::from(cut_word(width, y))
}

pub fn product_low(width: Width, x: u64, y: u64) -> u64
    ensures { result ≡ x % modulus_of width * (y % modulus_of width) % modulus_of width }
{
    cut(width, product(width, x, y))
}

pub fn product_high(width: Width, x: u64, y: u64) -> u64
    ensures { result ≡ x % modulus_of width * (y % modulus_of width) / modulus_of width % modulus_of width }
{
    cut(width, above(width, product(width, x, y)))
}

/// A signed number of the width as one of twice as many bits.
fn extended(width: Width, x: u64) -> u128
    ensures { result ≡ extended (modulus_of width) x }
{
    let ones_above = match width {
        Width::B => 65_280,
        Width::W => 4_294_901_760,
        Width::L => 18_446_744_069_414_584_320,
        Width::Q => 340_282_366_920_938_463_444_927_863_358_058_659_840,
    };
    if sign(width, x) == 0 {
        u128::from(cut_word(width, x))
    } else {
        u128::from(cut_word(width, x)) + ones_above
    }
}

pub fn signed_product_high(width: Width, x: u64, y: u64) -> u64
    ensures { result ≡ extended (modulus_of width) x * extended (modulus_of width) y / modulus_of width % modulus_of width }
{
    let product = extended(width, x).wrapping_mul(extended(width, y));
    cut(width, above(width, product))
}
