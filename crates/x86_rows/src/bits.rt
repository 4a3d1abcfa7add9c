ghost use Rattle.std.specs.Prelude.{◌≡◌, ◌+◌, ◌-◌, ◌*◌, ◌/◌, ◌%◌, ◌<◌, ◌≤◌, ◌^◌};
ghost use Rattle.asm_core.specs.Function.{bits_of, modulus_of, value_of};
ghost use Rattle.asm_core.specs.declared.inst.Width.{Width};
ghost use Rattle.asm_core.specs.declared.micro_op.Function.{Function};

use crate::arithmetic::{bits, cut, cut_word, differ, sign};
use asm_core::Width;

/// The place of a bit, modulo the width.
fn place(width: Width, y: u64) -> u32
    ensures is { result ≡ y % bits_of width }
    ensures small { result < 64 }
{
    (y % u64::from(bits(width))) as u32
}

pub fn bit(width: Width, x: u64, y: u64) -> u64
    ensures is { result ≡ value_of Function.Bit width x y 0 }
    ensures small { result < 2 }
{
    (cut_word(width, x) >> place(width, y)) % 2
}

pub fn bit_set(width: Width, x: u64, y: u64) -> u64
    ensures { result ≡ value_of Function.BitSet width x y 0 }
{
    cut_word(width, x) | (1 << place(width, y))
}

pub fn bit_complement(width: Width, x: u64, y: u64) -> u64
    ensures { result ≡ value_of Function.BitComplement width x y 0 }
{
    cut_word(width, x) ^ (1 << place(width, y))
}

pub fn bit_reset(width: Width, x: u64, y: u64) -> u64
    ensures { result ≡ value_of Function.BitReset width x y 0 }
{
    let x_cut = cut_word(width, x);
    let weight = 1 << place(width, y);
    if bit(width, x, y) == 0 {
        x_cut
    } else {
        x_cut.saturating_sub(weight)
    }
}

pub fn parity(x: u64) -> u64
    ensures { result ≡ value_of Function.Parity Width.B x 0 0 }
{
    u64::from((x % 256).count_ones() + 1) % 2
}

pub fn top_bits_differ(width: Width, x: u64) -> u64
    ensures { result ≡ value_of Function.TopBitsDiffer width x 0 0 }
{
    let doubled = match width {
        Width::B => x % 256 / 64 % 2,
        Width::W => x % 65536 / 16384 % 2,
        Width::L => x % 4294967296 / 1073741824 % 2,
        Width::Q => x / 4611686018427387904 % 2,
    };
    differ(sign(width, x), doubled)
}

pub fn scan_forward(width: Width, x: u64) -> u64
    ensures { result ≡ value_of Function.ScanForward width x 0 0 }
{
    u64::from(cut_word(width, x).trailing_zeros())
}

pub fn scan_reverse(width: Width, x: u64) -> u64
    ensures { result ≡ value_of Function.ScanReverse width x 0 0 }
{
    63_u64.saturating_sub(u64::from(cut_word(width, x).leading_zeros()))
}

pub fn index_step(width: Width, x: u64, y: u64) -> u64
    ensures { result ≡ value_of Function.IndexStep width x y 0 }
{
    let size = u64::from(bits(width) / 8);
    let index = x % 4294967296;
    if y.is_multiple_of(2) {
        (index + size) % 4294967296
    } else {
        (index + 4294967296 - size) % 4294967296
    }
}

pub fn join(x: u64, y: u64) -> u64
    ensures { result ≡ value_of Function.Join Width.Q x y 0 }
{
    x % 4294967296 + y % 4294967296 * 4294967296
}

pub fn all_ones(width: Width) -> u64
    ensures { result ≡ modulus_of width - 1 }
{
    cut(width, u128::from(u64::MAX))
}
