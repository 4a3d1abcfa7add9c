ghost use Rattle.std.specs.Prelude.{◌≡◌, ◌≤◌};
ghost use Rattle.asm_core.specs.declared.micro_op.Bytes.{Bytes};
ghost use Rattle.asm_core.specs.MicroOps.{count_of, first_of, sized, within, part_of, with_part};

use asm_core::{Bytes, Slice, Width};

/// How many bytes.
pub fn count(width: Width, bytes: Bytes) -> u8
    ensures is { result ≡ count_of width bytes }
    ensures few { result ≤ 8 }
{
    match bytes {
        Bytes::Whole => size(width),
        Bytes::Byte0 | Bytes::Byte1 | Bytes::Byte2 | Bytes::Byte3 => 1,
        Bytes::Low16 | Bytes::High16 => 2,
        Bytes::Upper24 => 3,
        Bytes::All => 4,
    }
}

/// How many bytes an operand of the width has.
pub fn size(width: Width) -> u8
    ensures is { result ≡ count_of width Bytes.Whole }
    ensures few { result ≤ 8 }
{
    match width {
        Width::B => 1,
        Width::W => 2,
        Width::L => 4,
        Width::Q => 8,
    }
}

/// The first byte.
pub fn first(bytes: Bytes) -> u8
    ensures is { result ≡ first_of bytes }
    ensures few { result ≤ 3 }
{
    match bytes {
        Bytes::Byte1 | Bytes::Upper24 => 1,
        Bytes::Byte2 | Bytes::High16 => 2,
        Bytes::Byte3 => 3,
        Bytes::Whole | Bytes::Byte0 | Bytes::Low16 | Bytes::All => 0,
    }
}

/// The bytes of a register that are as many as the width says.
pub fn sized(width: Width, bytes: Bytes) -> Bytes
    ensures { result ≡ sized width bytes }
{
    match (bytes, width) {
        (Bytes::Whole, Width::B) => Bytes::Byte0,
        (Bytes::Whole, Width::W) => Bytes::Low16,
        (Bytes::Whole, _) => Bytes::All,
        _ => bytes,
    }
}

/// Bytes of a register operand, counted from the first that its name names.
pub fn within(slice: Slice, bytes: Bytes) -> Bytes
    ensures { result ≡ within slice bytes }
{
    match (bytes, slice) {
        (Bytes::Whole, Slice::Low8) => Bytes::Byte0,
        (Bytes::Whole, Slice::Low16) => Bytes::Low16,
        (Bytes::Whole, Slice::All) => Bytes::All,
        (_, Slice::High8) => Bytes::Byte1,
        _ => bytes,
    }
}

/// The value of these bytes of a register.
pub fn part(bytes: Bytes, v: u32) -> u32
    ensures { result ≡ part_of bytes v }
{
    match bytes {
        Bytes::Whole | Bytes::All => v,
        Bytes::Byte0 => v % 256,
        Bytes::Byte1 => v / 256 % 256,
        Bytes::Byte2 => v / 65536 % 256,
        Bytes::Byte3 => v / 16777216,
        Bytes::Low16 => v % 65536,
        Bytes::High16 => v / 65536,
        Bytes::Upper24 => v / 256,
    }
}

/// The register with these bytes of a value in them.
pub fn with_part(bytes: Bytes, v: u64, old: u32) -> u32
    ensures { result ≡ with_part bytes v old }
{
    match bytes {
        Bytes::Whole | Bytes::All => (v % 4294967296) as u32,
        Bytes::Byte0 => old / 256 * 256 + (v % 256) as u32,
        Bytes::Byte1 => old / 65536 * 65536 + (v % 256) as u32 * 256 + old % 256,
        Bytes::Byte2 => old / 16777216 * 16777216 + (v % 256) as u32 * 65536 + old % 65536,
        Bytes::Byte3 => (v % 256) as u32 * 16777216 + old % 16777216,
        Bytes::Low16 => old / 65536 * 65536 + (v % 65536) as u32,
        Bytes::High16 => (v % 65536) as u32 * 65536 + old % 65536,
        Bytes::Upper24 => (v % 16777216) as u32 * 256 + old % 256,
    }
}
