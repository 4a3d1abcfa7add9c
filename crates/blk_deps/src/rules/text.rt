//! The rule on names of single bytes.

ghost use Rattle.std.specs.Prelude.{◌≡◌, ◌<◌, slice_index};
ghost use Rattle.std.specs.List.{list_any};
ghost use Rattle.blk_deps.specs.Ground.{has_bit};
ghost use Rattle.blk_deps.specs.Rules.{is_byte_name, asks_byte_of};
ghost use Rattle.blk_deps.specs.Naming.{lacks_bytes, breaks_by_name};

use super::bits::has_bit;
use asm_core::{Arg, Cell, Place, Slice, Sym};

fn is_byte_name(slice: Slice) -> bool
    ensures { result ≡ is_byte_name slice }
{
    match slice {
        Slice::Low8 | Slice::High8 => true,
        Slice::Low16 | Slice::All => false,
    }
}

fn asks_byte_of(k: u8, arg: &Arg) -> bool
    ensures { result ≡ asks_byte_of k arg.now }
{
    match arg {
        Arg::Register(Place::Operand(j), slice) => *j == k && is_byte_name(*slice),
        _ => false,
    }
}

/// Bit q of the p-th word.
fn shares(sharers: &[u64], p: usize, q: usize) -> bool
    requires { q < 64 }
    ensures { result ≡ has_bit (slice_index sharers.now p) q }
{
    match sharers.get(p) {
        Some(others) => has_bit(*others, q),
        None => false,
    }
}

/// Whether the place may be in esi, edi or ebp, where single bytes have no name.
fn may_lack_bytes(sharers: &[u64], p: usize) -> bool
    ensures { result ≡ lacks_bytes sharers.now p }
{
    shares(sharers, p, 4) || (shares(sharers, p, 5) || shares(sharers, p, 6))
}

fn asks_byte(k: u8, line: &Sym) -> bool
    ensures { result ≡ list_any (asks_byte_of k) line.now.args }
{
    line.args.as_slice().iter().any(|arg| asks_byte_of(k, arg))
}

/// Whether the instruction names a byte of an operand that may be where single bytes have no name. Bit q of word p of `sharers` tells
/// whether places p and q may be in one register.
pub fn breaks_u2(sharers: &[u64], line: &Sym, cell: Cell) -> bool
    ensures { result ≡ breaks_by_name sharers.now line.now cell }
{
    match cell {
        Cell::Operand(k) => asks_byte(k, line) && may_lack_bytes(sharers, 7 + k as usize),
        _ => false,
    }
}
