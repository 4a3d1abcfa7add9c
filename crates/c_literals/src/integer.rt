//! Integer constants.

ghost use Rattle.std.specs.Prelude.{◌≡◌, ◌≤◌, length, Some, IfSome};
ghost use Rattle.c_literals.specs.Integers.{base_of, body_of, constant, first_fit, unsigned_types, decimal_types, other_types, types_of, integer_constant, IsOfItsType};

use crate::base::Base;
use crate::number::{digit_count, number};
use crate::suffix::{Rank, Suffix, suffix_of};

/// An integer constant: its type by size and sign, and its value (C11 6.4.4.1).
#[derive(Clone, Copy, Debug, PartialEq, Eq)]
pub struct IntegerConstant {
    /// The size of its type in bytes: 4 or 8.
    pub size: u32,
    pub signed: bool,
    pub value: u64,
}

/// The greatest values of int and long, of unsigned int and unsigned long, and of long long.
const INT_MAX: u64 = 0x7fff_ffff;

const UNSIGNED_INT_MAX: u64 = 0xffff_ffff;

const LONG_LONG_MAX: u64 = 0x7fff_ffff_ffff_ffff;

fn constant(size: u32, signed: bool, value: u64) -> IntegerConstant
    ensures { result ≡ constant size signed value }
{
    IntegerConstant {
        size,
        signed,
        value,
    }
}

/// The base of a constant, by how it begins, and what stands behind its `0x`, if it has one.
fn split_base(bytes: &[u8]) -> (Base, &[u8])
    ensures base { result.0 ≡ base_of bytes.now }
    ensures body { result.1.now ≡ body_of bytes.now }
{
    match bytes {
        [b'0', b'x' | b'X', body @ ..] => (Base::Hexadecimal, body),
        [b'0', ..] => (Base::Octal, bytes),
        _ => (Base::Decimal, bytes),
    }
}

/// The constant of this value with an unsigned suffix.
#[tactic(auto, using(crate::proofs::IntegerLemmas::unsigned_steps))]
fn unsigned_fit(value: u64, rank: Rank) -> IntegerConstant
    ensures { first_fit value (unsigned_types rank) ≡ Some result }
{
    if rank.is_short() && value <= UNSIGNED_INT_MAX {
        return constant(4, false, value);
    }
    constant(8, false, value)
}

/// The decimal constant of this value with no unsigned suffix.
#[tactic(auto, using(crate::proofs::IntegerLemmas::decimal_steps))]
fn decimal_fit(value: u64, rank: Rank) -> Option<IntegerConstant>
    ensures { result ≡ first_fit value (decimal_types rank) }
{
    if rank.is_short() && value <= INT_MAX {
        return Some(constant(4, true, value));
    }
    if value <= LONG_LONG_MAX {
        return Some(constant(8, true, value));
    }
    None
}

/// The octal or hexadecimal constant of this value with no unsigned suffix.
#[tactic(auto, using(crate::proofs::IntegerLemmas::other_steps))]
fn other_fit(value: u64, rank: Rank) -> IntegerConstant
    ensures { first_fit value (other_types rank) ≡ Some result }
{
    if rank.is_short() && value <= INT_MAX {
        return constant(4, true, value);
    }
    if rank.is_short() && value <= UNSIGNED_INT_MAX {
        return constant(4, false, value);
    }
    if value <= LONG_LONG_MAX {
        return constant(8, true, value);
    }
    constant(8, false, value)
}

/// The constant of this value, of the first of C11's types in which it fits.
fn first_fit(value: u64, base: Base, suffix: Suffix) -> Option<IntegerConstant>
    ensures { result ≡ first_fit value (types_of base suffix) }
{
    if suffix.unsigned {
        return Some(unsigned_fit(value, suffix.rank));
    }
    if base.is_decimal() {
        return decimal_fit(value, suffix.rank);
    }
    Some(other_fit(value, suffix.rank))
}

/// The type and the value of an integer constant, from the bytes of its token (C11 6.4.4.1; int and long have 4 bytes, long
/// long has 8). `None` where the bytes are no integer constant of C11, or its value fits in none of the types that C11 lists
/// for it.
pub fn integer_constant(bytes: &[u8]) -> Option<IntegerConstant>
    ensures is { result ≡ integer_constant bytes.now }
    // The type has 4 or 8 bytes, and the value fits in it.
    ensures fits { IfSome result IsOfItsType }
{
    let (base, body) = split_base(bytes);
    let count = digit_count(body, base);
    if count == 0 {
        return None;
    }
    let value = number(&body[..count], base)?;
    let suffix = suffix_of(&body[count..])?;
    first_fit(value, base, suffix)
}
