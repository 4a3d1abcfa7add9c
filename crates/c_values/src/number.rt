//! Numbers in C's integer types.

ghost use Rattle.std.specs.Prelude.{◌≡◌, IsTrue, ◌≤ℤ◌, ◌<ℤ◌, pos, negsuc};
ghost use Rattle.c_values.specs.Numbers.{value_count, cut, IsCut};

/// How many values an integer of `size` bytes has.
fn value_count(size: u32) -> i128
    ensures { result ≡ pos (value_count size) }
{
    match size {
        1 => 1 << 8,
        2 => 1 << 16,
        4 => 1 << 32,
        _ => 1 << 64,
    }
}

/// The number that an integer of `size` bytes holds in place of `number`: the one number of its range that is equal to it modulo 2^(8 size) (C11 6.3.1.3).
#[tactic(auto, using(crate::proofs::CutLaws::laws), unfolding(crate::specs::Numbers::cut))]
pub fn cut(size: u32, signed: bool, number: i128) -> i128
    ensures is { result ≡ cut size signed number }

    // The number of the type's range that is equal to it modulo 2^(8 size).
    ensures law { IsCut size signed number result }
    ensures least { negsuc 9223372036854775807 ≤ℤ result }
    ensures signed_most { IsTrue signed → result <ℤ pos 9223372036854775808 }
    ensures most { result <ℤ pos 18446744073709551616 }
{
    let count = value_count(size);
    let rest = number.rem_euclid(count);
    if signed && count / 2 <= rest {
        rest - count
    } else {
        rest
    }
}
