//! What the operators give of numbers.

ghost use Rattle.std.specs.Prelude.{◌≡◌, ◌<◌, ◌≤ℤ◌, ◌<ℤ◌, pos, negsuc};
ghost use Rattle.std.specs.Int.{int_wrap, w128};
ghost use Rattle.std.specs.Option.{option_map};
ghost use Rattle.c_values.specs.Numbers.{bit_count};
ghost use Rattle.c_values.specs.Calculations.{exact, exact_shift, exact_unary, calculated, shifted, compared, holds, computed, computed_unary};

use crate::number::cut;
use crate::{Binary, Calculation, Comparison, Logic, Shift, Unary};

/// What an operator that computes in integers of `size` bytes gives of two numbers, if it has a value.
pub fn computed(op: Binary, size: u32, signed: bool, x: i128, y: i128) -> Option<i128>
    ensures { result ≡ computed op size signed x y }
{
    match op {
        Binary::Calculation(op) => calculated(op, size, signed, x, y),
        Binary::Shift(op) => shifted(op, size, signed, x, y),
        Binary::Comparison(op) => Some(i128::from(compared(
            op,
            cut(size, signed, x),
            cut(size, signed, y),
        ))),
        Binary::Logic(op) => Some(i128::from(holds(op, x, y))),
    }
}

/// Of two numbers converted to the type and cut to it, if there is a value: there is none of a division by 0.
#[tactic(auto, unfolding(crate::specs::Calculations::calculated))]
fn calculated(op: Calculation, size: u32, signed: bool, x: i128, y: i128) -> Option<i128>
    ensures { result ≡ calculated op size signed x y }
{
    let exact = exact(op, cut(size, signed, x), cut(size, signed, y))?;
    Some(cut(size, signed, exact))
}

/// What is left in 128 bits of what an operator gives of two numbers.
#[tactic(auto, using(std::proofs::lemmas::Int::wraps))]
fn exact(op: Calculation, x: i128, y: i128) -> Option<i128>
    requires { negsuc 9223372036854775807 ≤ℤ x }
    ensures { result ≡ option_map (int_wrap w128) (exact op x y) }
{
    match op {
        Calculation::Multiply => Some(x.wrapping_mul(y)),
        Calculation::Divide | Calculation::Remainder if y == 0 => None,
        Calculation::Divide => Some(x / y),
        Calculation::Remainder => Some(x % y),
        Calculation::Add => Some(x.wrapping_add(y)),
        Calculation::Subtract => Some(x.wrapping_sub(y)),
        Calculation::And => Some(x & y),
        Calculation::Xor => Some(x ^ y),
        Calculation::Or => Some(x | y),
    }
}

/// How many bits an integer of `size` bytes has.
fn bit_count(size: u32) -> u32
    ensures { result ≡ bit_count size }
{
    match size {
        1 => 8,
        2 => 16,
        4 => 32,
        _ => 64,
    }
}

/// A number shifted by `amount` bits, in the type, if there is a value: there is none of an amount below 0 or not below the type's bits.
#[tactic(auto, unfolding(crate::specs::Calculations::shifted))]
fn shifted(op: Shift, size: u32, signed: bool, number: i128, amount: i128) -> Option<i128>
    ensures { result ≡ shifted op size signed number amount }
{
    if amount < 0 || i128::from(bit_count(size)) <= amount {
        return None;
    }
    let exact = exact_shift(op, cut(size, signed, number), amount as u32);
    Some(cut(size, signed, exact))
}

/// What is left in 128 bits of a shifted number.
#[tactic(auto, using(crate::proofs::CutLemmas::shift_steps))]
fn exact_shift(op: Shift, number: i128, amount: u32) -> i128
    requires { amount < 64 }
    ensures { result ≡ int_wrap w128 (exact_shift op number amount) }
{
    match op {
        Shift::Left => number << amount,
        Shift::Right => number >> amount,
    }
}

fn compared(op: Comparison, x: i128, y: i128) -> bool
    ensures { result ≡ compared op x y }
{
    match op {
        Comparison::Less => x < y,
        Comparison::Greater => x > y,
        Comparison::AtMost => x <= y,
        Comparison::AtLeast => x >= y,
        Comparison::Equal => x == y,
        Comparison::Unequal => x != y,
    }
}

fn holds(op: Logic, x: i128, y: i128) -> bool
    ensures { result ≡ holds op x y }
{
    match op {
        Logic::And => x != 0 && y != 0,
        Logic::Or => x != 0 || y != 0,
    }
}

/// What an operator that computes in integers of `size` bytes gives of one number.
#[tactic(auto, unfolding(crate::specs::Calculations::computed_unary))]
pub fn computed_unary(op: Unary, size: u32, signed: bool, number: i128) -> i128
    ensures { result ≡ computed_unary op size signed number }
{
    cut(size, signed, exact_unary(op, cut(size, signed, number)))
}

fn exact_unary(op: Unary, number: i128) -> i128
    requires least { negsuc 9223372036854775807 ≤ℤ number }
    requires most { number <ℤ pos 18446744073709551616 }
    ensures { result ≡ exact_unary op number }
{
    match op {
        Unary::Plus => number,
        Unary::Minus => -number,
        Unary::Complement => -1 - number,
        Unary::Not => i128::from(number == 0),
    }
}
