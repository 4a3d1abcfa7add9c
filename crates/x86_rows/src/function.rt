ghost use Rattle.std.specs.Prelude.{◌≡◌};
ghost use Rattle.asm_core.specs.Function.{value_of};

use crate::{arithmetic, bits, product, quotient, shift};
use asm_core::{Function, Width};

/// What a function gives of three inputs at a width.
pub fn value(function: Function, w: Width, x: u64, y: u64, z: u64) -> u64
    ensures { result ≡ value_of function w x y z }
{
    match function {
        Function::Copy | Function::Value | Function::Set => x,
        Function::Pick => { if x == 0 { z } else { y } }
        Function::IsZero => u64::from(arithmetic::cut_word(w, x) == 0),
        Function::IsNonZero => u64::from(arithmetic::cut_word(w, x) != 0),
        Function::Sign => arithmetic::sign(w, x),
        Function::Parity => bits::parity(x),
        Function::Sum => arithmetic::sum(w, x, y, z),
        Function::Carry => arithmetic::carry(w, x, y, z),
        Function::AuxiliaryCarry => (x % 16 + y % 16 + z % 2) / 16,
        Function::SumOverflow => arithmetic::sum_overflow(w, x, y, z),
        Function::Difference => arithmetic::difference(w, x, y, z),
        Function::Borrow => arithmetic::borrow(w, x, y, z),
        Function::AuxiliaryBorrow => u64::from(x % 16 < y % 16 + z % 2),
        Function::DifferenceOverflow => arithmetic::difference_overflow(w, x, y, z),
        Function::And => arithmetic::cut_word(w, x) & arithmetic::cut_word(w, y),
        Function::Or => arithmetic::cut_word(w, x) | arithmetic::cut_word(w, y),
        Function::Xor => arithmetic::cut_word(w, x) ^ arithmetic::cut_word(w, y),
        Function::Not => bits::all_ones(w) - arithmetic::cut_word(w, x),
        Function::ProductLow => product::product_low(w, x, y),
        Function::ProductHigh => product::product_high(w, x, y),
        Function::SignedProductHigh => product::signed_product_high(w, x, y),
        Function::Quotient => quotient::quotient(w, x, y, z),
        Function::Remainder => quotient::remainder(w, x, y, z),
        Function::QuotientOverflow => quotient::quotient_overflow(w, x, z),
        Function::SignedQuotient => quotient::signed_quotient(w, x, y, z),
        Function::SignedRemainder => quotient::signed_remainder(w, x, y, z),
        Function::SignedQuotientOverflow => quotient::signed_quotient_overflow(w, x, y, z),
        Function::SignFill => arithmetic::sign(w, x) * bits::all_ones(w),
        Function::SignFill8 => arithmetic::sign(Width::B, x) * bits::all_ones(w),
        Function::SignFill16 => arithmetic::sign(Width::W, x) * bits::all_ones(w),
        Function::Count => u64::from(shift::count(x)),
        Function::CountIsOne => u64::from(shift::count(x) == 1),
        Function::CountBelowWidth => u64::from(shift::count(x) < arithmetic::bits(w)),
        Function::CountTurns => u64::from(
            shift::count(x) == 0 || shift::count(x) % arithmetic::bits(w) != 0,
        ),
        Function::ShiftLeft => shift::shift_left(w, x, y),
        Function::ShiftRight => shift::shift_right(w, x, y),
        Function::ShiftArithmeticRight => shift::shift_arithmetic_right(w, x, y),
        Function::OutLeft => shift::out_left(w, x, y),
        Function::OutRight => shift::out_right(w, x, y),
        Function::OutArithmeticRight => shift::out_arithmetic_right(w, x, y),
        Function::ShiftDoubleLeft => shift::shift_double_left(w, x, y, z),
        Function::ShiftDoubleRight => shift::shift_double_right(w, x, y, z),
        Function::RotateLeft => shift::rotate_left(w, x, y),
        Function::RotateRight => shift::rotate_right(w, x, y),
        Function::TopBitsDiffer => bits::top_bits_differ(w, x),
        Function::ScanForward => bits::scan_forward(w, x),
        Function::ScanReverse => bits::scan_reverse(w, x),
        Function::Bit => bits::bit(w, x, y),
        Function::BitSet => bits::bit_set(w, x, y),
        Function::BitReset => bits::bit_reset(w, x, y),
        Function::BitComplement => bits::bit_complement(w, x, y),
        Function::IndexStep => bits::index_step(w, x, y),
        Function::CountDown => (x % 4294967296 + 4294967295) % 4294967296,
        Function::Join => bits::join(x, y),
        Function::UpperHalf => x / 4294967296,
    }
}
