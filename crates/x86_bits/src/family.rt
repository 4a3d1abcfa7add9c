ghost use Rattle.x86_bits.specs.Bits.{is_of_bits};

use asm_core::{Input, MicroOp, Op, Target, Width};
use x86_rows::terms::{
    AF, CF, FIRST, OF, ONE, PF, SECOND, SF, THIRD, TO_AF, TO_CF, TO_FIRST, TO_OF, TO_PF, TO_SECOND,
    TO_SF, TO_THIRD, TO_ZF, UNDEFINED_AF, UNDEFINED_CF, UNDEFINED_OF, UNDEFINED_PF, UNDEFINED_SF,
    UNDEFINED_ZF, ZERO, ZF,
};
use x86_rows::{Family, FamilyRow, micro};

// ---- shifts

/// A flag that takes a value where the count (number 0) isn't 0, and else stays.
macro_rules! flag_by_count {
    ($to:expr, $flag:expr, $value:expr) => {
        micro!($to, Pick, Input::Earlier(0), $value, $flag)
    };
}

/// OF where the count is 1, as number `$k` says, and undefined where it isn't.
macro_rules! for_count_one {
    ($k:expr, $value:expr) => {
        micro!(Target::Temporary, Pick, Input::Earlier($k), $value, Input::Undefined(5))
    };
}

/// A shift: its count, its result, what comes of both, and the flags, given the values of CF and OF.
macro_rules! shift {
    ($count:expr, $result:expr, [$($op:expr),*], $cf:expr, $of:expr) => {
        [
            micro!(Target::Temporary, Count, $count),
            $result,
            micro!(Target::Temporary, Parity, Input::Earlier(1)),
            micro!(Target::Temporary, IsZero, Input::Earlier(1)),
            micro!(Target::Temporary, Sign, Input::Earlier(1)),
            micro!(Target::Temporary, CountIsOne, $count),
            $($op,)*
            flag_by_count!(TO_CF, CF, Input::Earlier($cf)),
            flag_by_count!(TO_PF, PF, Input::Earlier(2)),
            flag_by_count!(TO_AF, AF, Input::Undefined(2)),
            flag_by_count!(TO_ZF, ZF, Input::Earlier(3)),
            flag_by_count!(TO_SF, SF, Input::Earlier(4)),
            flag_by_count!(TO_OF, OF, Input::Earlier($of)),
        ]
    };
}

/// A shift whose CF (number 8) is the last bit out, undefined where the count isn't below the width.
macro_rules! shift_out {
    ($out:ident, $d:expr, $count:expr, $result:expr, [$($op:expr),*], $of:expr) => {
        shift!(
            $count,
            $result,
            [
                micro!(Target::Temporary, $out, $d, $count),
                micro!(Target::Temporary, CountBelowWidth, $count),
                micro!(Target::Temporary, Pick, Input::Earlier(7), Input::Earlier(6), Input::Undefined(0)),
                $($op),*
            ],
            8,
            $of
        )
    };
}

macro_rules! shl {
    ($to:expr, $d:expr, $count:expr) => {
        shift_out!(
            OutLeft,
            $d,
            $count,
            micro!($to, ShiftLeft, $d, $count),
            [
                micro!(Target::Temporary, Xor, Input::Earlier(4), Input::Earlier(8)),
                for_count_one!(5, Input::Earlier(9))
            ],
            10
        )
    };
}

macro_rules! shr {
    ($to:expr, $d:expr, $count:expr) => {
        shift_out!(
            OutRight,
            $d,
            $count,
            micro!($to, ShiftRight, $d, $count),
            [micro!(Target::Temporary, Sign, $d), for_count_one!(5, Input::Earlier(9))],
            10
        )
    };
}

macro_rules! sar {
    ($to:expr, $d:expr, $count:expr) => {
        shift!(
            $count,
            micro!($to, ShiftArithmeticRight, $d, $count),
            [micro!(Target::Temporary, OutArithmeticRight, $d, $count), for_count_one!(5, ZERO)],
            6,
            7
        )
    };
}

macro_rules! shift_double {
    ($shift:ident, $out:ident) => {
        shift_out!(
            $out,
            THIRD,
            FIRST,
            micro!(TO_THIRD, $shift, THIRD, SECOND, FIRST),
            [
                micro!(Target::Temporary, Sign, THIRD),
                micro!(Target::Temporary, Xor, Input::Earlier(4), Input::Earlier(9)),
                for_count_one!(5, Input::Earlier(10))
            ],
            11
        )
    };
}

const SHL: [MicroOp; 17] = shl!(TO_SECOND, SECOND, FIRST);

const SHL_ONCE: [MicroOp; 17] = shl!(TO_FIRST, FIRST, ONE);

const SHR: [MicroOp; 17] = shr!(TO_SECOND, SECOND, FIRST);

const SHR_ONCE: [MicroOp; 17] = shr!(TO_FIRST, FIRST, ONE);

const SAR: [MicroOp; 14] = sar!(TO_SECOND, SECOND, FIRST);

const SAR_ONCE: [MicroOp; 14] = sar!(TO_FIRST, FIRST, ONE);

const SHLD: [MicroOp; 18] = shift_double!(ShiftDoubleLeft, OutLeft);

const SHRD: [MicroOp; 18] = shift_double!(ShiftDoubleRight, OutRight);

// ---- rotations

/// A rotation whose CF is a bit of the result, undefined where the count is a multiple of the width.
macro_rules! rotate {
    ($to:expr, $d:expr, $count:expr, $rotate:ident, $bit:expr, [$($op:expr),*], $of:expr) => {
        [
            micro!(Target::Temporary, Count, $count),
            micro!($to, $rotate, $d, $count),
            $bit,
            micro!(Target::Temporary, CountTurns, $count),
            micro!(Target::Temporary, Pick, Input::Earlier(3), Input::Earlier(2), Input::Undefined(0)),
            micro!(Target::Temporary, CountIsOne, $count),
            $($op,)*
            flag_by_count!(TO_CF, CF, Input::Earlier(4)),
            flag_by_count!(TO_OF, OF, Input::Earlier($of)),
        ]
    };
}

macro_rules! rol {
    ($to:expr, $d:expr, $count:expr) => {
        rotate!(
            $to,
            $d,
            $count,
            RotateLeft,
            micro!(Target::Temporary, Bit, Input::Earlier(1), ZERO),
            [
                micro!(Target::Temporary, Sign, Input::Earlier(1)),
                micro!(Target::Temporary, Xor, Input::Earlier(6), Input::Earlier(4)),
                for_count_one!(5, Input::Earlier(7))
            ],
            8
        )
    };
}

macro_rules! ror {
    ($to:expr, $d:expr, $count:expr) => {
        rotate!(
            $to,
            $d,
            $count,
            RotateRight,
            micro!(Target::Temporary, Sign, Input::Earlier(1)),
            [
                micro!(Target::Temporary, TopBitsDiffer, Input::Earlier(1)),
                for_count_one!(5, Input::Earlier(6))
            ],
            7
        )
    };
}

const ROL: [MicroOp; 11] = rol!(TO_SECOND, SECOND, FIRST);

const ROL_ONCE: [MicroOp; 11] = rol!(TO_FIRST, FIRST, ONE);

const ROR: [MicroOp; 10] = ror!(TO_SECOND, SECOND, FIRST);

const ROR_ONCE: [MicroOp; 10] = ror!(TO_FIRST, FIRST, ONE);

// ---- bits

macro_rules! scan {
    ($scan:ident) => {
        [
            micro!(Target::Temporary, IsZero, FIRST),
            micro!(Target::Temporary, $scan, FIRST),
            micro!(TO_SECOND, Pick, Input::Earlier(0), Input::Undefined(32), Input::Earlier(1)),
            UNDEFINED_CF,
            UNDEFINED_PF,
            UNDEFINED_AF,
            micro!(TO_ZF, Value, Input::Earlier(0)),
            UNDEFINED_SF,
            UNDEFINED_OF,
        ]
    };
}

const BSF: [MicroOp; 9] = scan!(ScanForward);

const BSR: [MicroOp; 9] = scan!(ScanReverse);

/// What changes the destination, if anything does, and CF := its bit.
macro_rules! bit_test {
    ($($change:expr)?) => {
        [
            $($change,)?
            micro!(TO_CF, Bit, SECOND, FIRST),
            UNDEFINED_PF,
            UNDEFINED_AF,
            UNDEFINED_ZF,
            UNDEFINED_SF,
            UNDEFINED_OF,
        ]
    };
}

const BT: [MicroOp; 6] = bit_test!();

const BTS: [MicroOp; 7] = bit_test!(micro!(TO_SECOND, BitSet, SECOND, FIRST));

const BTR: [MicroOp; 7] = bit_test!(micro!(TO_SECOND, BitReset, SECOND, FIRST));

const BTC: [MicroOp; 7] = bit_test!(micro!(TO_SECOND, BitComplement, SECOND, FIRST));

/// Shifts, rotations and bits.
#[derive(Clone, Copy)]
pub struct Bits;

/// What shifts, rotations and instructions on bits do.
pub type BitsRow = FamilyRow<Bits>;

impl Family for Bits {
    ghost has = { is_of_bits };

    fn row<'a>(op: Op, _width: Width, operands: usize) -> &'a [MicroOp] {
        match (op, operands) {
            (Op::Shl, 1) => &SHL_ONCE,
            (Op::Shl, _) => &SHL,
            (Op::Shr, 1) => &SHR_ONCE,
            (Op::Shr, _) => &SHR,
            (Op::Sar, 1) => &SAR_ONCE,
            (Op::Sar, _) => &SAR,
            (Op::Rol, 1) => &ROL_ONCE,
            (Op::Rol, _) => &ROL,
            (Op::Ror, 1) => &ROR_ONCE,
            (Op::Ror, _) => &ROR,
            (Op::Shld, _) => &SHLD,
            (Op::Shrd, _) => &SHRD,
            (Op::Bsf, _) => &BSF,
            (Op::Bsr, _) => &BSR,
            (Op::Bt, _) => &BT,
            (Op::Bts, _) => &BTS,
            (Op::Btr, _) => &BTR,
            (Op::Btc, _) => &BTC,
            _ => &[],
        }
    }
}
