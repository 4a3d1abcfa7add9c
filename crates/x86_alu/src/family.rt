ghost use Rattle.std.specs.Prelude.{◌≡◌, ◌≤◌, length};
ghost use Rattle.asm_core.specs.Table.Arithmetic.{imul_row};
ghost use Rattle.x86_alu.specs.Arithmetic.{is_arithmetic};

use asm_core::{Bytes, Input, MicroOp, Op, Reg, Site, Target, Width};
use x86_rows::terms::{
    ACCUMULATOR, CF, CF_IS_0, CF_IS_1, FIRST, ONE, SECOND, TO_ACCUMULATOR, TO_CF, TO_FIRST, TO_OF,
    TO_SECOND, TO_THIRD, UNDEFINED_AF, UNDEFINED_CF, UNDEFINED_OF, UNDEFINED_PF, UNDEFINED_SF,
    UNDEFINED_ZF, ZERO,
};
use x86_rows::{
    Family, FamilyRow, micro, with_decrement_flags, with_difference_flags, with_increment_flags,
    with_logic_flags, with_sum_flags,
};

const ADD: [MicroOp; 7] = with_sum_flags!(
    [micro!(TO_SECOND, Sum, SECOND, FIRST)],
    (SECOND, FIRST, ZERO, 0)
);

const ADC: [MicroOp; 7] = with_sum_flags!(
    [micro!(TO_SECOND, Sum, SECOND, FIRST, CF)],
    (SECOND, FIRST, CF, 0)
);

const SUB: [MicroOp; 7] = with_difference_flags!(
    [micro!(TO_SECOND, Difference, SECOND, FIRST)],
    (SECOND, FIRST, ZERO, 0),
    []
);

const SBB: [MicroOp; 7] = with_difference_flags!(
    [micro!(TO_SECOND, Difference, SECOND, FIRST, CF)],
    (SECOND, FIRST, CF, 0),
    []
);

const CMP: [MicroOp; 7] = with_difference_flags!(
    [micro!(Target::Temporary, Difference, SECOND, FIRST)],
    (SECOND, FIRST, ZERO, 0),
    []
);

const NEG: [MicroOp; 7] = with_difference_flags!(
    [micro!(TO_FIRST, Difference, ZERO, FIRST)],
    (ZERO, FIRST, ZERO, 0),
    []
);

const INC: [MicroOp; 6] = with_increment_flags!(
    [micro!(TO_FIRST, Sum, FIRST, ONE)],
    (FIRST, ONE, ZERO, 0),
    []
);

const DEC: [MicroOp; 6] = with_decrement_flags!(
    [micro!(TO_FIRST, Difference, FIRST, ONE)],
    (FIRST, ONE, ZERO, 0),
    []
);

const AND: [MicroOp; 7] = with_logic_flags!(micro!(TO_SECOND, And, SECOND, FIRST));

const OR: [MicroOp; 7] = with_logic_flags!(micro!(TO_SECOND, Or, SECOND, FIRST));

const XOR: [MicroOp; 7] = with_logic_flags!(micro!(TO_SECOND, Xor, SECOND, FIRST));

const TEST: [MicroOp; 7] = with_logic_flags!(micro!(Target::Temporary, And, SECOND, FIRST));

const NOT: [MicroOp; 1] = [micro!(TO_FIRST, Not, FIRST)];

// ---- products and quotients: what stands above the accumulator is ah, or dx or edx

const AH: Site = Site::Register(Reg::Eax, Bytes::Byte1);

const UPPER: Site = Site::Register(Reg::Edx, Bytes::Whole);

macro_rules! mul {
    ($upper:expr) => {
        [
            micro!(TO_ACCUMULATOR, ProductLow, ACCUMULATOR, FIRST),
            micro!(Target::Site($upper), ProductHigh, ACCUMULATOR, FIRST),
            micro!(TO_CF, IsNonZero, Input::Earlier(1)),
            UNDEFINED_PF,
            UNDEFINED_AF,
            UNDEFINED_ZF,
            UNDEFINED_SF,
            micro!(TO_OF, IsNonZero, Input::Earlier(1)),
        ]
    };
}

const MUL_BYTE: [MicroOp; 8] = mul!(AH);

const MUL: [MicroOp; 8] = mul!(UPPER);

/// A signed product. CF and OF are whether its high half isn't the sign of the low one.
macro_rules! imul {
    ($low:expr, $high:expr, $x:expr, $y:expr) => {
        [
            micro!($low, ProductLow, $x, $y),
            micro!($high, SignedProductHigh, $x, $y),
            micro!(Target::Temporary, SignFill, Input::Earlier(0)),
            micro!(Target::Temporary, Xor, Input::Earlier(1), Input::Earlier(2)),
            micro!(TO_CF, IsNonZero, Input::Earlier(3)),
            UNDEFINED_PF,
            UNDEFINED_AF,
            UNDEFINED_ZF,
            UNDEFINED_SF,
            micro!(TO_OF, IsNonZero, Input::Earlier(3)),
        ]
    };
}

const IMUL_BYTE: [MicroOp; 10] = imul!(TO_ACCUMULATOR, Target::Site(AH), ACCUMULATOR, FIRST);

const IMUL: [MicroOp; 10] = imul!(TO_ACCUMULATOR, Target::Site(UPPER), ACCUMULATOR, FIRST);

const IMUL_TWO: [MicroOp; 10] = imul!(TO_SECOND, Target::Temporary, SECOND, FIRST);

const IMUL_THREE: [MicroOp; 10] = imul!(TO_THIRD, Target::Temporary, SECOND, FIRST);

macro_rules! quotient {
    ($overflow:ident, $quotient:ident, $remainder:ident, $upper:expr) => {
        [
            micro!(Target::Divide, $overflow, Input::Read($upper), ACCUMULATOR, FIRST),
            micro!(TO_ACCUMULATOR, $quotient, Input::Read($upper), ACCUMULATOR, FIRST),
            micro!(Target::Site($upper), $remainder, Input::Read($upper), ACCUMULATOR, FIRST),
            UNDEFINED_CF,
            UNDEFINED_PF,
            UNDEFINED_AF,
            UNDEFINED_ZF,
            UNDEFINED_SF,
            UNDEFINED_OF,
        ]
    };
}

const DIV_BYTE: [MicroOp; 9] = quotient!(QuotientOverflow, Quotient, Remainder, AH);

const DIV: [MicroOp; 9] = quotient!(QuotientOverflow, Quotient, Remainder, UPPER);

const IDIV_BYTE: [MicroOp; 9] = quotient!(
    SignedQuotientOverflow,
    SignedQuotient,
    SignedRemainder,
    AH
);

const IDIV: [MicroOp; 9] = quotient!(
    SignedQuotientOverflow,
    SignedQuotient,
    SignedRemainder,
    UPPER
);

// ---- CF alone

const CLC: [MicroOp; 1] = [CF_IS_0];

const STC: [MicroOp; 1] = [CF_IS_1];

const CMC: [MicroOp; 1] = [micro!(TO_CF, IsZero, CF)];

/// Arithmetic and logic.
#[derive(Clone, Copy)]
pub struct Arithmetic;

/// What arithmetic and logic do.
pub type AluRow = FamilyRow<Arithmetic>;

/// The row of a signed product with that many operands.
fn imul<'a>(width: Width, operands: usize) -> &'a [MicroOp]
    ensures is { result.now ≡ imul_row width operands }
    ensures few { length result.now ≤ 18 }
{
    match (operands, width) {
        (1, Width::B) => &IMUL_BYTE,
        (1, _) => &IMUL,
        (2, _) => &IMUL_TWO,
        _ => &IMUL_THREE,
    }
}

impl Family for Arithmetic {
    ghost has = { is_arithmetic };

    fn row<'a>(op: Op, width: Width, operands: usize) -> &'a [MicroOp] {
        match (op, width) {
            (Op::Add, _) => &ADD,
            (Op::Sub, _) => &SUB,
            (Op::Adc, _) => &ADC,
            (Op::Sbb, _) => &SBB,
            (Op::Cmp, _) => &CMP,
            (Op::And, _) => &AND,
            (Op::Or, _) => &OR,
            (Op::Xor, _) => &XOR,
            (Op::Test, _) => &TEST,
            (Op::Neg, _) => &NEG,
            (Op::Not, _) => &NOT,
            (Op::Inc, _) => &INC,
            (Op::Dec, _) => &DEC,
            (Op::Mul, Width::B) => &MUL_BYTE,
            (Op::Mul, _) => &MUL,
            (Op::Imul, _) => imul(width, operands),
            (Op::Div, Width::B) => &DIV_BYTE,
            (Op::Div, _) => &DIV,
            (Op::Idiv, Width::B) => &IDIV_BYTE,
            (Op::Idiv, _) => &IDIV,
            (Op::Clc, _) => &CLC,
            (Op::Stc, _) => &STC,
            (Op::Cmc, _) => &CMC,
            _ => &[],
        }
    }
}
