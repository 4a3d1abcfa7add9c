ghost use Rattle.x86_move.specs.Moves.{is_move};

use crate::conditional::{cmov, jump, set};
use asm_core::{Bytes, Input, MicroOp, Op, Reg, Site, Target, Width};
use x86_rows::terms::{EAX, ECX, FIRST, ONE, SECOND, TO_ECX, TO_EDX, TO_FIRST, TO_SECOND, ZERO};
use x86_rows::{Family, FamilyRow, micro};

const MOV: [MicroOp; 1] = [micro!(TO_SECOND, Copy, FIRST)];

/// The low bytes are copied, and the upper ones are 0.
macro_rules! zero_extended {
    ($low:expr, $upper:expr) => {
        [
            micro!(Target::Site(Site::Argument(1, $low)), Copy, Input::Read(Site::Argument(0, $low))),
            micro!(Target::Site(Site::Argument(1, $upper)), Value, ZERO)
        ]
    };
}

/// The low bytes are copied, and the upper ones are their sign.
macro_rules! sign_extended {
    ($fill:ident, $low:expr, $upper:expr) => {
        [
            micro!(Target::Site(Site::Argument(1, $low)), Copy, Input::Read(Site::Argument(0, $low))),
            micro!(Target::Site(Site::Argument(1, $upper)), $fill, Input::Read(Site::Argument(0, $low)))
        ]
    };
}

const MOVZBW: [MicroOp; 2] = zero_extended!(Bytes::Byte0, Bytes::Byte1);

const MOVZBL: [MicroOp; 2] = zero_extended!(Bytes::Byte0, Bytes::Upper24);

const MOVZWL: [MicroOp; 2] = zero_extended!(Bytes::Low16, Bytes::High16);

const MOVSBW: [MicroOp; 2] = sign_extended!(SignFill8, Bytes::Byte0, Bytes::Byte1);

const MOVSBL: [MicroOp; 2] = sign_extended!(SignFill8, Bytes::Byte0, Bytes::Upper24);

const MOVSWL: [MicroOp; 2] = sign_extended!(SignFill16, Bytes::Low16, Bytes::High16);

const CLTD: [MicroOp; 1] = [micro!(TO_EDX, SignFill, EAX)];

const CWTL: [MicroOp; 1] = [micro!(
    Target::Site(Site::Register(Reg::Eax, Bytes::High16)),
    SignFill16,
    Input::Read(Site::Register(Reg::Eax, Bytes::Low16))
)];

const LEA: [MicroOp; 1] = [micro!(TO_SECOND, Value, Input::Address(0))];

const XCHG: [MicroOp; 2] = [
    micro!(TO_FIRST, Copy, SECOND),
    micro!(TO_SECOND, Copy, FIRST),
];

const PUSH: [MicroOp; 1] = [micro!(Target::Push, Copy, FIRST)];

const POP: [MicroOp; 2] = [
    micro!(TO_FIRST, Copy, Input::Top),
    micro!(Target::Pop, Value, ZERO),
];

/// A byte of the operand takes another.
macro_rules! byte_copy {
    ($to:expr, $from:expr) => {
        micro!(Target::Site(Site::Argument(0, $to)), Copy, Input::Read(Site::Argument(0, $from)))
    };
}

const BSWAP: [MicroOp; 4] = [
    byte_copy!(Bytes::Byte0, Bytes::Byte3),
    byte_copy!(Bytes::Byte1, Bytes::Byte2),
    byte_copy!(Bytes::Byte2, Bytes::Byte1),
    byte_copy!(Bytes::Byte3, Bytes::Byte0),
];

const JMP: [MicroOp; 1] = [micro!(Target::Jump, Value, ONE)];

const JECXZ: [MicroOp; 1] = [micro!(Target::Jump, IsZero, ECX)];

const LOOP: [MicroOp; 2] = [
    micro!(TO_ECX, CountDown, ECX),
    micro!(Target::Jump, IsNonZero, Input::Earlier(0)),
];

/// Moves of data, and jumps.
#[derive(Clone, Copy)]
pub struct Moves;

/// What moves and jumps do.
pub type MoveRow = FamilyRow<Moves>;

impl Family for Moves {
    ghost has = { is_move };

    fn row<'a>(op: Op, _width: Width, _operands: usize) -> &'a [MicroOp] {
        match op {
            Op::Mov => &MOV,
            Op::Movzbw => &MOVZBW,
            Op::Movzbl => &MOVZBL,
            Op::Movzwl => &MOVZWL,
            Op::Movsbw => &MOVSBW,
            Op::Movsbl => &MOVSBL,
            Op::Movswl => &MOVSWL,
            Op::Lea => &LEA,
            Op::Xchg => &XCHG,
            Op::Push => &PUSH,
            Op::Pop => &POP,
            Op::Bswap => &BSWAP,
            Op::Cmov(condition) => cmov(condition),
            Op::Set(condition) => set(condition),
            Op::Cltd => &CLTD,
            Op::Cwtl => &CWTL,
            Op::Jmp => &JMP,
            Op::J(condition) => jump(condition),
            Op::Jecxz => &JECXZ,
            Op::Loop => &LOOP,
            _ => &[],
        }
    }
}
