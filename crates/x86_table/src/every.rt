ghost use Rattle.std.specs.Prelude.{true};

use asm_core::{MicroOp, Op, Width};
use x86_alu::Arithmetic;
use x86_atomic::Atomics;
use x86_bits::Bits;
use x86_move::Moves;
use x86_rows::{Family, FamilyRow};
use x86_string::Strings;

/// All families together.
#[derive(Clone, Copy)]
pub struct Every;

/// What each instruction of the table does.
pub type AnyRow = FamilyRow<Every>;

impl Family for Every {
    ghost has = { λ op. true };

    fn row<'a>(op: Op, width: Width, operands: usize) -> &'a [MicroOp] {
        match op {
            Op::Mov | Op::Lea | Op::Xchg | Op::Push | Op::Pop | Op::Bswap => Moves::row(
                op, width, operands,
            ),
            Op::Movzbw | Op::Movzbl | Op::Movzwl => Moves::row(op, width, operands),
            Op::Movsbw | Op::Movsbl | Op::Movswl => Moves::row(op, width, operands),
            Op::Cmov(_) | Op::Set(_) | Op::Cltd | Op::Cwtl | Op::Nop => Moves::row(
                op, width, operands,
            ),
            Op::Jmp | Op::J(_) | Op::Jecxz | Op::Loop => Moves::row(op, width, operands),
            Op::Shl | Op::Shr | Op::Sar | Op::Rol | Op::Ror => Bits::row(op, width, operands),
            Op::Shld | Op::Shrd | Op::Bsf | Op::Bsr => Bits::row(op, width, operands),
            Op::Bt | Op::Bts | Op::Btr | Op::Btc => Bits::row(op, width, operands),
            Op::Movs | Op::Stos | Op::Lods | Op::Cmps | Op::Scas => Strings::row(
                op, width, operands,
            ),
            Op::Cld | Op::Std => Strings::row(op, width, operands),
            Op::Xadd | Op::Cmpxchg | Op::Cmpxchg8b => Atomics::row(op, width, operands),
            Op::Cpuid | Op::Rdtsc => Atomics::row(op, width, operands),
            _ => Arithmetic::row(op, width, operands),
        }
    }
}
