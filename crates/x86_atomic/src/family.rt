ghost use Rattle.x86_atomic.specs.Atomics.{is_atomic};

use asm_core::{Input, MicroOp, Op, Target, Width};
use x86_rows::terms::{
    ACCUMULATOR, EAX, EBX, ECX, EDX, FIRST, SECOND, TO_ACCUMULATOR, TO_EAX, TO_EBX, TO_ECX, TO_EDX,
    TO_FIRST, TO_SECOND, TO_ZF, ZERO,
};
use x86_rows::{Family, FamilyRow, micro, with_difference_flags, with_sum_flags};

const XADD: [MicroOp; 8] = with_sum_flags!(
    [
        micro!(TO_FIRST, Copy, SECOND),
        micro!(TO_SECOND, Sum, SECOND, FIRST)
    ],
    (SECOND, FIRST, ZERO, 1)
);

/// Number 4 is ZF.
const CMPXCHG: [MicroOp; 9] = with_difference_flags!(
    [micro!(Target::Temporary, Difference, ACCUMULATOR, SECOND)],
    (ACCUMULATOR, SECOND, ZERO, 0),
    [
        micro!(TO_ACCUMULATOR, Pick, Input::Earlier(4), ACCUMULATOR, SECOND),
        micro!(TO_SECOND, Pick, Input::Earlier(4), FIRST, SECOND)
    ]
);

/// Number 3 is whether edx:eax is what stands in memory.
const CMPXCHG8B: [MicroOp; 9] = [
    micro!(Target::Temporary, Join, EAX, EDX),
    micro!(Target::Temporary, Join, EBX, ECX),
    micro!(Target::Temporary, Xor, Input::Earlier(0), FIRST),
    micro!(Target::Temporary, IsZero, Input::Earlier(2)),
    micro!(TO_FIRST, Pick, Input::Earlier(3), Input::Earlier(1), FIRST),
    micro!(Target::Temporary, UpperHalf, FIRST),
    micro!(TO_EDX, Pick, Input::Earlier(3), EDX, Input::Earlier(5)),
    micro!(TO_EAX, Pick, Input::Earlier(3), EAX, FIRST),
    micro!(TO_ZF, Value, Input::Earlier(3)),
];

const CPUID: [MicroOp; 4] = [
    micro!(TO_EAX, Value, Input::Outside(0), EAX, ECX),
    micro!(TO_EBX, Value, Input::Outside(1), EAX, ECX),
    micro!(TO_ECX, Value, Input::Outside(2), EAX, ECX),
    micro!(TO_EDX, Value, Input::Outside(3), EAX, ECX),
];

const RDTSC: [MicroOp; 2] = [
    micro!(TO_EAX, Value, Input::Outside(0)),
    micro!(TO_EDX, Value, Input::Outside(1)),
];

/// Exchanges, and what the processor tells.
#[derive(Clone, Copy)]
pub struct Atomics;

/// What exchanges do, and instructions that ask the processor.
pub type AtomicRow = FamilyRow<Atomics>;

impl Family for Atomics {
    ghost has = { is_atomic };

    fn row<'a>(op: Op, _width: Width, _operands: usize) -> &'a [MicroOp] {
        match op {
            Op::Xadd => &XADD,
            Op::Cmpxchg => &CMPXCHG,
            Op::Cmpxchg8b => &CMPXCHG8B,
            Op::Cpuid => &CPUID,
            Op::Rdtsc => &RDTSC,
            _ => &[],
        }
    }
}
