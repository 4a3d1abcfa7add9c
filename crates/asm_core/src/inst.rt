use crate::{Cond, Form, Items, Reg, Slice};

/// How many bytes an instruction works on: 1, 2, 4 or 8.
#[derive(Clone, Copy, Debug, PartialEq, Eq)]
pub enum Width {
    B,
    W,
    L,
    Q,
}

/// What an instruction does, named as the Intel SDM, volume 2, or GNU as names it.
#[derive(Clone, Copy, Debug, PartialEq, Eq)]
pub enum Op {
    Mov,
    Movzbw,
    Movzbl,
    Movzwl,
    Movsbw,
    Movsbl,
    Movswl,
    Lea,
    Xchg,
    Push,
    Pop,
    Bswap,
    Cmov(Cond),
    Set(Cond),
    Cltd,
    Cwtl,
    Nop,
    Jmp,
    J(Cond),
    Jecxz,
    Loop,
    Add,
    Sub,
    Adc,
    Sbb,
    Cmp,
    And,
    Or,
    Xor,
    Test,
    Neg,
    Not,
    Inc,
    Dec,
    Mul,
    Imul,
    Div,
    Idiv,
    Clc,
    Stc,
    Cmc,
    Shl,
    Shr,
    Sar,
    Rol,
    Ror,
    Shld,
    Shrd,
    Bsf,
    Bsr,
    Bt,
    Bts,
    Btr,
    Btc,
    Movs,
    Stos,
    Lods,
    Cmps,
    Scas,
    Cld,
    Std,
    Xadd,
    Cmpxchg,
    Cmpxchg8b,
    Cpuid,
    Rdtsc,
}

/// A prefix that repeats a string instruction.
#[derive(Clone, Copy, Debug, PartialEq, Eq)]
pub enum Repeat {
    No,
    Rep,
    Repe,
    Repne,
}

/// An operand of an instruction under a placement.
#[derive(Clone, Copy, Debug, PartialEq, Eq)]
pub enum InstArg {
    Register(Reg, Slice),
    /// As written, from -2^31 to 2^32 - 1; it is read modulo 2 to the field's width.
    Number(i64),
    /// An address, and the number of the memory operand that it came from.
    Address(Form, Option<u8>),
    /// The number of the goal's instruction.
    Label(u32),
}

/// An instruction under a placement. Its operands stand first in `args`, as they are written.
#[derive(Clone, Copy, Debug, PartialEq, Eq)]
pub struct Inst {
    pub op: Op,
    pub width: Width,
    pub args: [Option<InstArg>; 3],
    pub repeat: Repeat,
    pub lock: bool,
}

/// The instructions of a template under a placement.
#[derive(Debug, Drop)]
pub struct Code {
    pub insts: Items<Inst>,
    /// For each instruction that jumps the number of its goal, from 0, and for another one the next number.
    pub goals: Items<u32>,
}
