//! The registers that an instruction uses without naming them.

ghost use Rattle.std.specs.Prelude.{◌≡◌, ◌++◌, length};
ghost use Rattle.asm_core.specs.Reading.Line.{set_of};
ghost use Rattle.asm_core.specs.Reading.Unasked.{accumulator, count_registers, op_registers, unasked_of};

use asm_core::{Op, RegSet, Repeat, Sym, Width};
use bitflags::Flags;

const EAX: u8 = 1;

const EBX: u8 = 2;

const ECX: u8 = 4;

const EDX: u8 = 8;

const ESI: u8 = 16;

const EDI: u8 = 32;

/// The accumulator: ax for bytes, else edx and eax.
fn accumulator(width: Width) -> u8
    ensures { result ≡ set_of (accumulator width) }
{
    match width {
        Width::B => EAX,
        Width::W | Width::L | Width::Q => EAX | EDX,
    }
}

/// Those of an operation of that size with so many operands.
fn op_registers(op: Op, width: Width, operands: usize) -> u8
    ensures { result ≡ set_of (op_registers op width operands) }
{
    match op {
        Op::Mul | Op::Div | Op::Idiv => accumulator(width),
        Op::Imul if operands == 1 => accumulator(width),
        Op::Cltd | Op::Rdtsc => EAX | EDX,
        Op::Cwtl | Op::Cmpxchg => EAX,
        Op::Jecxz | Op::Loop => ECX,
        Op::Movs | Op::Cmps => ESI | EDI,
        Op::Stos | Op::Scas => EAX | EDI,
        Op::Lods => EAX | ESI,
        Op::Cmpxchg8b | Op::Cpuid => EAX | EBX | ECX | EDX,
        _ => 0,
    }
}

/// The registers that the instruction uses unasked, as the Intel SDM, volume 2, gives them; ecx is one of a repeated
/// instruction's.
pub fn unasked(s: &Sym) -> RegSet
    ensures { result ≡ unasked_of s.now }
{
    let own = op_registers(s.op, s.width, s.args.as_slice().len());
    let bits = match s.repeat {
        Repeat::No => own,
        Repeat::Rep | Repeat::Repe | Repeat::Repne => ECX | own,
    };
    RegSet::from_bits_retain(bits)
}
