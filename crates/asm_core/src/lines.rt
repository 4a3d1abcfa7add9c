ghost use Rattle.std.specs.Prelude.{◌≡◌};
ghost use Rattle.asm_core.specs.declared.lines.LinesEnd.{LinesEnd};

use crate::{Items, Memory, RegSet, Sym};
use std::alloc::{AllocError, AllocFailed};
use thiserror::Error;

/// A label, and the number, from 0, of the instruction that it stands before; the count of instructions where it stands
/// before none.
#[derive(Debug, Drop)]
pub struct Label {
    /// As it is written. The number that `%=` gives is the byte 1, which means nothing else.
    pub name: Items<u8>,
    pub before: u32,
}

/// Where an instruction jumps, both counted from 0; `None` where there is no such label.
#[derive(Clone, Copy, Debug, PartialEq, Eq)]
pub struct JumpTarget {
    pub inst: u32,
    pub goal: Option<u32>,
}

/// What an instruction's text names: registers that are written in it, and operands that are written as holes.
#[derive(Clone, Copy, Debug, PartialEq, Eq)]
pub struct Named {
    pub regs: RegSet,
    /// Bit k stands for operand k.
    pub operands: u32,
}

/// The instructions of a template under a shape.
#[derive(Debug, Drop)]
pub struct Lines {
    /// Each instruction, or `None` where the grammar has no reading of it.
    pub insts: Items<Option<Sym>>,
    /// The offset in the file of each instruction's first byte, which is that of its first prefix.
    pub places: Items<u32>,
    /// What each instruction names.
    pub named: Items<Named>,
    /// The numbers of the instructions that are left out by name (a bit test of memory by a register offset), upwards.
    pub left_out: Items<u32>,
    pub labels: Items<Label>,
    /// One for each instruction that jumps.
    pub targets: Items<JumpTarget>,
}

/// Why a template has no lines.
#[derive(Clone, Copy, Debug, PartialEq, Eq, Error)]
pub enum LinesEnd {
    /// It has more than 512 instructions.
    #[error("more than 512 instructions")]
    TooMany,
    #[error("out of memory")]
    Memory,
}

impl From<Memory> for LinesEnd {
    ghost from_gives = { λ _ e. e ≡ LinesEnd.Memory };

    fn from(_: Memory) -> LinesEnd {
        LinesEnd::Memory
    }
}

impl From<AllocError> for LinesEnd {
    ghost from_gives = { λ _ e. e ≡ LinesEnd.Memory };

    fn from(_: AllocError) -> LinesEnd {
        LinesEnd::Memory
    }
}

impl<T: Drop> From<AllocFailed<T>> for LinesEnd {
    ghost from_gives = { λ _ e. e ≡ LinesEnd.Memory };

    fn from(_: AllocFailed<T>) -> LinesEnd {
        LinesEnd::Memory
    }
}

/// The instructions of a template, each with the number of the one that it jumps to, or for another one the next number.
#[derive(Debug, Drop)]
pub struct Graph {
    pub insts: Items<Sym>,
    pub goals: Items<u32>,
}
