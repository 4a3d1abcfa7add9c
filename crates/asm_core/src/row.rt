ghost use Rattle.std.specs.Prelude.{◌≡◌, ◌+◌, ◌<◌, ◌^◌, Bool, slice_get, IsTrue};
ghost use Rattle.asm_core.specs.Entries.{reads_of, writes_of, named_of, uses_of, accesses_of};
ghost use Rattle.asm_core.specs.Rows.{IsStepOf, entry_row, row_step};
ghost use Rattle.asm_core.specs.declared.inst.Op.{Op};

use crate::{Arg, Fault, Flag, Inst, Machine, Sym};

/// What an instruction reads or names.
#[derive(Clone, Copy, Debug, PartialEq, Eq)]
pub enum Source {
    /// An operand, or a register or the memory of a string instruction that is used unasked.
    Arg(Arg),
    /// The address of a memory operand itself.
    Address(Arg),
    Flag(Flag),
    /// The pushed word on top.
    Top,
    Undefined,
    Outside,
}

/// What is written.
#[derive(Clone, Copy, Debug, PartialEq, Eq)]
pub enum Written {
    Arg(Arg),
    Flag(Flag),
    Push,
    Pop,
}

/// How a written value comes about.
#[derive(Clone, Copy, Debug, PartialEq, Eq)]
pub enum By {
    /// The source's bytes, from that one on.
    Copy(Source, u8),
    /// What is named determines it.
    Named,
    /// The flag takes that value.
    Set(bool),
}

/// One write of an instruction: `count` bytes of what is written, from byte `first` on.
#[derive(Clone, Copy, Debug, PartialEq, Eq)]
pub struct Write {
    pub to: Written,
    pub first: u8,
    pub count: u8,
    pub by: By,
}

/// One access to memory.
#[derive(Clone, Copy, Debug, PartialEq, Eq)]
pub struct Access {
    pub to: Arg,
    pub bytes: u8,
    pub store: bool,
}

/// How a step ends.
#[derive(Clone, Copy, Debug, PartialEq, Eq)]
pub enum StepEnd {
    Moved,
    /// The instruction took words from outside.
    MovedOutside,
    /// There was no instruction.
    Ended,
    Faulted(Fault),
}

/// What the instructions of a family do. A row is a list of micro-operations; `specs/Table` has them all.
pub trait Row {
    /// The operations of the family.
    ghost has: { Op → Bool };

    /// The k-th thing that is copied, named or used.
    fn reads(&self, s: &Sym, k: usize) -> Option<Source>
        requires { IsTrue (has s.now.op) }
        ensures { result ≡ slice_get (reads_of (entry_row s.now) s.now) k };

    /// The k-th write, in the row's order.
    fn writes(&self, s: &Sym, k: usize) -> Option<Write>
        requires { IsTrue (has s.now.op) }
        ensures { result ≡ slice_get (writes_of (entry_row s.now) s.now) k };

    /// The j-th thing that the k-th write names. Nothing where the write is a copy or sets a flag.
    fn named(&self, s: &Sym, k: usize, j: usize) -> Option<Source>
        requires { IsTrue (has s.now.op) }
        ensures { result ≡ slice_get (named_of (entry_row s.now) s.now k) j };

    /// The k-th thing that a jump, a division or a repeated instruction depends on.
    fn uses(&self, s: &Sym, k: usize) -> Option<Source>
        requires { IsTrue (has s.now.op) }
        ensures { result ≡ slice_get (uses_of (entry_row s.now) s.now) k };

    /// The k-th access to memory, loads before stores.
    fn access(&self, s: &Sym, k: usize) -> Option<Access>
        requires { IsTrue (has s.now.op) }
        ensures { result ≡ slice_get (accesses_of (entry_row s.now) s.now) k };

    /// Does one step of the instruction, which goes on at the goal where it jumps. Undefined bits are taken from the choice,
    /// and what comes from outside from the words. After a fault the machine is as before.
    fn step(&self, m: &mut Machine, i: &Inst, goal: u32, choice: u64, outside: &[u32; 4]) -> StepEnd
        requires family { IsTrue (has i.now.op) }
        requires at { m.old.at + 1 < 2 ^ 32 }
        ensures { IsStepOf result (row_step i.now goal choice outside.now m.old) m.old m.new };
}
