ghost use Rattle.std.specs.Prelude.{◌≡◌, ◌≤◌, All, Bool, IfOk, length, IsTrue};
ghost use Rattle.asm_core.specs.Rows.{entry_row};
ghost use Rattle.asm_core.specs.Table.{row_of};
ghost use Rattle.x86_rows.specs.Entered.{AreEntries, IsNarrow};
ghost use Rattle.asm_core.specs.declared.inst.Op.{Op};

use crate::accesses::access;
use crate::entries::{named, reads, uses, writes};
use crate::line_entries::{LineEntries, row_entries};
use crate::line_row::{arg_count, entry, prefixed};
use crate::stepper::{Line, step};
use asm_core::{
    Access, Inst, Machine, Memory, MicroOp, Op, Row, Source, StepEnd, Sym, Width, Write,
};
use std::alloc::Global;

/// A family of instructions: its part of the table.
pub trait Family {
    /// Its operations.
    ghost has: { Op → Bool };

    /// The row of an operation with that many operands.
    fn row<'a>(op: Op, width: Width, operands: usize) -> &'a [MicroOp]
        requires { IsTrue (has op) }
        ensures is { result.now ≡ row_of op width operands }
        ensures few { length result.now ≤ 18 };
}

/// What the instructions of a family do.
#[derive(Clone, Copy)]
pub struct FamilyRow<F> {
    pub family: F,
}

impl<F: Family> FamilyRow<F> {
    /// All that a line writes, names, uses and accesses.
    ///
    /// # Errors
    /// Want of memory.
    pub fn entries(&self, alloc: Global, s: &Sym) -> Result<LineEntries, Memory>
        requires { IsTrue (F.has s.now.op) }
        ensures are { IfOk result (AreEntries (entry_row s.now) s.now) }
        ensures few { IfOk result (λ e. length e.writes ≤ 22) }
        ensures narrow { IfOk result (λ e. All IsNarrow e.writes) }
    {
        let row = entry(s, F::row(s.op, s.width, s.args.as_slice().len()));
        row_entries(alloc, row.as_slice(), s)
    }
}

impl<F: Family> Row for FamilyRow<F> {
    ghost has = { F.has };

    fn reads(&self, s: &Sym, k: usize) -> Option<Source> {
        let row = entry(s, F::row(s.op, s.width, s.args.as_slice().len()));
        reads(row.as_slice(), s, k)
    }

    fn writes(&self, s: &Sym, k: usize) -> Option<Write> {
        let row = entry(s, F::row(s.op, s.width, s.args.as_slice().len()));
        writes(row.as_slice(), s, k)
    }

    fn named(&self, s: &Sym, k: usize, j: usize) -> Option<Source> {
        let row = entry(s, F::row(s.op, s.width, s.args.as_slice().len()));
        named(row.as_slice(), s, k, j)
    }

    fn uses(&self, s: &Sym, k: usize) -> Option<Source> {
        let row = entry(s, F::row(s.op, s.width, s.args.as_slice().len()));
        uses(row.as_slice(), s, k)
    }

    fn access(&self, s: &Sym, k: usize) -> Option<Access> {
        let row = entry(s, F::row(s.op, s.width, s.args.as_slice().len()));
        access(row.as_slice(), s, k)
    }

    fn step(
        &self,
        m: &mut Machine,
        i: &Inst,
        goal: u32,
        choice: u64,
        outside: &[u32; 4],
    ) -> StepEnd {
        let row = prefixed(i.repeat, F::row(i.op, i.width, arg_count(i)));
        let line = Line {
            inst: i,
            choice,
            words: outside,
        };
        step(m, row.as_slice(), &line, goal)
    }
}
