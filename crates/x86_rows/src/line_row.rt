ghost use Rattle.std.specs.Prelude.{◌≡◌, ◌≤◌, ◌&&◌, length, slice_get};
ghost use Rattle.asm_core.specs.RowTerms.{repeated};
ghost use Rattle.asm_core.specs.Rows.{arg_count, is_zero_count, same_place, same_register, entry_of};
ghost use Rattle.asm_core.specs.Table.{is_shift, self_row};
ghost use Rattle.asm_core.specs.Table.Bits.{no_shift_row};
ghost use Rattle.x86_rows.specs.LineRow.{ops_of};

use crate::fact::slice_number;
use crate::memory::number;
use crate::repeat::{MadeRow, turn, zf_number};
use crate::terms::{CF, ONE, TO_SECOND, ZERO};
use crate::{micro, with_difference_flags, with_logic_flags};
use asm_core::{Arg, Input, Inst, MicroOp, Op, Place, Repeat, Sym, Target};
use sqlite_items::at;

/// The row of a line: one of the table, or one that was made for it.
#[derive(Drop)]
pub enum LineRow<'a> {
    Table(&'a [MicroOp]),
    Made(MadeRow),
}

impl<'a> LineRow<'a> {
    pub fn as_slice(&self) -> &[MicroOp]
        ensures { result.now ≡ ops_of self.now }
    {
        match self {
            LineRow::Table(row) => row,
            LineRow::Made(row) => row.as_slice(),
        }
    }
}

/// The row of a line with that prefix, given the one that it has without.
pub fn prefixed<'a>(repeat: Repeat, row: &'a [MicroOp]) -> LineRow<'a>
    requires { length row.now ≤ 18 }
    ensures is { ops_of result ≡ repeated repeat row.now }
    ensures few { length (ops_of result) ≤ 40 }
{
    let zf = Input::Earlier(zf_number(row));
    match repeat {
        Repeat::No => LineRow::Table(row),
        Repeat::Rep => LineRow::Made(turn(ZERO, micro!(Target::Stay, Value, ONE), row)),
        Repeat::Repe => LineRow::Made(turn(zf, micro!(Target::Stay, Value, zf), row)),
        Repeat::Repne => LineRow::Made(turn(zf, micro!(Target::Stay, IsZero, zf), row)),
    }
}

/// How many operands an instruction has.
pub fn arg_count(i: &Inst) -> usize
    ensures { result ≡ arg_count i.now }
{
    match (at(&i.args, 0), at(&i.args, 1), at(&i.args, 2)) {
        (_, _, Some(Some(_))) => 3,
        (_, Some(Some(_)), _) => 2,
        (Some(Some(_)), _, _) => 1,
        _ => 0,
    }
}

// ---- lines whose operands, as they are written, say more than their values do

const TOUCH_FIRST: [MicroOp; 1] = [micro!(Target::Touch(0), Value, ZERO)];

const TOUCH_SECOND: [MicroOp; 1] = [micro!(Target::Touch(1), Value, ZERO)];

const TOUCH_THIRD: [MicroOp; 1] = [micro!(Target::Touch(2), Value, ZERO)];

/// The row of a shift with that many operands whose count is known to be 0.
fn no_shift_row<'a>(operands: usize) -> &'a [MicroOp]
    ensures is { result.now ≡ no_shift_row operands }
    ensures few { length result.now ≤ 18 }
{
    match operands {
        1 => &TOUCH_FIRST,
        2 => &TOUCH_SECOND,
        _ => &TOUCH_THIRD,
    }
}

const XOR_SELF: [MicroOp; 7] = with_logic_flags!(micro!(TO_SECOND, Value, ZERO));

const SUB_SELF: [MicroOp; 7] = with_difference_flags!(
    [micro!(TO_SECOND, Difference, ZERO, ZERO, ZERO)],
    (ZERO, ZERO, ZERO, 0),
    []
);

const SBB_SELF: [MicroOp; 7] = with_difference_flags!(
    [micro!(TO_SECOND, Difference, ZERO, ZERO, CF)],
    (ZERO, ZERO, CF, 0),
    []
);

/// The row of an operation on one register, given the one that it has on any two operands.
fn self_row<'a>(op: Op, row: LineRow<'a>) -> LineRow<'a>
    requires { length (ops_of row) ≤ 40 }
    ensures is { ops_of result ≡ self_row op (ops_of row.entry) }
    ensures few { length (ops_of result) ≤ 40 }
{
    match op {
        Op::Xor => LineRow::Table(&XOR_SELF),
        Op::Sub => LineRow::Table(&SUB_SELF),
        Op::Sbb => LineRow::Table(&SBB_SELF),
        _ => row,
    }
}

fn is_shift(op: Op) -> bool
    ensures { result ≡ is_shift op }
{
    matches!(
        op,
        Op::Shl | Op::Shr | Op::Sar | Op::Rol | Op::Ror | Op::Shld | Op::Shrd
    )
}

fn is_zero_count(arg: Option<Arg>) -> bool
    ensures { result ≡ is_zero_count arg }
{
    match arg {
        Some(Arg::Number(n)) => number(n, 5) == 0,
        _ => false,
    }
}

fn same_place(p: Place, q: Place) -> bool
    ensures { result ≡ same_place p q }
{
    match (p, q) {
        (Place::Reg(r), Place::Reg(q)) => r.number() == q.number(),
        (Place::Operand(j), Place::Operand(k)) => j == k,
        _ => false,
    }
}

/// Whether both operands are one register, by one name.
fn same_register(first: Option<Arg>, second: Option<Arg>) -> bool
    ensures { result ≡ same_register first second }
{
    match (first, second) {
        (Some(Arg::Register(p, slice)), Some(Arg::Register(q, other))) => same_place(p, q)
            && slice_number(slice) == slice_number(other),
        _ => false,
    }
}

/// The row that tells what a line names and accesses, given the one that the table has for its operation.
pub fn entry<'a>(s: &Sym, row: &'a [MicroOp]) -> LineRow<'a>
    requires { length row.now ≤ 18 }
    ensures is { ops_of result ≡ entry_of s.now (repeated s.now.repeat row.now) }
    ensures few { length (ops_of result) ≤ 40 }
{
    if is_shift(s.op) && is_zero_count(s.args.get(0)) {
        return LineRow::Table(no_shift_row(s.args.as_slice().len()));
    }
    let row = prefixed(s.repeat, row);
    if same_register(s.args.get(0), s.args.get(1)) {
        self_row(s.op, row)
    } else {
        row
    }
}
