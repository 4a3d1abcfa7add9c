ghost use Rattle.std.specs.Prelude.{◌≡◌, ◌+◌, ◌≤◌, ◌++◌, length, map};
ghost use Rattle.asm_core.specs.RowTerms.{as_temporary, guarded_op, guarded, zf_from, turn_of};

use crate::micro;
use crate::stepper::MOST;
use crate::terms::{ECX, TO_ECX};
use arrayvec::ArrayVec;
use asm_core::{Bytes, Flag, Input, MicroOp, Reg, Site, Target};

/// A row that isn't in the table, but is made for a line.
pub type MadeRow = ArrayVec<MicroOp, MOST>;

fn as_temporaries(row: &[MicroOp]) -> MadeRow
    requires { length row.now ≤ 18 }
    ensures { result.items ≡ map as_temporary row.now }
{
    let mut made = MadeRow::new();
    for op in row {
        made.push(MicroOp {
            target: Target::Temporary,
            ..*op
        });
    }
    made
}

/// Appends each write of the row, made where micro-operation number `turn` isn't 0, else left.
fn push_guarded(made: &mut MadeRow, row: &[MicroOp], turn: u8)
    requires few { length row.now ≤ 18 }
    requires room { length made.old.items + length row.now ≤ 40 }
    ensures is { made.new.items ≡ made.old.items ++ guarded turn 0 row.now }
    ensures longer { length made.new.items ≤ length made.old.items + length row.now }
{
    for (k, op) in row.iter().enumerate() {
        if let Target::Site(site) = op.target {
            made.push(micro!(
                op.target,
                Pick,
                Input::Earlier(turn),
                Input::Earlier(k as u8),
                Input::Kept(site)
            ));
        }
    }
}

/// The number of the micro-operation that gives ZF; that of all of them where there is none.
pub fn zf_number(row: &[MicroOp]) -> u8
    requires { length row.now ≤ 18 }
    ensures { result ≡ zf_from 0 row.now }
{
    for (k, op) in row.iter().enumerate() {
        if op.target == Target::Site(Site::Flag(Flag::Zf)) {
            return k as u8;
        }
    }
    row.len() as u8
}

/// One turn of a repeated string instruction, whose row this is without a prefix. It stays by the compared values.
pub fn turn(compared: Input, stay: MicroOp, row: &[MicroOp]) -> MadeRow
    requires { length row.now ≤ 18 }
    ensures is { result.items ≡ turn_of compared stay row.now }
    ensures few { length result.items ≤ 40 }
{
    let turn = row.len() as u8;
    let mut made = as_temporaries(row);
    made.push(micro!(Target::Turn, Value, ECX, compared));
    made.push(micro!(Target::Temporary, CountDown, ECX));
    push_guarded(&mut made, row, turn);
    made.push(micro!(
        TO_ECX,
        Pick,
        Input::Earlier(turn),
        Input::Earlier(turn + 1),
        Input::Kept(Site::Register(Reg::Ecx, Bytes::All))
    ));
    made.push(stay);
    made
}
