ghost use Rattle.std.specs.Prelude.{◌≡◌, ◌+◌, ◌<◌, ◌≤◌, ◌^◌, ◌&&◌, length, slice_index};
ghost use Rattle.std.specs.List.{list_all, list_any};
ghost use Rattle.asm_core.specs.MicroOps.{input_of, op_value, values_of, read_in, is_good_op, destinations_of, put_all, any_value, is_zero, is_set, is_jump, is_stay, is_turn, is_divide, next_of, is_over, divides, takes_outside, is_outside, written, ended_by, row_ended};
ghost use Rattle.asm_core.specs.RowLaws.{ChangesDestinations};
ghost use Rattle.asm_core.specs.Steps.{ObeysLaws};
ghost use Rattle.asm_core.specs.Rows.{IsStepOf};
ghost use Rattle.x86_rows.specs.Control.{kind_of, test_of};

use crate::function::value;
use crate::state::{destination, is_good_op, put, read};
use arrayvec::ArrayVec;
use asm_core::{Destination, Fault, Input, Inst, Machine, MicroOp, StepEnd, Target};

/// How many micro-operations a row has at most, one that is repeated too.
pub const MOST: usize = 40;

type Values = ArrayVec<u64, MOST>;

type Destinations = ArrayVec<Destination, MOST>;

/// An instruction, and what its step takes besides the machine: undefined bits, and the words that come from outside.
#[derive(Clone, Copy)]
pub struct Line<'a> {
    pub inst: &'a Inst,
    pub choice: u64,
    pub words: &'a [u32; 4],
}

fn value_at(values: &[u64], k: usize) -> u64
    ensures { result ≡ slice_index values.now k }
{
    if k < values.len() { values[k] } else { 0 }
}

fn input(line: &Line, m: &Machine, values: &[u64], x: Input) -> u64
    ensures { result ≡ input_of (read_in line.now.inst.now line.now.choice line.now.words.now m.now) values.now x }
{
    match x {
        Input::Earlier(k) => value_at(values, usize::from(k)),
        Input::Number(n) => u64::from(n),
        _ => read(line.inst, line.choice, line.words, m, x),
    }
}

fn computed(line: &Line, m: &Machine, values: &[u64], op: &MicroOp) -> u64
    ensures { result ≡ op_value line.now.inst.now.width (read_in line.now.inst.now line.now.choice line.now.words.now m.now) values.now op.now }
{
    value(
        op.function,
        line.inst.width,
        input(line, m, values, op.x),
        input(line, m, values, op.y),
        input(line, m, values, op.z),
    )
}

fn values(line: &Line, m: &Machine, row: &[MicroOp]) -> Values
    requires { length row.now ≤ 40 }
    ensures { result.items ≡ values_of line.now.inst.now.width (read_in line.now.inst.now line.now.choice line.now.words.now m.now) row.now }
{
    let mut values = Values::new();
    for op in row {
        let value = computed(line, m, values.as_slice(), op);
        values.push(value);
    }
    values
}

fn destinations(i: &Inst, m: &Machine, row: &[MicroOp]) -> Destinations
    requires { length row.now ≤ 40 }
    ensures { result.items ≡ destinations_of i.now m.now row.now }
{
    let mut destinations = Destinations::new();
    for op in row {
        destinations.push(destination(i, m, op.target));
    }
    destinations
}

fn put_all(m: &mut Machine, destinations: &[Destination], values: &[u64])
    ensures { m.new ≡ put_all destinations.now 0 values.now m.old }
{
    for (k, destination) in destinations.iter().enumerate() {
        put(m, *destination, value_at(values, k));
    }
}

fn are_good(i: &Inst, m: &Machine, row: &[MicroOp]) -> bool
    ensures { result ≡ list_all (is_good_op i.now m.now) row.now }
{
    row.iter().all(|op| is_good_op(i, m, op))
}

/// What a value can say of how the step goes on.
#[derive(Clone, Copy)]
enum Control {
    Over,
    Divide,
    Jump,
    Stay,
}

fn says(control: Control, target: Target, value: u64) -> bool
    ensures { result ≡ (kind_of control target && test_of control value) }
{
    match (control, target) {
        (Control::Over, Target::Turn) => value == 0,
        (Control::Divide, Target::Divide) => value != 0,
        (Control::Jump, Target::Jump) => value != 0,
        (Control::Stay, Target::Stay) => value != 0,
        _ => false,
    }
}

/// Whether some value of the row says so.
fn any_says(row: &[MicroOp], values: &[u64], control: Control) -> bool
    ensures { result ≡ any_value (kind_of control) (test_of control) row.now 0 values.now }
{
    for (k, op) in row.iter().enumerate() {
        if says(control, op.target, value_at(values, k)) {
            return true;
        }
    }
    false
}

fn next(row: &[MicroOp], values: &[u64], goal: u32, at: u32) -> u32
    requires { at + 1 < 2 ^ 32 }
    ensures { result ≡ next_of row.now values.now goal at }
{
    if any_says(row, values, Control::Jump) {
        goal
    } else if any_says(row, values, Control::Stay) {
        at
    } else {
        at + 1
    }
}

fn takes_outside(row: &[MicroOp]) -> bool
    ensures { result ≡ takes_outside row.now }
{
    row.iter().any(|op| matches!(op.x, Input::Outside(_)))
}

/// Does a step whose values are known.
fn end(m: &mut Machine, i: &Inst, row: &[MicroOp], goal: u32, values: &[u64]) -> StepEnd
    requires few { length row.now ≤ 40 }
    requires at { m.old.at + 1 < 2 ^ 32 }
    ensures { IsStepOf result (ended_by row.now i.now goal values.now m.old) m.old m.new }
{
    if any_says(row, values, Control::Over) {
        m.at += 1;
        return StepEnd::Moved;
    }
    if !are_good(i, m, row) {
        return StepEnd::Faulted(Fault::Access);
    }
    if any_says(row, values, Control::Divide) {
        return StepEnd::Faulted(Fault::Divide);
    }
    let next = next(row, values, goal, m.at);
    let destinations = destinations(i, m, row);
    put_all(m, destinations.as_slice(), values);
    m.at = next;
    if takes_outside(row) {
        StepEnd::MovedOutside
    } else {
        StepEnd::Moved
    }
}

fn step_by_row(m: &mut Machine, row: &[MicroOp], line: &Line, goal: u32) -> StepEnd
    requires few { length row.now ≤ 40 }
    requires at { m.old.at + 1 < 2 ^ 32 }
    ensures { IsStepOf result (row_ended row.now line.now.inst.now goal line.now.choice line.now.words.now m.old) m.old m.new }
{
    let values = values(line, m, row);
    end(m, line.inst, row, goal, values.as_slice())
}

/// Does one step of an instruction whose row this is. It goes on at the goal where it jumps. After a fault the machine is as
/// before, and in any case only what is at the row's destinations has changed, beside the position. Wherever the line is that
/// the instruction comes from, only what the line's writes tell has changed, and copies are copied.
pub fn step(m: &mut Machine, row: &[MicroOp], line: &Line, goal: u32) -> StepEnd
    requires few { length row.now ≤ 40 }
    requires at { m.old.at + 1 < 2 ^ 32 }
    ensures is { IsStepOf result (row_ended row.now line.now.inst.now goal line.now.choice line.now.words.now m.old) m.old m.new }
    ensures changes { ChangesDestinations row.now line.now.inst.now m.old m.new }
    ensures obeys { ObeysLaws row.now line.now.inst.now goal line.now.choice line.now.words.now m.old m.new }
{
    step_by_row(m, row, line, goal)
}
