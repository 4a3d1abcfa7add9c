//! What a name stands for in a row of the table.

ghost use Rattle.std.specs.Prelude.{◌≡◌, ◌==◌, ◌<◌, ◌≤◌, length, IfSome};
ghost use Rattle.std.specs.List.{position};
ghost use Rattle.asm_core.specs.Reading.Chosen.{name_end, op_in, row_name, with_condition};

use asm_core::{Cond, NameRow, Op, Operation};

fn first_zero(name: &[u8]) -> Option<usize>
    ensures is { result ≡ position (λ c. c == 0) name.now }
    ensures within { IfSome result (λ k. k < length name.now) }
{
    name.iter().position(|c| *c == 0)
}

fn name_end(name: &[u8]) -> usize
    ensures is { result ≡ name_end name.now }
    ensures within { result ≤ length name.now }
{
    match first_zero(name) {
        Some(end) => end,
        None => name.len(),
    }
}

/// The row's name without the zeros behind it.
fn row_name(row: &NameRow) -> &[u8]
    ensures { result.now ≡ row_name row.now }
{
    let end = name_end(&row.name);
    &row.name[..end]
}

/// The operation with what stands behind the row's name.
fn with_condition(operation: Operation, rest: &[u8]) -> Option<Op>
    ensures { result ≡ with_condition operation rest.now }
{
    match operation {
        Operation::Of(op) => { if rest.is_empty() { Some(op) } else { None } }
        Operation::Cmov => Cond::named(rest).map(Op::Cmov),
        Operation::Set => Cond::named(rest).map(Op::Set),
        Operation::Jump => Cond::named(rest).map(Op::J),
    }
}

/// What the name stands for in the row: the row's name, with a condition behind it where the row has one.
pub fn op_in(row: &NameRow, name: &[u8]) -> Option<Op>
    ensures { result ≡ op_in row.now name.now }
{
    match name.strip_prefix(row_name(row)) {
        Some(rest) => with_condition(row.operation, rest),
        None => None,
    }
}
