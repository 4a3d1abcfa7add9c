ghost use Rattle.std.specs.Prelude.{◌≡◌, ◌+◌, ◌<◌, ◌≤◌, ◌^◌, ◌↔◌, length, slice_index};
ghost use Rattle.asm_core.specs.Rows.{IsStepOf};
ghost use Rattle.asm_core.specs.Run.{step_of};
ghost use Rattle.asm_core.specs.declared.row.StepEnd.{StepEnd};
ghost use Rattle.x86_table.specs.TableLaws.{ObeysTable};

use crate::every::{AnyRow, Every};
use asm_core::{Code, Machine, Row, StepEnd};

/// Where the instruction of that number goes on when it jumps.
fn goal(goals: &[u32], k: usize) -> u32
    ensures { result ≡ slice_index goals.now k }
{
    if k < goals.len() { goals[k] } else { 0 }
}

/// Does one step of the code: of the instruction at the machine's position. Undefined bits are taken from the choice,
/// and what an instruction learns from outside from the words. It has ended exactly where the position is past the
/// last instruction. There, and after a fault, the machine is as before. The rows of the table's lines, and the rows
/// that tell their entries, tell what steps change and leave, where a repeated instruction is over too.
#[tactic(auto, using(crate::proofs::EntryLaws::obeys_table))]
pub fn step(m: &mut Machine, code: &Code, choice: u64, outside: &[u32; 4]) -> StepEnd
    requires { m.old.at + 1 < 2 ^ 32 }
    ensures is { IsStepOf result (step_of code.now choice outside.now m.old) m.old m.new }
    ensures ended { (result ≡ StepEnd.Ended) ↔ (length code.now.insts ≤ m.old.at) }
    ensures laws { ObeysTable }
{
    let position = m.at as usize;
    match code.insts.get(position) {
        None => StepEnd::Ended,
        Some(inst) => AnyRow { family: Every }.step(
            m,
            inst,
            goal(code.goals.as_slice(), position),
            choice,
            outside,
        ),
    }
}
