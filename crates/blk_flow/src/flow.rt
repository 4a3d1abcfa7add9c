//! The graph of a template's instructions.

ghost use Rattle.std.specs.Prelude.{◌≡◌, ◌+◌, ◌^◌, ◌<◌, ◌≤◌, length, All, IsSome};
ghost use Rattle.blk_flow.specs.Graph.{Gives, always_jumps, goal_in, graph_of, jumps, successors_of};

use crate::FlowEnd;
use asm_core::{Arg, Duplicate, Graph, Items, JumpTarget, Lines, Op, Sym};
use std::alloc::Global;

/// The goal of instruction `n`; `None` where it jumps to no label.
fn goal_in(targets: &[JumpTarget], n: u32) -> Option<u32>
    requires { n + 1 < 2 ^ 32 }
    ensures { result ≡ goal_in targets.now n }
{
    for target in targets {
        if target.inst == n {
            return target.goal;
        }
    }
    Some(n + 1)
}

/// The graph of lines that are all read, each instruction with its goal.
///
/// # Errors
/// The first instruction that jumps to no label; or want of memory.
pub fn graph(alloc: Global, l: &Lines) -> Result<Graph, FlowEnd>
    requires read { All (λ s. IsSome s) l.now.insts }
    requires few { length l.now.insts ≤ 512 }
    ensures { Gives result (graph_of l.now) }
{
    let targets = l.targets.as_slice();
    let lines = l.insts.as_slice();
    let mut insts = Items::new(alloc);
    let mut goals = Items::new(alloc);
    for (n, line) in lines.iter().enumerate() {
        let Some(sym) = line else {
            continue;
        };
        let number = n as u32;
        let Some(goal) = goal_in(targets, number) else {
            return Err(FlowEnd::NoLabel(number));
        };
        insts.push(sym.duplicate(alloc)?)?;
        goals.push(goal)?;
    }
    Ok(Graph { insts, goals })
}

fn jumps(s: &Sym) -> bool
    ensures { result ≡ jumps s.now }
{
    s.args
        .as_slice()
        .iter()
        .any(|arg| matches!(arg, Arg::Label(_)))
}

fn always_jumps(op: Op) -> bool
    ensures { result ≡ always_jumps op }
{
    matches!(op, Op::Jmp)
}

/// The next instruction's number, `None` for `jmp` alone; and the goal, `None` exactly where the instruction doesn't jump.
pub fn successors(g: &Graph, n: u32) -> [Option<u32>; 2]
    requires inside { n < length g.now.insts }
    requires goals { length g.now.goals ≡ length g.now.insts }
    requires few { length g.now.insts < 2 ^ 32 }
    ensures { result ≡ successors_of g.now n }
{
    let at = n as usize;
    let sym = &g.insts.as_slice()[at];
    let next = if always_jumps(sym.op) {
        None
    } else {
        Some(n + 1)
    };
    let goal = if jumps(sym) {
        Some(g.goals.as_slice()[at])
    } else {
        None
    };
    [next, goal]
}
