//! How instructions change how many words are pushed.

ghost use Rattle.std.specs.Prelude.{◌≡◌, [], ◌∷◌, ◌++◌, map, IfOk, OnOk};
ghost use Rattle.std.specs.List.{list_any};
ghost use Rattle.asm_core.specs.Table.{row_of};
ghost use Rattle.asm_core.specs.declared.micro_op.MicroOp.{MicroOp};
ghost use Rattle.blk_deps.specs.StackTable.{effect_of, moves_stack};

use crate::line::{line_entries, pops, pushes};
use asm_core::{Graph, Items, Memory, MicroOp, Sym, Target};
use std::alloc::Global;
use x86_rows::Family;
use x86_table::Every;

/// What an instruction does with the pushed words.
#[derive(Clone, Copy, Debug, PartialEq, Eq)]
pub struct StackEffect {
    pub pushes: bool,
    pub pops: bool,
}

fn moves_stack(row: &[MicroOp]) -> bool
    ensures { result ≡ list_any (λ (op : MicroOp). moves_stack op.target) row.now }
{
    row.iter()
        .any(|op| matches!(op.target, Target::Push | Target::Pop))
}

/// What the instruction does with the pushed words.
///
/// # Errors
/// Want of memory.
fn effect(alloc: Global, line: &Sym) -> Result<StackEffect, Memory>
    ensures { IfOk result (λ e. e ≡ effect_of line.now) }
{
    let row = Every::row(line.op, line.width, line.args.as_slice().len());
    if !moves_stack(row) {
        return Ok(StackEffect {
            pushes: false,
            pops: false,
        });
    }
    let entries = line_entries(alloc, line)?;
    let writes = entries.writes.as_slice();
    Ok(StackEffect {
        pushes: pushes(writes),
        pops: pops(writes),
    })
}

/// What each instruction does with the pushed words.
///
/// # Errors
/// Want of memory.
pub fn effects(alloc: Global, graph: &Graph) -> Result<Items<StackEffect>, Memory>
    ensures { IfOk result (λ it. it ≡ map effect_of graph.now.insts) }
{
    let mut effects = Items::new(alloc);
    for line in graph.insts.as_slice() {
        effects.push(effect(alloc, line)?)?;
    }
    Ok(effects)
}
