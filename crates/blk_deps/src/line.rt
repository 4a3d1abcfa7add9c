//! What an instruction does to values: what it reads, puts, uses and reaches.

ghost use Rattle.std.specs.Prelude.{◌≤◌, IfOk};
ghost use Rattle.asm_core.specs.WellFormed.{IsInterface};
ghost use Rattle.blk_deps.specs.Ground.{IsContext};
ghost use Rattle.blk_deps.specs.LineMoves.{AreLineEntries, IsInstance, IsLineMoves, interface_of, shape_of};

mod instance;
mod names;
mod puts;
mod reads;
mod used;

use crate::{Context, Put, Read};
use asm_core::{Access, Items, Memory, Sym};
use instance::Instance;
use std::alloc::Global;
pub(crate) use used::{pops, pushes};
use x86_rows::{FamilyRow, LineEntries};
use x86_table::{AnyRow, Every};

/// What an instruction does to values under a shape.
#[derive(Debug, Drop)]
pub struct LineMoves {
    /// What is read, the n-th into hand n.
    pub reads: Items<Read>,
    /// What is then put down, in order.
    pub puts: Items<Put>,
    /// The hands whose values are used.
    pub used: Items<u8>,
    /// The accesses to memory, loads before stores.
    pub accesses: Items<Access>,
    /// Bit k: the address of operand k is used.
    pub addressed: u32,
    pub pushes: bool,
    pub pops: bool,
}

const ROWS: AnyRow = FamilyRow { family: Every };

/// All that the line writes, names, uses and accesses, whatever the shape.
///
/// # Errors
/// Want of memory.
pub fn line_entries(alloc: Global, line: &Sym) -> Result<LineEntries, Memory>
    ensures { IfOk result (AreLineEntries line.now) }
{
    ROWS.entries(alloc, line)
}

/// What the line does under a shape, where so many words are pushed before it, given all that it writes and names.
fn moves_of(alloc: Global, x: &Instance) -> Result<LineMoves, Memory>
    requires { IsInstance x.now }
    ensures { IfOk result (IsLineMoves (interface_of x.now) (shape_of x.now) x.now.depth x.now.line.now) }
{
    let writes = x.entries.writes.as_slice();
    let accesses = x.entries.accesses.as_slice();
    Ok(LineMoves {
        reads: reads::line_reads(alloc, x)?,
        puts: puts::line_puts(alloc, x)?,
        used: used::used_hands(alloc, writes)?,
        accesses: Items::from_slice(alloc, accesses)?,
        addressed: used::addressed(accesses, x.entries.reads.as_slice()),
        pushes: used::pushes(writes),
        pops: used::pops(writes),
    })
}

/// What the instruction does under a shape, where so many words are pushed before it.
///
/// # Errors
/// Want of memory.
pub fn line_moves(
    alloc: Global,
    context: &Context,
    depth: u8,
    line: &Sym,
) -> Result<LineMoves, Memory>
    requires context { IsContext context.now }
    requires interface { IsInterface context.now.interface.now }
    requires depth { depth ≤ 16 }
    ensures { IfOk result (IsLineMoves context.now.interface.now context.now.shape.now depth line.now) }
{
    let entries = line_entries(alloc, line)?;
    moves_of(
        alloc,
        &Instance {
            context,
            depth,
            line,
            entries: &entries,
        },
    )
}
