ghost use Rattle.std.specs.Prelude.{IfOk};
ghost use Rattle.dataflow.specs.Working.{IsWorkFor};

use crate::rows::Rows;
use crate::{Block, Memory, Work};
use std::alloc::Global;

/// Takes all the memory that `solve` needs for the block.
///
/// # Errors
/// Want of memory.
pub fn prepare<B: Block>(alloc: Global, block: &B) -> Result<Work, Memory>
    requires { B.IsBlock block.now }
    ensures { IfOk result (IsWorkFor (B.size block.now) (B.width block.now)) }
{
    let size = block.size();
    let width = block.width();
    let Some(count) = size.checked_add(1) else {
        return Err(Memory);
    };
    let rows = Rows::blank(alloc, count, width)?;
    let pending = vec![in alloc; false; size]?;
    let next = vec![in alloc; 0; width]?;
    Ok(Work {
        rows,
        pending,
        next,
    })
}
