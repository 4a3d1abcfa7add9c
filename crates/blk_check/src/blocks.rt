//! The blocks of lines that are all read.

ghost use Rattle.std.specs.Prelude.{◌≡◌, Ok, length, All, IfOk};
ghost use Rattle.blk_deps.specs.Ways.{IsGraph};
ghost use Rattle.blk_flow.specs.Graph.{graph_of};
ghost use Rattle.blk_check.specs.Judged.{graphs_of};
ghost use Rattle.blk_check.specs.Readable.{HasBlock};

use asm_core::{Graph, Items, Lines, Memory};
use blk_flow::{FlowEnd, graph};
use std::alloc::Global;

/// The block of each reading.
///
/// # Errors
/// Want of memory.
#[tactic(auto, using(crate::proofs::GraphSteps::graph_steps))]
pub fn blocks(alloc: Global, readings: &[Lines]) -> Result<Items<Graph>, Memory>
    requires { All HasBlock readings.now }
    ensures { IfOk result (λ graphs. graphs_of readings.now ≡ Ok graphs) }
{
    let mut graphs = Items::new(alloc);
    for lines in readings {
        graphs.push(block(alloc, lines)?)?;
    }
    Ok(graphs)
}

/// The block of lines that have one.
fn block(alloc: Global, lines: &Lines) -> Result<Graph, Memory>
    requires { HasBlock lines.now }
    ensures { IfOk result (λ g. graph_of lines.now ≡ Ok g) }
{
    match graph(alloc, lines) {
        Ok(graph) => Ok(graph),
        Err(FlowEnd::Memory) => Err(Memory),
        Err(FlowEnd::NoLabel(_)) => unreachable!(),
    }
}
