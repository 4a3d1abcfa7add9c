//! Which facts hold where in a graph on some path, found exactly.
//!
//! A block is a graph of nodes, each with two ways on, and each makes of the facts before it those after it. Each fact
//! after a node has to come from one fact before it: then the union of what flows to a node along its edges is what the
//! paths to it show. `prepare` takes all memory, `solve` finds the facts, and `Work::row` gives them.
#![tactic(auto)]

mod block;
mod memory;
mod preparing;
mod rows;
mod solver;
mod steps;
mod work;

pub use block::Block;
pub use memory::Memory;
pub use preparing::prepare;
pub use solver::solve;
pub use work::Work;

#[cfg(test)]
mod tests;
