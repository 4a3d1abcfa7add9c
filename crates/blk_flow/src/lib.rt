//! Which instructions may follow one another.
#![tactic(auto)]

mod flow;
mod flow_end;

pub use flow::{graph, successors};
pub use flow_end::FlowEnd;
