//! What depends on what in a block, along all its paths, and which rules that breaks.
#![tactic(auto)]

mod blocks;
mod context;
mod depth;
mod effect;
mod fact;
mod findings;
mod fitting;
mod flow;
mod ground;
mod judged;
mod layout;
mod line;
mod listing;
pub mod row;
mod rules;
mod sharing;
mod stack;
mod stacks;
mod step;
pub mod value;
mod violation;
mod walk;
mod words;

pub use blocks::{BasicBlock, basic_blocks};
pub use context::Context;
pub use depth::Depth;
pub use effect::{StackEffect, effects};
pub use fact::{Fact, Property, Provenance};
pub use findings::{Least, listed, listed_stack};
pub use fitting::{fits, layout_of};
pub use flow::{Flow, prepare, solve};
pub use ground::Ground;
pub use judged::path_findings;
pub use layout::Layout;
pub use line::{LineMoves, line_entries, line_moves};
pub use listing::{stack_violations, violations};
pub use rules::{
    AtLine, PlaceNames, Scene, Uses, breaks_at_end, breaks_at_line, breaks_u2, collect_end_uses,
};
pub use stack::{Stack, depths};
pub use stacks::stack_findings;
pub use step::{Name, Names, Put, Read};
pub use violation::Violation;
pub use walk::{Walk, note_block, note_end};
