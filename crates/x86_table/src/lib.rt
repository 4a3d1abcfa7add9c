//! The whole table of instructions, and one step of code.
#![tactic(auto)]

mod every;
mod stepping;

pub use every::{AnyRow, Every};
pub use stepping::step;
