//! The rows of moves and jumps. asm_core's `specs/Table/Moves` says what they are.
#![tactic(auto)]

mod conditional;
mod family;

pub use family::{MoveRow, Moves};
