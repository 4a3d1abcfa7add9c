//! The rows of string instructions. asm_core's `specs/Table/Strings` says what they are.
#![tactic(auto)]

mod family;

pub use family::{StringRow, Strings};
