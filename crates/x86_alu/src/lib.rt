//! The rows of arithmetic and logic. asm_core's `specs/Table/Arithmetic` says what they are.
#![tactic(auto)]

mod family;

pub use family::{AluRow, Arithmetic};
