//! What the expressions of asm operands are: their sizes, and their numbers where they are constants (C11 6.5 in this project's profile).
#![tactic(auto)]

mod reading;

pub use asm_core::Operand;
pub use reading::{operand, operand_in, token_from};
