//! The rows of shifts, rotations and bits. asm_core's `specs/Table/Bits` says what they are.
#![tactic(auto)]

mod family;

pub use family::{Bits, BitsRow};
