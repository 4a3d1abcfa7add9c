//! The rows of exchanges and of what the processor tells. asm_core's `specs/Table/Atomics` says what they are.
#![tactic(auto)]

mod family;

pub use family::{AtomicRow, Atomics};
