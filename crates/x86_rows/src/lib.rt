//! What a row of micro-operations does to a machine, and what it reads, writes and names: once for all instructions. An
//! instruction family is its rows, and calls these functions on them.
#![tactic(auto)]

mod accesses;
mod arithmetic;
mod bits;
mod entries;
mod fact;
mod family;
mod function;
mod line_entries;
mod line_row;
mod memory;
mod part;
mod product;
mod quotient;
mod repeat;
mod shift;
mod state;
mod stepper;
pub mod terms;

pub use accesses::access;
pub use entries::{named, reads, uses, writes};
pub use family::{Family, FamilyRow};
pub use line_entries::{LineEntries, row_entries};
pub use stepper::{Line, MOST, step};
