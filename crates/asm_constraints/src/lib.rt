//! What an asm statement tells the compiler of its operands and of what it changes (GCC manual, "Extended Asm", "Constraints").
#![tactic(auto)]

mod clobber;
mod made;
mod malformed;
mod operand;
mod outside;
mod range;
mod size;
mod statement;
mod symbol;
mod symbol_kind;

pub use operand::names;
pub use statement::interface;
