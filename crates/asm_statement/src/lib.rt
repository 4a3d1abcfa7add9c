//! The GNU asm statements of a preprocessed C file, with their parts (GCC manual, "Extended Asm", in this project's profile).
#![tactic(auto)]

mod beginning;
mod class;
mod foreign;
mod form_end;
mod list;
mod literal;
mod operand;
mod parts;
mod source;
mod statement;
mod template;

pub use statement::statements;
