//! What C's literals stand for: the bytes of string and character literals, and the types and values of integer constants
//! (C11 6.4.4 and 6.4.5, for i386 and in this project's profile).
#![tactic(auto)]

mod base;
mod character;
mod escape;
mod integer;
mod literal;
mod literal_end;
mod number;
mod plain;
mod raw;
mod string;
mod suffix;

pub use character::character_constant;
pub use integer::{IntegerConstant, integer_constant};
pub use literal::read_all;
pub use literal_end::LiteralEnd;
pub use plain::Plain;
pub use raw::{Raw, raws_between, raws_in};
pub use string::{concatenated_length, string_length};
