//! What C's operators give: the type and the constant of an expression, from those of its parts (C11 6.5).
//!
//! Types are those of i386: int, long and pointers have 4 bytes, long long has 8 (System V ABI). Where C or this project's
//! profile gives no type, the answer is `TypeEnd::NoType`; where there is no constant, `Constant` says so.
#![tactic(auto)]

mod assignment;
mod binary;
mod calculation;
mod cast;
mod choice;
mod literal;
mod member;
mod number;
mod number_type;
mod operator;
mod pointer;
mod scalar;
mod type_end;
mod unary;
mod value;

pub use assignment::{assignment_of, comma_of, compound_of, step_of};
pub use binary::binary_of;
pub use cast::cast_of;
pub use choice::conditional_of;
pub use literal::{character_constant, integer_constant, sizeof_of, string_literal};
pub use member::{member_of, pointed_member_of};
pub use operator::{Binary, Calculation, Comparison, Logic, Shift, Unary};
pub use pointer::{address_of, call_of, dereference_of, index_of};
pub use scalar::varying;
pub use type_end::TypeEnd;
pub use unary::unary_of;
pub use value::{Constant, Value};
