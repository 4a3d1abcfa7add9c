//! What the tokens of C's expressions, type names and declarators say: types and constants (C11 6.5, 6.7 in this project's profile).
#![tactic(auto)]

mod attributes;
mod basics;
mod declarator;
mod expression;
mod found;
mod grammar;
mod leaf;
pub mod marks;
mod next;
mod operators;
mod parameters;
mod pointers;
mod postfix;
mod reader;
mod specifiers;
mod suffix;
mod tag;
mod unary;

pub use attributes::{Asked, Attributes, Mode, attributes_at, attributes_from, opens_attribute};
pub use grammar::{
    Context, Declarator, Level, Parameter, Parameters, Shape, Specifiers, TypeName, Typed,
};
pub use next::Next;
pub use reader::Reader;
