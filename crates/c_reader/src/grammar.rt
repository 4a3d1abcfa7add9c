//! What is read of expressions, type names and declarators. Each has the index of the token behind it.

use crate::attributes::Attributes;
use asm_core::Items;
use c_types::CType;
use c_values::Value;

/// How far an expression goes (C11 6.5).
#[derive(Clone, Copy)]
pub enum Level {
    /// With its commas (6.5.17).
    Comma,
    /// An assignment expression (6.5.16).
    Assignment,
    /// A conditional expression (6.5.15).
    Conditional,
    /// A cast expression (6.5.4).
    Cast,
    /// What `sizeof` is asked of: a unary expression, or a type name in parentheses (6.5.3).
    SizeOperand,
}

/// Where a type is named.
#[derive(Clone, Copy)]
pub enum Context {
    /// In a declaration: bodies may stand there, and storage classes.
    Declaration,
    /// In an expression.
    Expression,
}

/// Whether a declarator has a name (C11 6.7.6, 6.7.7).
#[derive(Clone, Copy)]
pub enum Shape {
    /// It has one.
    Named,
    /// It has none.
    Abstract,
    /// A parameter's, which may have one.
    Parameter,
}

/// An expression's value.
#[derive(Drop)]
pub struct Typed {
    pub value: Value,
    pub end: usize,
}

/// A type by its name (C11 6.7.7).
#[derive(Drop)]
pub struct TypeName {
    pub ctype: CType,
    pub end: usize,
}

/// The specifiers of a declaration (C11 6.7).
#[derive(Drop)]
pub struct Specifiers {
    /// `Unknown` where the type isn't known.
    pub ctype: CType,
    pub is_typedef: bool,
    pub is_register: bool,
    pub attributes: Attributes,
    pub end: usize,
}

/// A declarator (C11 6.7.6).
#[derive(Drop)]
pub struct Declarator {
    /// The index of the name's token.
    pub name: Option<usize>,
    pub ctype: CType,
    /// The index of the parenthesis that opens the parameters next to the name, parentheses around it aside.
    pub parameters: Option<usize>,
    pub attributes: Attributes,
    pub end: usize,
}

/// A parameter of a function (C11 6.7.6.3).
#[derive(Drop)]
pub struct Parameter {
    /// The index of the name's token.
    pub name: Option<usize>,
    /// `None` where the type isn't known.
    pub ctype: Option<CType>,
}

/// The parameters between parentheses.
#[derive(Drop)]
pub struct Parameters {
    pub list: Items<Parameter>,
    pub end: usize,
}
