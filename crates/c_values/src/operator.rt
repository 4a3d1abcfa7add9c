//! The operators of C that compute.

/// An operator with two operands.
#[derive(Clone, Copy, Debug, PartialEq, Eq)]
pub enum Binary {
    Calculation(Calculation),
    Shift(Shift),
    Comparison(Comparison),
    Logic(Logic),
}

/// An operator that computes in the common type of its operands (C11 6.5.5, 6.5.6, 6.5.10 to 6.5.12).
#[derive(Clone, Copy, Debug, PartialEq, Eq)]
pub enum Calculation {
    Multiply,
    Divide,
    Remainder,
    Add,
    Subtract,
    /// `&`
    And,
    /// `^`
    Xor,
    /// `|`
    Or,
}

/// `<<` and `>>` (C11 6.5.7).
#[derive(Clone, Copy, Debug, PartialEq, Eq)]
pub enum Shift {
    Left,
    Right,
}

/// An operator that compares two numbers or pointers (C11 6.5.8 and 6.5.9).
#[derive(Clone, Copy, Debug, PartialEq, Eq)]
pub enum Comparison {
    Less,
    Greater,
    AtMost,
    AtLeast,
    Equal,
    Unequal,
}

/// `&&` and `||` (C11 6.5.13 and 6.5.14).
#[derive(Clone, Copy, Debug, PartialEq, Eq)]
pub enum Logic {
    And,
    Or,
}

/// An operator with one operand that computes (C11 6.5.3.3).
#[derive(Clone, Copy, Debug, PartialEq, Eq)]
pub enum Unary {
    Plus,
    Minus,
    /// `~`
    Complement,
    /// `!`
    Not,
}
