//! The operators with two operands, by their punctuators.

ghost use Rattle.std.specs.Prelude.{◌≡◌};
ghost use Rattle.c_reader.specs.Operators.{assignment_in, assignment_of, operator_of};
ghost use Rattle.c_reader.specs.Expressions.{operator_at};

use c_values::{Binary, Calculation, Comparison, Logic, Shift};
use c_words::{Punct, Word};

/// An operator with two operands.
#[derive(Clone, Copy)]
pub struct Operator {
    /// How tightly it binds: 0 is the tightest of the ten levels (C11 6.5.5 to 6.5.14).
    pub level: u32,
    pub operation: Binary,
}

/// An assignment (C11 6.5.16).
#[derive(Clone, Copy)]
pub enum Assignment {
    /// `=`
    Plain,
    /// With an operation, as `+=`.
    With(Binary),
}

/// The operator of that level with that operation.
fn row(level: u32, operation: Binary) -> Option<Operator>
    ensures { result ≡ Some (record { level = level; operation = operation }) }
{
    Some(Operator { level, operation })
}

/// The operator that a punctuator is.
fn operator_of(punct: Punct) -> Option<Operator>
    ensures { result ≡ operator_of punct }
{
    match punct {
        Punct::Star => row(0, Binary::Calculation(Calculation::Multiply)),
        Punct::Slash => row(0, Binary::Calculation(Calculation::Divide)),
        Punct::Percent => row(0, Binary::Calculation(Calculation::Remainder)),
        Punct::Plus => row(1, Binary::Calculation(Calculation::Add)),
        Punct::Minus => row(1, Binary::Calculation(Calculation::Subtract)),
        Punct::ShiftLeft => row(2, Binary::Shift(Shift::Left)),
        Punct::ShiftRight => row(2, Binary::Shift(Shift::Right)),
        Punct::Less => row(3, Binary::Comparison(Comparison::Less)),
        Punct::Greater => row(3, Binary::Comparison(Comparison::Greater)),
        Punct::LessEqual => row(3, Binary::Comparison(Comparison::AtMost)),
        Punct::GreaterEqual => row(3, Binary::Comparison(Comparison::AtLeast)),
        Punct::Equal => row(4, Binary::Comparison(Comparison::Equal)),
        Punct::NotEqual => row(4, Binary::Comparison(Comparison::Unequal)),
        Punct::Ampersand => row(5, Binary::Calculation(Calculation::And)),
        Punct::Caret => row(6, Binary::Calculation(Calculation::Xor)),
        Punct::Bar => row(7, Binary::Calculation(Calculation::Or)),
        Punct::And => row(8, Binary::Logic(Logic::And)),
        Punct::Or => row(9, Binary::Logic(Logic::Or)),
        _ => None,
    }
}

/// The operator that a word is, if it is one that binds so tightly.
pub fn operator_at(level: u32, word: Word) -> Option<Binary>
    ensures { result ≡ operator_at level word }
{
    let Word::Punct(punct) = word else {
        return None;
    };
    let operator = operator_of(punct)?;
    if operator.level == level {
        Some(operator.operation)
    } else {
        None
    }
}

/// The assignment that a punctuator is.
fn assignment_of(punct: Punct) -> Option<Assignment>
    ensures { result ≡ assignment_of punct }
{
    match punct {
        Punct::Assign => Some(Assignment::Plain),
        Punct::StarAssign => Some(Assignment::With(Binary::Calculation(Calculation::Multiply))),
        Punct::SlashAssign => Some(Assignment::With(Binary::Calculation(Calculation::Divide))),
        Punct::PercentAssign => Some(Assignment::With(Binary::Calculation(Calculation::Remainder))),
        Punct::PlusAssign => Some(Assignment::With(Binary::Calculation(Calculation::Add))),
        Punct::MinusAssign => Some(Assignment::With(Binary::Calculation(Calculation::Subtract))),
        Punct::ShiftLeftAssign => Some(Assignment::With(Binary::Shift(Shift::Left))),
        Punct::ShiftRightAssign => Some(Assignment::With(Binary::Shift(Shift::Right))),
        Punct::AndAssign => Some(Assignment::With(Binary::Calculation(Calculation::And))),
        Punct::XorAssign => Some(Assignment::With(Binary::Calculation(Calculation::Xor))),
        Punct::OrAssign => Some(Assignment::With(Binary::Calculation(Calculation::Or))),
        _ => None,
    }
}

/// The assignment that a word is.
pub fn assignment_in(word: Word) -> Option<Assignment>
    ensures { result ≡ assignment_in word }
{
    match word {
        Word::Punct(punct) => assignment_of(punct),
        _ => None,
    }
}
