//! The operators with one operand.

ghost use Rattle.std.specs.Prelude.{◌≡◌};
ghost use Rattle.c_values.specs.Ends.{Gives};
ghost use Rattle.c_values.specs.Operators.{unary_type, computed_unary_in, folded_unary, unary_of};

use crate::calculation::computed_unary;
use crate::number_type::{INT, NumberType};
use crate::scalar::{Scalar, operand_of};
use crate::{Constant, TypeEnd, Unary, Value};
use std::alloc::Global;

/// The type of `op operand`, if it has one.
fn unary_type(op: Unary, operand: &Scalar) -> Option<NumberType>
    ensures { result ≡ unary_type op operand.now }
{
    match (op, operand) {
        (Unary::Not, _) => Some(INT),
        (Unary::Complement, Scalar::Number(t)) if !t.is_integer() => None,
        (_, Scalar::Number(t)) => Some(t.promoted()),
        (_, Scalar::Pointer(_)) => None,
    }
}

/// The constant that an operator gives of a constant, computed in the type.
fn computed_unary_in(t: NumberType, op: Unary, constant: Constant) -> Constant
    ensures { result ≡ computed_unary_in t op constant }
{
    match (t, constant) {
        (NumberType::Int { size, signed }, Constant::Known(number)) => Constant::Known(
            computed_unary(op, size, signed, number),
        ),
        _ => constant.without_value(constant),
    }
}

fn folded_unary(op: Unary, operand: &Scalar, constant: Constant) -> Constant
    ensures { result ≡ folded_unary op operand.now constant }
{
    match operand {
        Scalar::Number(t) => computed_unary_in(t.promoted(), op, constant),
        Scalar::Pointer(_) => Constant::Varies,
    }
}

/// What `op operand` is: `NoType` where C takes no such operand.
pub fn unary_of(alloc: Global, op: Unary, operand: Value) -> Result<Value, TypeEnd>
    ensures { Gives result (unary_of op operand) }
{
    let operand = operand_of(alloc, operand)?;
    match unary_type(op, &operand.scalar) {
        Some(t) => Ok(Value {
            ctype: t.ctype(),
            constant: folded_unary(op, &operand.scalar, operand.constant),
        }),
        None => Err(TypeEnd::NoType),
    }
}
