//! The operators with two operands that compute.

ghost use Rattle.std.specs.Prelude.{◌≡◌};
ghost use Rattle.c_values.specs.Ends.{Gives};
ghost use Rattle.c_values.specs.Operands.{without_value, constant_of, is_constant};
ghost use Rattle.c_values.specs.Operators.{calculation_type, shift_type, comparison_type, binary_type, computing_type, computed_in, decided, evaluated, folded, binary_of};

use crate::calculation::computed;
use crate::number_type::{INT, NumberType};
use crate::scalar::{Operand, Scalar, operand_of};
use crate::{Binary, Calculation, Constant, Logic, TypeEnd, Value};
use std::alloc::Global;

impl Calculation {
    ghost use Rattle.c_values.specs.Operators.{is_additive, takes_floats, takes};

    fn is_additive(self) -> bool
        ensures { result ≡ is_additive self }
    {
        matches!(self, Calculation::Add | Calculation::Subtract)
    }

    fn takes_floats(self) -> bool
        ensures { result ≡ takes_floats self }
    {
        matches!(self, Calculation::Multiply | Calculation::Divide) || self.is_additive()
    }

    /// Whether it takes a number of the type.
    fn takes(self, t: NumberType) -> bool
        ensures { result ≡ takes self t }
    {
        self.takes_floats() || t.is_integer()
    }
}

/// The type of `left op right` (C11 6.5.5, 6.5.6 and 6.5.10 to 6.5.12).
fn calculation_type(op: Calculation, left: Scalar, right: Scalar) -> Option<Scalar>
    ensures { result ≡ calculation_type op left right }
{
    match (left, right) {
        (Scalar::Number(a), Scalar::Number(b)) => {
            if op.takes(a) && op.takes(b) {
                Some(Scalar::Number(a.common(b)))
            } else {
                None
            }
        }
        (Scalar::Pointer(to), Scalar::Number(b)) => {
            if op.is_additive() && b.is_integer() {
                Some(Scalar::Pointer(to))
            } else {
                None
            }
        }
        (Scalar::Number(a), Scalar::Pointer(to)) => {
            if matches!(op, Calculation::Add) && a.is_integer() {
                Some(Scalar::Pointer(to))
            } else {
                None
            }
        }
        (Scalar::Pointer(_), Scalar::Pointer(_)) => {
            if matches!(op, Calculation::Subtract) {
                Some(Scalar::Number(INT))
            } else {
                None
            }
        }
    }
}

/// The type of a shift: the promoted left operand's (C11 6.5.7, 3).
fn shift_type(left: Scalar, right: Scalar) -> Option<Scalar>
    ensures { result ≡ shift_type left right }
{
    match (left, right) {
        (Scalar::Number(a), Scalar::Number(b)) if a.is_integer() && b.is_integer() => Some(
            Scalar::Number(a.promoted()),
        ),
        _ => None,
    }
}

/// The type of a comparison (C11 6.5.8 and 6.5.9); a pointer is compared with an integer too.
fn comparison_type(left: Scalar, right: Scalar) -> Option<Scalar>
    ensures { result ≡ comparison_type left right }
{
    match (left, right) {
        (Scalar::Pointer(_), Scalar::Number(t)) | (Scalar::Number(t), Scalar::Pointer(_)) => {
            if t.is_integer() {
                Some(Scalar::Number(INT))
            } else {
                None
            }
        }
        _ => Some(Scalar::Number(INT)),
    }
}

/// The type of `left op right`, if it has one.
pub fn binary_type(op: Binary, left: Scalar, right: Scalar) -> Option<Scalar>
    ensures { result ≡ binary_type op left right }
{
    match op {
        Binary::Calculation(op) => calculation_type(op, left, right),
        Binary::Shift(_) => shift_type(left, right),
        Binary::Comparison(_) => comparison_type(left, right),
        Binary::Logic(_) => Some(Scalar::Number(INT)),
    }
}

/// The type that two numbers are computed in.
fn computing_type(op: Binary, left: NumberType, right: NumberType) -> NumberType
    ensures { result ≡ computing_type op left right }
{
    match op {
        Binary::Shift(_) => left.promoted(),
        _ => left.common(right),
    }
}

/// The constant that an operator gives of two constants, computed in the type.
fn computed_in(t: NumberType, op: Binary, left: Constant, right: Constant) -> Constant
    ensures { result ≡ computed_in t op left right }
{
    match (t, left, right) {
        (NumberType::Int { size, signed }, Constant::Known(x), Constant::Known(y)) => Constant::of(
            computed(op, size, signed, x, y),
        ),
        _ => left.without_value(right),
    }
}

/// Whether the answer of `&&` or `||` is decided by its first part, and which it is.
fn decided(op: Binary, left: Constant) -> Option<bool>
    ensures { result ≡ decided op left }
{
    match (op, left) {
        (Binary::Logic(Logic::And), Constant::Known(0)) => Some(false),
        (Binary::Logic(Logic::Or), Constant::Known(number)) if number != 0 => Some(true),
        _ => None,
    }
}

/// The constant that an operator gives of two operands which both count.
fn evaluated(op: Binary, left: &Operand, right: &Operand) -> Constant
    ensures { result ≡ evaluated op left.now right.now }
{
    match (&left.scalar, &right.scalar) {
        (Scalar::Number(a), Scalar::Number(b)) => computed_in(
            computing_type(op, *a, *b),
            op,
            left.constant,
            right.constant,
        ),
        _ => Constant::Varies,
    }
}

/// The constant that an operator gives.
fn folded(op: Binary, left: &Operand, right: &Operand) -> Constant
    ensures { result ≡ folded op left.now right.now }
{
    match decided(op, left.constant) {
        Some(answer) if right.constant.is_constant() => Constant::Known(i128::from(answer)),
        Some(_) => Constant::Varies,
        None => evaluated(op, left, right),
    }
}

/// What `left op right` is: `NoType` where C takes no such operands.
///
/// The part of `&&` and `||` that C doesn't evaluate needs no value, though it must be a constant for the whole to be one.
pub fn binary_of(alloc: Global, op: Binary, left: Value, right: Value) -> Result<Value, TypeEnd>
    ensures { Gives result (binary_of op left right) }
{
    let left = operand_of(alloc, left)?;
    let right = operand_of(alloc, right)?;
    let constant = folded(op, &left, &right);
    match binary_type(op, left.scalar, right.scalar) {
        Some(scalar) => Ok(Value {
            ctype: scalar.ctype(),
            constant,
        }),
        None => Err(TypeEnd::NoType),
    }
}
