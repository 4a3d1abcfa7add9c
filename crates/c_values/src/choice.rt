//! The conditional operator.

ghost use Rattle.std.specs.Prelude.{◌≡◌, IfOk};
ghost use Rattle.c_values.specs.Ends.{Gives};
ghost use Rattle.c_values.specs.Choices.{composite, shared_type, pointed_to, chosen_at, selected, selected_as, conditional_of};

use crate::cast::is_void;
use crate::scalar::{Operand, Scalar, operand_of};
use crate::{Constant, TypeEnd, Value};
use asm_core::Boxed;
use c_types::CType;
use std::alloc::{AllocError, Global};

/// The type of two parts that are `void`, or the same struct or union.
fn shared_type(a: &CType, b: &CType) -> Option<CType>
    ensures { result ≡ shared_type a.now b.now }
{
    match (a, b) {
        (CType::Void, CType::Void) => Some(CType::Void),
        (CType::Tagged(a), CType::Tagged(b)) if *a == *b => Some(CType::Tagged(*a)),
        _ => None,
    }
}

/// What the result points to, of two pointers to known types: the same struct or union, or it isn't known.
fn composite(a: &CType, b: &CType) -> CType
    ensures { result ≡ composite a.now b.now }
{
    match (a, b) {
        (CType::Tagged(a), CType::Tagged(b)) if *a == *b => CType::Tagged(*a),
        _ => CType::Unknown,
    }
}

/// What the result points to, of two pointers.
fn pointed_to(
    alloc: Global,
    first: Constant,
    a: Boxed<CType>,
    second: Constant,
    b: Boxed<CType>,
) -> Result<Boxed<CType>, AllocError>
    ensures { IfOk result (λ t. t ≡ pointed_to first a second b) }
{
    if second.is_null() {
        return Ok(a);
    }
    if first.is_null() {
        return Ok(b);
    }
    if is_void(a.get()) {
        return Ok(a);
    }
    if is_void(b.get()) {
        return Ok(b);
    }
    Boxed::new(alloc, composite(a.get(), b.get()))
}

/// The type of two scalar parts.
fn chosen_type(alloc: Global, a: Operand, b: Operand) -> Result<Scalar, TypeEnd>
    ensures { Gives result (chosen_at a.scalar a.constant b.scalar b.constant) }
{
    match (a.scalar, b.scalar) {
        (Scalar::Number(x), Scalar::Number(y)) => Ok(Scalar::Number(x.common(y))),
        (Scalar::Pointer(p), Scalar::Pointer(q)) => {
            let to = pointed_to(alloc, a.constant, p, b.constant, q)?;
            Ok(Scalar::Pointer(to))
        }
        (Scalar::Pointer(p), Scalar::Number(_)) => {
            if b.constant.is_null() {
                Ok(Scalar::Pointer(p))
            } else {
                Err(TypeEnd::NoType)
            }
        }
        (Scalar::Number(_), Scalar::Pointer(q)) => {
            if a.constant.is_null() {
                Ok(Scalar::Pointer(q))
            } else {
                Err(TypeEnd::NoType)
            }
        }
    }
}

/// The constant of the part that the condition chooses.
fn selected(condition: Constant, a: Constant, b: Constant) -> Constant
    ensures { result ≡ selected condition a b }
{
    match condition {
        Constant::Known(number) if a.is_constant() && b.is_constant() => {
            if number == 0 { b } else { a }
        }
        Constant::Undefined => a.without_value(b),
        _ => Constant::Varies,
    }
}

/// That constant in the type of the result.
fn selected_as(t: &Scalar, constant: Constant) -> Constant
    ensures { result ≡ selected_as t.now constant }
{
    match t {
        Scalar::Number(t) => t.converted(constant),
        Scalar::Pointer(_) => Constant::Varies,
    }
}

/// What `condition ? a : b` is (C11 6.5.15).
///
/// Of two pointers that are neither null pointer constants nor `void *`, nor point to one struct or union, it is a
/// pointer to an unknown type. The part that isn't chosen needs no value, though it must be a constant for the whole
/// to be one.
pub fn conditional_of(alloc: Global, condition: Value, a: Value, b: Value) -> Result<Value, TypeEnd>
    ensures { Gives result (conditional_of condition a b) }
{
    let condition = operand_of(alloc, condition)?.constant;
    if let Some(ctype) = shared_type(&a.ctype, &b.ctype) {
        return Ok(Value {
            ctype,
            constant: Constant::Varies,
        });
    }
    let a = operand_of(alloc, a)?;
    let b = operand_of(alloc, b)?;
    let constant = selected(condition, a.constant, b.constant);
    let scalar = chosen_type(alloc, a, b)?;
    let constant = selected_as(&scalar, constant);
    Ok(Value {
        ctype: scalar.ctype(),
        constant,
    })
}
