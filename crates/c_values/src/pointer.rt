//! The operators on pointers and functions.

ghost use Rattle.std.specs.Prelude.{◌≡◌};
ghost use Rattle.c_values.specs.Ends.{Gives};
ghost use Rattle.c_values.specs.Pointers.{address_of, call_of, dereference_of, index_of, called, result_of};

use crate::binary::binary_of;
use crate::scalar::{Scalar, operand_of, varying};
use crate::{Binary, Calculation, TypeEnd, Value};
use c_types::CType;
use std::alloc::Global;

/// What `*operand` is: what a pointer points to (C11 6.5.3.2, 4).
pub fn dereference_of(alloc: Global, operand: Value) -> Result<Value, TypeEnd>
    ensures { Gives result (dereference_of operand) }
{
    match operand_of(alloc, operand)?.scalar {
        Scalar::Pointer(to) => varying(to.into_inner()),
        Scalar::Number(_) => Err(TypeEnd::NoType),
    }
}

/// What `&operand` is: a pointer to the operand's own type, so of an array a pointer to the array (C11 6.5.3.2, 3).
pub fn address_of(alloc: Global, operand: Value) -> Result<Value, TypeEnd>
    ensures { Gives result (address_of operand) }
{
    varying(CType::pointer_to(alloc, operand.ctype)?)
}

/// What `array[index]` is, in either order: `*(array + index)` (C11 6.5.2.1, 2).
pub fn index_of(alloc: Global, array: Value, index: Value) -> Result<Value, TypeEnd>
    ensures { Gives result (index_of array index) }
{
    let sum = binary_of(alloc, Binary::Calculation(Calculation::Add), array, index)?;
    dereference_of(alloc, sum)
}

/// What a function of the type gives.
fn result_of(t: CType) -> Option<CType>
    ensures { result ≡ result_of t }
{
    match t {
        CType::Function(gives) => Some(gives.into_inner()),
        _ => None,
    }
}

/// What a call of an expression of the type gives, which is a function or points to one.
fn called(t: CType) -> Option<CType>
    ensures { result ≡ called t }
{
    match t {
        CType::Pointer(to) => result_of(to.into_inner()),
        other => result_of(other),
    }
}

/// What `function(..)` is, a function or a pointer to one, whatever the arguments, each of which has to have a type (C11 6.5.2.2, 5).
pub fn call_of(function: Value) -> Result<Value, TypeEnd>
    ensures { Gives result (call_of function) }
{
    match called(function.ctype) {
        Some(gives) => varying(gives),
        None => Err(TypeEnd::NoType),
    }
}
