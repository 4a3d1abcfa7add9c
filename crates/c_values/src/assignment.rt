//! Assignments, and the comma.

ghost use Rattle.std.specs.Prelude.{◌≡◌};
ghost use Rattle.c_values.specs.Ends.{Gives};
ghost use Rattle.c_values.specs.Pointers.{assignment_of, comma_of, compound_of, is_assignable, is_scalar, step_of};

use crate::binary::binary_of;
use crate::scalar::{decayed, varying};
use crate::{Binary, Constant, TypeEnd, Value};
use c_types::CType;
use std::alloc::Global;

fn is_scalar(t: &CType) -> bool
    ensures { result ≡ is_scalar t.now }
{
    matches!(
        t,
        CType::Bool
            | CType::Int { .. }
            | CType::Enumeration
            | CType::Float { .. }
            | CType::Pointer(_)
    )
}

/// Whether an expression of the type can be assigned to: no array and no function can (C11 6.3.2.1, 1).
fn is_assignable(t: &CType) -> bool
    ensures { result ≡ is_assignable t.now }
{
    matches!(t, CType::Tagged(_)) || is_scalar(t)
}

/// What `left = ..` is: it has the left type, where the right has a type at all (C11 6.5.16, 3).
pub fn assignment_of(left: Value) -> Result<Value, TypeEnd>
    ensures { Gives result (assignment_of left) }
{
    if is_assignable(&left.ctype) {
        varying(left.ctype)
    } else {
        Err(TypeEnd::NoType)
    }
}

/// What `left op= right` is: it has the left type, where `left op right` has a type (C11 6.5.16.2).
pub fn compound_of(alloc: Global, op: Binary, left: Value, right: Value) -> Result<Value, TypeEnd>
    ensures { Gives result (compound_of op left right) }
{
    let kept = left.ctype.copy(alloc)?;
    binary_of(alloc, op, left, right)?;
    assignment_of(Value {
        ctype: kept,
        constant: Constant::Varies,
    })
}

/// What `++` or `--` before or after an operand is: it has the operand's type (C11 6.5.2.4 and 6.5.3.1).
pub fn step_of(operand: Value) -> Result<Value, TypeEnd>
    ensures { Gives result (step_of operand) }
{
    if is_scalar(&operand.ctype) {
        varying(operand.ctype)
    } else {
        Err(TypeEnd::NoType)
    }
}

/// What `.., last` is, where what stands before has a type: it has the last part's type, and is never a constant (C11 6.5.17, 2).
pub fn comma_of(alloc: Global, last: Value) -> Result<Value, TypeEnd>
    ensures { Gives result (comma_of last) }
{
    varying(decayed(alloc, last.ctype)?)
}
