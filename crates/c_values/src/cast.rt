//! Casts.

ghost use Rattle.std.specs.Prelude.{◌≡◌};
ghost use Rattle.c_values.specs.Ends.{Gives};
ghost use Rattle.c_values.specs.Casts.{is_null, is_void, cast_constant, cast_of};

use crate::scalar::{Scalar, operand_of, scalar_of};
use crate::{Constant, TypeEnd, Value};
use c_types::CType;
use std::alloc::Global;

/// Whether the type is `void`.
pub fn is_void(t: &CType) -> bool
    ensures { result ≡ is_void t.now }
{
    matches!(t, CType::Void)
}

/// The constant of an operand that is cast to the type.
fn cast_constant(to: &Scalar, constant: Constant) -> Constant
    ensures { result ≡ cast_constant to.now constant }
{
    match to {
        Scalar::Number(t) => t.converted(constant),
        Scalar::Pointer(to) if is_void(to.get()) && constant.is_null() => Constant::Null,
        Scalar::Pointer(_) => Constant::Varies,
    }
}

/// What `(to) operand` is: of anything to `void`, and of a scalar to a scalar type (C11 6.5.4).
///
/// `to` is a type without qualifiers; a constant that is cast to a qualified `void *` is no null pointer constant, which only the caller can see.
pub fn cast_of(alloc: Global, to: CType, operand: Value) -> Result<Value, TypeEnd>
    ensures { Gives result (cast_of to operand) }
{
    if is_void(&to) {
        return Ok(Value {
            ctype: CType::Void,
            constant: Constant::Varies,
        });
    }
    let Some(to) = scalar_of(to) else {
        return Err(TypeEnd::NoType);
    };
    let constant = cast_constant(&to, operand_of(alloc, operand)?.constant);
    Ok(Value {
        ctype: to.ctype(),
        constant,
    })
}
