//! What an operator sees of an operand.

ghost use Rattle.std.specs.Prelude.{◌≡◌, IfOk};
ghost use Rattle.c_values.specs.Ends.{Gives};
ghost use Rattle.c_values.specs.Operands.{decayed, scalar_of, type_of_scalar, pointer_constant, held, operand_of, is_unknown, varying};

use crate::number_type::NumberType;
use crate::{Constant, TypeEnd, Value};
use asm_core::{Boxed, Memory};
use c_types::CType;
use std::alloc::Global;

/// A scalar type (C11 6.2.5, 21).
#[derive(Drop)]
pub enum Scalar {
    Number(NumberType),
    /// A pointer, by what it points to.
    Pointer(Boxed<CType>),
}

/// A scalar operand, after arrays and functions have become pointers.
#[derive(Drop)]
pub struct Operand {
    pub scalar: Scalar,
    pub constant: Constant,
}

impl Scalar {
    pub fn ctype(self) -> CType
        ensures { result ≡ type_of_scalar self }
    {
        match self {
            Scalar::Number(t) => t.ctype(),
            Scalar::Pointer(to) => CType::Pointer(to),
        }
    }

    /// The constant of an expression of the type.
    fn held(&self, constant: Constant) -> Constant
        ensures { result ≡ held self.now constant }
    {
        match self {
            Scalar::Number(t) => t.converted(constant),
            Scalar::Pointer(_) => pointer_constant(constant),
        }
    }
}

/// A pointer's constant: a pointer is one only as the null pointer constant `(void *)0`.
fn pointer_constant(constant: Constant) -> Constant
    ensures { result ≡ pointer_constant constant }
{
    match constant {
        Constant::Null => Constant::Null,
        _ => Constant::Varies,
    }
}

/// The type after an array became a pointer to its elements, and a function one to itself (C11 6.3.2.1, 3 and 4).
pub fn decayed(alloc: Global, t: CType) -> Result<CType, Memory>
    ensures { IfOk result (λ d. d ≡ decayed t) }
{
    match t {
        CType::Array(element, _) | CType::VariableArray(element) => Ok(CType::Pointer(element)),
        CType::Function(gives) => CType::pointer_to(alloc, CType::Function(gives)),
        other => Ok(other),
    }
}

/// The type as a scalar one, if it is one.
pub fn scalar_of(t: CType) -> Option<Scalar>
    ensures { result ≡ scalar_of t }
{
    match t {
        CType::Bool => Some(Scalar::Number(NumberType::Bool)),
        CType::Int { size, signed } => Some(Scalar::Number(NumberType::Int { size, signed })),
        CType::Enumeration => Some(Scalar::Number(NumberType::Enumeration)),
        CType::Float { size } => Some(Scalar::Number(NumberType::Float { size })),
        CType::Pointer(to) => Some(Scalar::Pointer(to)),
        _ => None,
    }
}

/// An expression as a scalar operand.
pub fn operand_of(alloc: Global, value: Value) -> Result<Operand, TypeEnd>
    ensures { Gives result (operand_of value) }
{
    let constant = value.constant;
    match scalar_of(decayed(alloc, value.ctype)?) {
        Some(scalar) => {
            let constant = scalar.held(constant);
            Ok(Operand { scalar, constant })
        }
        None => Err(TypeEnd::NoType),
    }
}

/// An expression of the type that is no constant.
pub fn varying(ctype: CType) -> Result<Value, TypeEnd>
    ensures { Gives result (varying ctype) }
{
    match ctype {
        CType::Unknown => Err(TypeEnd::NoType),
        _ => Ok(Value {
            ctype,
            constant: Constant::Varies,
        }),
    }
}
