//! An expression as the operators see it.

ghost use Rattle.std.specs.Prelude.{◌≡◌};

use crate::number::cut;
use c_types::{CType, Tags, size_of};

/// An expression: its own type, before arrays and functions become pointers, and whether it is a constant.
#[derive(Debug, Drop)]
pub struct Value {
    /// No call of this crate gives a value of the type `Unknown`.
    pub ctype: CType,
    pub constant: Constant,
}

/// Whether an expression is a constant (C11 6.6).
#[derive(Clone, Copy, Debug, PartialEq, Eq)]
pub enum Constant {
    /// It is no integer constant expression.
    Varies,
    /// It is made of constants alone and has no value, as a division by 0.
    Undefined,
    /// An integer constant expression with this value.
    Known(i128),
    /// `(void *)0`, a null pointer constant that is a pointer (C11 6.3.2.3, 3).
    Null,
}

impl Value {
    ghost use Rattle.c_types.specs.Extents.{own_size};
    ghost use Rattle.c_values.specs.Readings.{is_pointer, known, value_size};

    /// The bytes of its own type at the offset `place` of the file, if that has a size there.
    pub fn own_size(&self, tags: &Tags, place: u32) -> Option<u32>
        ensures { result ≡ own_size tags.now place self.now.ctype }
    {
        size_of(&self.ctype, tags, place)
    }

    /// Its bytes as a value, after an array or a function became a pointer. `None` where it is no integer, enumeration or pointer.
    pub fn value_size(&self) -> Option<u32>
        ensures { result ≡ value_size self.now }
    {
        match &self.ctype {
            CType::Bool => Some(1),
            CType::Int { size, .. } => Some(*size),
            CType::Enumeration
            | CType::Pointer(_)
            | CType::Array(_, _)
            | CType::VariableArray(_)
            | CType::Function(_) => Some(4),
            CType::Void | CType::Float { .. } | CType::Tagged(_) | CType::Unknown => None,
        }
    }

    /// Whether its value, after an array or a function became a pointer, is a pointer.
    pub fn is_pointer(&self) -> bool
        ensures { result ≡ is_pointer self.now }
    {
        matches!(
            &self.ctype,
            CType::Pointer(_) | CType::Array(_, _) | CType::VariableArray(_) | CType::Function(_)
        )
    }

    /// Its number, read with a sign in its size, if it is an integer constant that has a value.
    pub fn known(&self) -> Option<i64>
        ensures { result ≡ known self.now }
    {
        match (&self.ctype, self.constant) {
            (CType::Bool, Constant::Known(number)) => Some(cut(1, true, number) as i64),
            (CType::Int { size, .. }, Constant::Known(number)) => Some(
                cut(*size, true, number) as i64,
            ),
            _ => None,
        }
    }
}

impl Constant {
    ghost use Rattle.c_values.specs.Operands.{is_constant, without_value, constant_of};
    ghost use Rattle.c_values.specs.Casts.{is_null};

    /// A value, if there is one.
    pub(crate) fn of(number: Option<i128>) -> Constant
        ensures { result ≡ constant_of number }
    {
        match number {
            Some(number) => Constant::Known(number),
            None => Constant::Undefined,
        }
    }

    /// Whether it is made of integer constants alone.
    pub fn is_constant(self) -> bool
        ensures { result ≡ is_constant self }
    {
        matches!(self, Constant::Undefined | Constant::Known(_))
    }

    /// What an operator gives of two operands that don't both have values.
    pub(crate) fn without_value(self, other: Constant) -> Constant
        ensures { result ≡ without_value self other }
    {
        if self.is_constant() && other.is_constant() {
            Constant::Undefined
        } else {
            Constant::Varies
        }
    }

    /// Whether an operand with it is a null pointer constant (C11 6.3.2.3, 3).
    pub(crate) fn is_null(self) -> bool
        ensures { result ≡ is_null self }
    {
        match self {
            Constant::Known(number) => number == 0,
            Constant::Null => true,
            _ => false,
        }
    }
}
