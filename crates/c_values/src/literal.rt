//! Constants as they are written, string literals and sizes.

ghost use Rattle.std.specs.Prelude.{◌≡◌};
ghost use Rattle.c_values.specs.Ends.{Gives};
ghost use Rattle.c_values.specs.Literals.{character_constant, integer_constant, sizeof_of, string_literal};

use crate::number::cut;
use crate::{Constant, TypeEnd, Value};
use c_types::{CType, Tags, size_of};
use std::alloc::Global;

/// An integer constant of `size` bytes, 4 or 8 (C11 6.4.4.1, 5).
pub fn integer_constant(size: u32, signed: bool, number: u64) -> Value
    ensures { result ≡ integer_constant size signed number }
{
    Value {
        ctype: CType::Int { size, signed },
        constant: Constant::Known(cut(size, signed, i128::from(number))),
    }
}

/// A character constant of one byte: the int of the char, which has a sign (C11 6.4.4.4, 10, and the System V ABI).
pub fn character_constant(byte: u8) -> Value
    ensures { result ≡ character_constant byte }
{
    Value {
        ctype: CType::Int {
            size: 4,
            signed: true,
        },
        constant: Constant::Known(cut(1, true, i128::from(byte))),
    }
}

/// A string literal of `length` bytes, its final 0 among them: an array of so many chars (C11 6.4.5, 6).
pub fn string_literal(alloc: Global, length: u64) -> Result<Value, TypeEnd>
    ensures { Gives result (string_literal length) }
{
    let char = CType::Int {
        size: 1,
        signed: true,
    };
    Ok(Value {
        ctype: CType::array_of(alloc, char, Some(length))?,
        constant: Constant::Varies,
    })
}

/// What `sizeof` of the type, or of an expression of the type, is at the offset `place` of the file: an unsigned int, and a constant where the size is known (C11 6.5.3.4).
pub fn sizeof_of(t: &CType, tags: &Tags, place: u32) -> Result<Value, TypeEnd>
    ensures { Gives result (sizeof_of tags.now place t.now) }
{
    if matches!(t, CType::Unknown) {
        return Err(TypeEnd::NoType);
    }
    let constant = match size_of(t, tags, place) {
        Some(size) => Constant::Known(i128::from(size)),
        None => Constant::Varies,
    };
    Ok(Value {
        ctype: CType::Int {
            size: 4,
            signed: false,
        },
        constant,
    })
}
