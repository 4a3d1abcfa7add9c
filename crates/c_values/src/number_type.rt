//! The types of numbers and their conversions.

ghost use Rattle.std.specs.Prelude.{◌≡◌};

use crate::Constant;
use crate::number::cut;
use c_types::CType;

/// An arithmetic type (C11 6.2.5, 18).
#[derive(Clone, Copy)]
pub enum NumberType {
    Bool,
    /// An integer of `size` bytes: 1, 2, 4 or 8.
    Int { size: u32, signed: bool },
    Enumeration,
    /// A floating number of `size` bytes.
    Float { size: u32 },
}

/// int
pub const INT: NumberType = NumberType::Int {
    size: 4,
    signed: true,
};

impl NumberType {
    ghost use Rattle.c_values.specs.NumberTypes.{is_integer, type_of_number, byte_count, is_unsigned, is_enumeration, promoted, yields_to, common, converted};

    pub fn is_integer(self) -> bool
        ensures { result ≡ is_integer self }
    {
        !matches!(self, NumberType::Float { .. })
    }

    pub fn ctype(self) -> CType
        ensures { result ≡ type_of_number self }
    {
        match self {
            NumberType::Bool => CType::Bool,
            NumberType::Int { size, signed } => CType::Int { size, signed },
            NumberType::Enumeration => CType::Enumeration,
            NumberType::Float { size } => CType::Float { size },
        }
    }

    /// The type after the integer promotions (C11 6.3.1.1, 2); an enumeration stays one, since the compiler chooses its sign.
    pub fn promoted(self) -> NumberType
        ensures { result ≡ promoted self }
    {
        match self {
            NumberType::Bool => INT,
            NumberType::Int { size, .. } if size < 4 => INT,
            _ => self,
        }
    }

    fn byte_count(self) -> u32
        ensures { result ≡ byte_count self }
    {
        match self {
            NumberType::Bool => 1,
            NumberType::Int { size, .. } | NumberType::Float { size } => size,
            NumberType::Enumeration => 4,
        }
    }

    fn is_unsigned(self) -> bool
        ensures { result ≡ is_unsigned self }
    {
        matches!(
            self,
            NumberType::Bool | NumberType::Int { signed: false, .. }
        )
    }

    fn is_enumeration(self) -> bool
        ensures { result ≡ is_enumeration self }
    {
        matches!(self, NumberType::Enumeration)
    }

    /// Whether of two promoted types the other is the common one.
    fn yields_to(self, other: NumberType) -> bool
        ensures { result ≡ yields_to self other }
    {
        match (self, other) {
            (NumberType::Float { size: a }, NumberType::Float { size: b }) => a < b,
            (NumberType::Float { .. }, _) => false,
            (_, NumberType::Float { .. }) => true,
            _ => {
                self.byte_count() < other.byte_count()
                    || self.byte_count() == other.byte_count()
                        && (other.is_unsigned() || other.is_enumeration() && !self.is_unsigned())
            }
        }
    }

    /// The type in which an operator computes with both (C11 6.3.1.8).
    #[tactic(auto, using(crate::proofs::CommonLaws::common_laws))]
    pub fn common(self, other: NumberType) -> NumberType
        ensures is { result ≡ common self other }
        ensures either_order { result ≡ common other self }
    {
        let (a, b) = (self.promoted(), other.promoted());
        if a.yields_to(b) { b } else { a }
    }

    /// A constant converted to the type (C11 6.3.1.2 and 6.3.1.3). In an enumeration it has no value, since the compiler chooses the sign.
    pub fn converted(self, constant: Constant) -> Constant
        ensures { result ≡ converted self constant }
    {
        match (self, constant) {
            (NumberType::Float { .. }, _) | (_, Constant::Varies | Constant::Null) =>
                Constant::Varies,
            (_, Constant::Undefined) | (NumberType::Enumeration, _) => Constant::Undefined,
            (NumberType::Bool, Constant::Known(number)) => Constant::Known(i128::from(number != 0)),
            (NumberType::Int { size, signed }, Constant::Known(number)) => Constant::Known(cut(
                size, signed, number,
            )),
        }
    }
}
