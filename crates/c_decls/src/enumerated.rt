//! The values of enumeration constants, one after the other (C11 6.7.2.2).

ghost use Rattle.std.specs.Prelude.{◌≡◌};
ghost use Rattle.c_decls.specs.Enumerators.{behind_value, int_value, malformed, none_enumerated, successor};

use c_values::Constant;

/// What was read of an enumeration's constants.
#[derive(Clone, Copy)]
pub struct Enumerated {
    /// The value of the next constant, if none is written for it; `None` where that isn't known or is no int.
    pub next: Option<i64>,
    /// Whether all values so far are known.
    pub known: bool,
}

impl Enumerated {
    /// No constant yet: the first is 0.
    pub fn new() -> Enumerated
        ensures { result ≡ none_enumerated }
    {
        Enumerated {
            next: Some(0),
            known: true,
        }
    }

    /// Behind a constant with that value, if it is known.
    pub fn behind(self, value: Option<i64>) -> Enumerated
        ensures { result ≡ behind_value value self }
    {
        Enumerated {
            next: successor(value),
            known: self.known && value.is_some(),
        }
    }

    /// Of a body that isn't covered.
    pub fn malformed(self) -> Enumerated
        ensures { result ≡ malformed self }
    {
        Enumerated {
            known: false,
            ..self
        }
    }
}

/// The constant's value, if it is one that an int has.
pub fn int_value(constant: Constant) -> Option<i64>
    ensures { result ≡ int_value constant }
{
    match constant {
        Constant::Known(number) => {
            if -2147483648 <= number && number <= 2147483647 {
                Some(number as i64)
            } else {
                None
            }
        }
        _ => None,
    }
}

/// The value of the constant behind one with that value, if an int has it.
fn successor(value: Option<i64>) -> Option<i64>
    ensures { result ≡ successor value }
{
    let value = value?;
    if value < 2147483647 {
        Some(value + 1)
    } else {
        None
    }
}
