//! The bases of numbers, and their digits.

ghost use Rattle.std.specs.Prelude.{◌≡◌, ◌<◌, ◌≤◌, IsTrue};
ghost use Rattle.c_literals.specs.Digits.{digit_value, is_decimal, is_digit, radix};

/// In which base a number is written (C11 6.4.4.1).
#[derive(Clone, Copy, Debug, PartialEq, Eq)]
pub enum Base {
    Octal,
    Decimal,
    Hexadecimal,
}

impl Base {
    /// How many digits there are.
    pub fn radix(self) -> u64
        ensures is { result ≡ radix self }
        ensures within { (1 ≤ result) × (result ≤ 16) }
    {
        match self {
            Base::Octal => 8,
            Base::Decimal => 10,
            Base::Hexadecimal => 16,
        }
    }

    pub fn is_decimal(self) -> bool
        ensures { result ≡ is_decimal self }
    {
        matches!(self, Base::Decimal)
    }

    /// Whether the byte is a digit.
    #[tactic(auto, unfolding(crate::specs::Digits::is_digit))]
    pub fn has_digit(self, b: u8) -> bool
        ensures is { result ≡ is_digit self b }
        ensures there { IsTrue result → 0 < b }
    {
        match self {
            Base::Octal => matches!(b, b'0'..=b'7'),
            Base::Decimal => matches!(b, b'0'..=b'9'),
            Base::Hexadecimal => matches!(b, b'0'..=b'9' | b'A'..=b'F' | b'a'..=b'f'),
        }
    }
}

/// The value of a digit, of whatever base.
pub fn digit_value(b: u8) -> u8
    ensures { result ≡ digit_value b }
{
    if b <= b'9' {
        b.saturating_sub(b'0')
    } else if b <= b'F' {
        b.saturating_sub(b'A' - 10)
    } else {
        b.saturating_sub(b'a' - 10)
    }
}
