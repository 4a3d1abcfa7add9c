//! The words of arithmetic types.

ghost use Rattle.std.specs.Prelude.{◌≡◌};
ghost use Rattle.c_reader.specs.Basics.{alone, basics_type, char_type, double_type, has_length, has_sign, integer_type, is_empty, is_signed, no_basics, unnamed_type, with_basic, with_core, with_long, with_short, with_sign};

use c_types::CType;
use c_words::Basic;

/// Which kind of type the words name.
#[derive(Clone, Copy, Debug, PartialEq, Eq)]
pub enum Core {
    /// None of these words was there.
    Unnamed,
    Void,
    Bool,
    Char,
    Int,
    Float,
    Double,
}

/// Which of `short`, `long` and `long long` is among the words.
#[derive(Clone, Copy, Debug, PartialEq, Eq)]
pub enum Length {
    Plain,
    Short,
    Long,
    LongLong,
}

/// Which of `signed` and `unsigned` is among the words.
#[derive(Clone, Copy, Debug, PartialEq, Eq)]
pub enum Sign {
    Plain,
    Signed,
    Unsigned,
}

/// The words of an arithmetic type, or of `void`, that stand among the specifiers of a declaration, in any order (C11 6.7.2, 2).
#[derive(Clone, Copy, Debug, PartialEq, Eq)]
pub struct Basics {
    pub core: Core,
    pub length: Length,
    pub sign: Sign,
}

impl Basics {
    /// No word.
    pub fn new() -> Basics
        ensures { result ≡ no_basics }
    {
        Basics {
            core: Core::Unnamed,
            length: Length::Plain,
            sign: Sign::Plain,
        }
    }

    /// Whether there is no word.
    pub fn is_empty(self) -> bool
        ensures { result ≡ is_empty self }
    {
        matches!(self.core, Core::Unnamed)
            && matches!(self.length, Length::Plain)
            && matches!(self.sign, Sign::Plain)
    }

    /// With one more word. `None` where it may not stand beside the others.
    pub fn with(self, word: Basic) -> Option<Basics>
        ensures { result ≡ with_basic word self }
    {
        match word {
            Basic::Void => self.with_core(Core::Void),
            Basic::Bool => self.with_core(Core::Bool),
            Basic::Char => self.with_core(Core::Char),
            Basic::Int => self.with_core(Core::Int),
            Basic::Float => self.with_core(Core::Float),
            Basic::Double => self.with_core(Core::Double),
            Basic::Short => self.with_short(),
            Basic::Long => self.with_long(),
            Basic::Signed => self.with_sign(Sign::Signed),
            Basic::Unsigned => self.with_sign(Sign::Unsigned),
        }
    }

    /// With the one word that says which kind of type it is.
    fn with_core(self, core: Core) -> Option<Basics>
        ensures { result ≡ with_core core self }
    {
        match self.core {
            Core::Unnamed => Some(Basics { core, ..self }),
            _ => None,
        }
    }

    fn with_short(self) -> Option<Basics>
        ensures { result ≡ with_short self }
    {
        match self.length {
            Length::Plain => Some(Basics {
                length: Length::Short,
                ..self
            }),
            _ => None,
        }
    }

    fn with_long(self) -> Option<Basics>
        ensures { result ≡ with_long self }
    {
        match self.length {
            Length::Plain => Some(Basics {
                length: Length::Long,
                ..self
            }),
            Length::Long => Some(Basics {
                length: Length::LongLong,
                ..self
            }),
            _ => None,
        }
    }

    fn with_sign(self, sign: Sign) -> Option<Basics>
        ensures { result ≡ with_sign sign self }
    {
        match self.sign {
            Sign::Plain => Some(Basics { sign, ..self }),
            _ => None,
        }
    }

    /// The type that the words name, by the sizes of the System V ABI for i386. `None` where they name none.
    pub fn ctype(self) -> Option<CType>
        ensures { result ≡ basics_type self }
    {
        match self.core {
            Core::Unnamed => self.unnamed(),
            Core::Int => Some(self.integer()),
            Core::Char => self.char(),
            Core::Void => self.alone(CType::Void),
            Core::Bool => self.alone(CType::Bool),
            Core::Float => self.alone(CType::Float { size: 4 }),
            Core::Double => self.double(),
        }
    }

    fn is_signed(self) -> bool
        ensures { result ≡ is_signed self }
    {
        !matches!(self.sign, Sign::Unsigned)
    }

    fn has_sign(self) -> bool
        ensures { result ≡ has_sign self }
    {
        !matches!(self.sign, Sign::Plain)
    }

    fn has_length(self) -> bool
        ensures { result ≡ has_length self }
    {
        !matches!(self.length, Length::Plain)
    }

    /// The type of the integers of that length and sign.
    fn integer(self) -> CType
        ensures { result ≡ integer_type self }
    {
        let size = match self.length {
            Length::Short => 2,
            Length::Plain | Length::Long => 4,
            Length::LongLong => 8,
        };
        CType::Int {
            size,
            signed: self.is_signed(),
        }
    }

    /// A length or a sign alone means `int`.
    fn unnamed(self) -> Option<CType>
        ensures { result ≡ unnamed_type self }
    {
        if self.has_length() || self.has_sign() {
            Some(self.integer())
        } else {
            None
        }
    }

    /// `char` without a sign is signed.
    fn char(self) -> Option<CType>
        ensures { result ≡ char_type self }
    {
        if self.has_length() {
            return None;
        }
        Some(CType::Int {
            size: 1,
            signed: self.is_signed(),
        })
    }

    /// The type, unless a length or a sign stands beside its word.
    fn alone(self, ctype: CType) -> Option<CType>
        ensures { result ≡ alone ctype self }
    {
        if self.has_length() || self.has_sign() {
            None
        } else {
            Some(ctype)
        }
    }

    /// `long double` has 12 bytes.
    fn double(self) -> Option<CType>
        ensures { result ≡ double_type self }
    {
        match self.length {
            Length::Long => Basics {
                length: Length::Plain,
                ..self
            }
            .alone(CType::Float { size: 12 }),
            _ => self.alone(CType::Float { size: 8 }),
        }
    }
}
