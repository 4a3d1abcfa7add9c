ghost use Rattle.std.specs.Prelude.{⊤, ◌≡◌, ◌^◌, [], ◌∷◌, codes, Some};
ghost use Rattle.asm_core.specs.Flag.{flag_name, flag_number, flag_in, with_flag};

use bitflags::{Flags, bitflag_items};
use std::fmt;

/// The flags that the instructions of the table read or write, in their order everywhere.
#[derive(Clone, Copy, Debug, PartialEq, Eq)]
pub enum Flag {
    Cf,
    Pf,
    Af,
    Zf,
    Sf,
    Of,
    Df,
}

impl fmt::Display for Flag {
    ghost output = { λ f. Some (flag_name f) };

    fn fmt<W: fmt::Write>(&self, f: &mut fmt::Formatter<W>) -> fmt::Result {
        f.write_str(match self {
            Flag::Cf => "CF",
            Flag::Pf => "PF",
            Flag::Af => "AF",
            Flag::Zf => "ZF",
            Flag::Sf => "SF",
            Flag::Of => "OF",
            Flag::Df => "DF",
        })
    }
}

/// A set of flags, and the flags of a machine that are 1. Bit n is the n-th `Flag`.
#[derive(Clone, Copy, Debug, PartialEq, Eq)]
pub struct FlagSet(u8);

impl Flag {
    /// 2 to the place of the flag in their order.
    pub fn weight(self) -> u8
        ensures { result ≡ 2 ^ flag_number self }
    {
        match self {
            Flag::Cf => 1,
            Flag::Pf => 2,
            Flag::Af => 4,
            Flag::Zf => 8,
            Flag::Sf => 16,
            Flag::Of => 32,
            Flag::Df => 64,
        }
    }
}

impl FlagSet {
    /// Whether the flag is 1.
    pub fn has(self, flag: Flag) -> bool
        ensures { result ≡ flag_in flag self }
    {
        self.0 / flag.weight() % 2 == 1
    }

    /// The set with the flag as the lowest bit of the value.
    pub fn with(self, flag: Flag, value: u64) -> FlagSet
        ensures { result ≡ with_flag flag value self }
    {
        let bit = (value % 2) as u8;
        let bits = self.0;
        FlagSet(match flag {
            Flag::Cf => bits / 2 * 2 + bit,
            Flag::Pf => bits / 4 * 4 + bit * 2 + bits % 2,
            Flag::Af => bits / 8 * 8 + bit * 4 + bits % 4,
            Flag::Zf => bits / 16 * 16 + bit * 8 + bits % 8,
            Flag::Sf => bits / 32 * 32 + bit * 16 + bits % 16,
            Flag::Of => bits / 64 * 64 + bit * 32 + bits % 32,
            Flag::Df => bits / 128 * 128 + bit * 64 + bits % 64,
        })
    }
}

bitflag_items! {
    impl FlagSet: u8 {
        const CF = 1;
        const PF = 2;
        const AF = 4;
        const ZF = 8;
        const SF = 16;
        const OF = 32;
        const DF = 64;
    }
}

impl Flags for FlagSet {
    type Bits = u8;

    ghost exact = { ⊤ };

    ghost table = { (codes "CF", 1) ∷ (codes "PF", 2) ∷ (codes "AF", 4) ∷ (codes "ZF", 8) ∷ (codes "SF", 16) ∷ (codes "OF", 32) ∷ (codes "DF", 64) ∷ [] };

    ghost set_of = { λ s. s.0 };

    fn flags<'a>() -> &'a [bitflags::Flag<FlagSet>] {
        FlagSet::FLAGS
    }

    fn bits(&self) -> u8 {
        self.0
    }

    fn from_bits_retain(bits: u8) -> FlagSet {
        FlagSet(bits)
    }
}
