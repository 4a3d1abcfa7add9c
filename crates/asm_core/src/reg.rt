ghost use Rattle.std.specs.Prelude.{⊤, ◌≡◌, [], ◌∷◌, codes, Some};
ghost use Rattle.asm_core.specs.Reg.{reg_number, reg_name};

use bitflags::{Flag, Flags, bitflag_items};
use std::fmt;

/// The general registers but esp, in their order everywhere: in lists, in reports and as bits of a `RegSet`.
#[derive(Clone, Copy, Debug, PartialEq, Eq)]
pub enum Reg {
    Eax,
    Ebx,
    Ecx,
    Edx,
    Esi,
    Edi,
    Ebp,
}

impl Reg {
    /// The place of the register in their order, from 0.
    pub fn number(self) -> usize
        ensures { result ≡ reg_number self }
    {
        self as usize
    }
}

impl fmt::Display for Reg {
    ghost output = { λ r. Some (reg_name r) };

    fn fmt<W: fmt::Write>(&self, f: &mut fmt::Formatter<W>) -> fmt::Result {
        f.write_str(match self {
            Reg::Eax => "eax",
            Reg::Ebx => "ebx",
            Reg::Ecx => "ecx",
            Reg::Edx => "edx",
            Reg::Esi => "esi",
            Reg::Edi => "edi",
            Reg::Ebp => "ebp",
        })
    }
}

/// The bytes of a register that an instruction names, as `al`, `ah`, `ax` and `eax` do.
#[derive(Clone, Copy, Debug, PartialEq, Eq)]
pub enum Slice {
    Low8,
    High8,
    Low16,
    All,
}

impl Slice {
    ghost use Rattle.asm_core.specs.Reading.Facts.{size_slice};

    /// `al`, `ax` or `eax` by the size in bytes.
    pub fn of_size(size: u32) -> Slice
        ensures { result ≡ size_slice size }
    {
        match size {
            1 => Slice::Low8,
            2 => Slice::Low16,
            _ => Slice::All,
        }
    }
}

/// A set of registers. Bit n is the n-th `Reg`.
#[derive(Clone, Copy, Debug, PartialEq, Eq)]
pub struct RegSet(u8);

bitflag_items! {
    impl RegSet: u8 {
        const EAX = 1;
        const EBX = 2;
        const ECX = 4;
        const EDX = 8;
        const ESI = 16;
        const EDI = 32;
        const EBP = 64;
    }
}

impl Flags for RegSet {
    type Bits = u8;

    ghost exact = { ⊤ };

    ghost table = { (codes "EAX", 1) ∷ (codes "EBX", 2) ∷ (codes "ECX", 4) ∷ (codes "EDX", 8) ∷ (codes "ESI", 16) ∷ (codes "EDI", 32) ∷ (codes "EBP", 64) ∷ [] };

    ghost set_of = { λ s. s.0 };

    fn flags<'a>() -> &'a [Flag<RegSet>] {
        RegSet::FLAGS
    }

    fn bits(&self) -> u8 {
        self.0
    }

    fn from_bits_retain(bits: u8) -> RegSet {
        RegSet(bits)
    }
}
