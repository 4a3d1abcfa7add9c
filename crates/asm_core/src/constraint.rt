use crate::{Cond, Items, Operand, Reg, Role};

/// A letter of a constraint, by what it allows (GCC manual, "Simple Constraints", and for x86 "Machine Constraints").
#[derive(Clone, Copy)]
pub enum Letter {
    /// `a`, `b`, `c`, `d`, `S`, `D`: that register.
    One(Reg),
    /// `A`: the pair edx:eax.
    Pair,
    /// `q`, `Q`: a register whose low byte has a name.
    ByteRegister,
    /// `r`: any register.
    AnyRegister,
    /// `m`: memory.
    Memory,
    /// `i`, `n`: any number.
    Number,
    /// `I`: 0 to 31, a shift of 32 bits.
    WordShift,
    /// `J`: 0 to 63, a shift of 64 bits.
    LongShift,
    /// `K`: -128 to 127.
    SignedByte,
    /// `M`: 0 to 3, a shift in an address.
    AddressShift,
    /// `N`: 0 to 255.
    UnsignedByte,
    /// `g`: what `r`, `m` and `i` allow.
    General,
}

/// A part of one alternative of a constraint.
#[derive(Clone, Copy)]
pub enum Symbol {
    Letter(Letter),
    /// `&`.
    Early,
    /// A number or `[name]`, with the number of the output that it names, if there is one.
    Tie(Option<u8>),
    /// A `=` or `+` that does not begin an output's constraint.
    Sign,
    /// What has no meaning here.
    Other,
}

/// An operand as its statement writes it, with what is known of its expression.
#[derive(Drop)]
pub struct ConstrainedOperand {
    /// Outputs are numbered first, from 0, then inputs.
    pub number: u8,
    /// Whether it stands among the outputs.
    pub output: bool,
    /// What an output's first byte says: `In` where that is neither `=` nor `+`. An input is `In`.
    pub role: Role,
    /// The condition of a flag output.
    pub flag: Option<Cond>,
    /// The symbols of each alternative. A flag output has none: its constraint is written once and holds in every alternative.
    pub alternatives: Items<Items<Symbol>>,
    /// The offset of the constraint in the file.
    pub constraint: u32,
    /// The offset of the expression in the file.
    pub expression: u32,
    /// What is known of the expression, if it has a type.
    pub typed: Option<Operand>,
}
