ghost use Rattle.std.specs.Prelude.{◌≡◌};

use crate::Reg;

/// The base register of an address.
#[derive(Clone, Copy, Debug, PartialEq, Eq)]
pub enum Base {
    Esp,
    Reg(Reg),
}

/// An address `disp(base,index,scale)`.
#[derive(Clone, Copy, Debug, PartialEq, Eq)]
pub struct Form {
    pub disp: i64,
    pub base: Option<Base>,
    /// The index register and its scale: 1, 2, 4 or 8.
    pub index: Option<(Reg, u8)>,
}

/// Where the compiler puts an operand.
#[derive(Clone, Copy, Debug, PartialEq, Eq)]
pub enum Spot {
    Register(Reg),
    /// edx:eax, for 8 bytes.
    Pair,
    Memory(Form),
    Number(i64),
}

/// Where the compiler puts each operand. The first `count` are the operands' spots; the others mean nothing.
#[derive(Clone, Copy, Debug)]
pub struct Placement {
    pub spots: [Spot; 30],
    pub count: u8,
}

impl Placement {
    ghost use Rattle.asm_core.specs.Placement.{spot_of};

    /// Where operand `k` is; the number 0 past the last spot.
    pub fn spot(&self, k: u8) -> Spot
        ensures { result ≡ spot_of self.now k }
    {
        match self.spots.get(usize::from(k)) {
            Some(spot) => *spot,
            None => Spot::Number(0),
        }
    }
}
