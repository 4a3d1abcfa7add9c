ghost use Rattle.std.specs.Prelude.{◌≡◌};
ghost use Rattle.asm_core.specs.declared.piece.PiecesEnd.{PiecesEnd};

use crate::{Items, Mark, Memory, Slice};
use std::alloc::{AllocError, AllocFailed};
use thiserror::Error;

/// How a template asks for an operand: `%0`, `%b0`, `%w0`, `%k0`, `%h0` or `%c0` (GCC manual, "x86 Operand Modifiers").
#[derive(Clone, Copy, Debug, PartialEq, Eq)]
pub enum Modifier {
    Plain,
    B,
    W,
    K,
    H,
    C,
}

impl Modifier {
    ghost use Rattle.asm_core.specs.Reading.Facts.{slice_of};

    /// The part of a register that it names, of an operand of so many bytes; none for `%c0`.
    pub fn slice(self, size: u32) -> Option<Slice>
        ensures { result ≡ slice_of size self }
    {
        match self {
            Modifier::Plain => Some(Slice::of_size(size)),
            Modifier::B => Some(Slice::Low8),
            Modifier::W => Some(Slice::Low16),
            Modifier::K => Some(Slice::All),
            Modifier::H => Some(Slice::High8),
            Modifier::C => None,
        }
    }
}

/// A piece of a template, with the offset in the file at which it begins.
#[derive(Clone, Copy, Debug, PartialEq, Eq)]
pub enum Piece {
    Byte(u8, u32),
    /// The operand of that number.
    Hole(u8, Modifier, u32),
    /// `%=`: a number that is another one in each instance of the statement.
    Unique(u32),
}

/// The pieces of a template in their order.
#[derive(Debug, Drop)]
pub struct Pieces {
    pub list: Items<Piece>,
}

/// Why a template has no pieces.
#[derive(Clone, Copy, Debug, PartialEq, Eq, Error)]
pub enum PiecesEnd {
    /// The leftmost form that is outside the grammar of templates.
    #[error("a template form outside the grammar")]
    Outside(Mark),
    /// Every form is in the grammar, and some operand that is named is not there.
    #[error("an operand that is not there")]
    NoOperand,
    #[error("out of memory")]
    Memory,
}

impl From<Memory> for PiecesEnd {
    ghost from_gives = { λ _ e. e ≡ PiecesEnd.Memory };

    fn from(_: Memory) -> PiecesEnd {
        PiecesEnd::Memory
    }
}

impl From<AllocError> for PiecesEnd {
    ghost from_gives = { λ _ e. e ≡ PiecesEnd.Memory };

    fn from(_: AllocError) -> PiecesEnd {
        PiecesEnd::Memory
    }
}

impl<T: Drop> From<AllocFailed<T>> for PiecesEnd {
    ghost from_gives = { λ _ e. e ≡ PiecesEnd.Memory };

    fn from(_: AllocFailed<T>) -> PiecesEnd {
        PiecesEnd::Memory
    }
}
