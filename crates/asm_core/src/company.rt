use crate::Place;

/// Where an operand is under a shape.
#[derive(Clone, Copy, Debug, PartialEq, Eq)]
pub enum Places {
    /// In a register, or wherever the compiler puts an operand: itself, or the output that it is tied to.
    One(Place),
    /// In edx:eax.
    Pair,
}

/// What of an operand is at a place.
#[derive(Clone, Copy, Debug, PartialEq, Eq)]
pub enum Held {
    Nothing,
    All,
    /// Its low four bytes: it is in edx:eax, and the place is eax.
    Low,
    /// Its high four bytes.
    High,
}
