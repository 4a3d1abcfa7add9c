//! How many words are pushed on the paths to a place in a block.

/// That many words are pushed. No value of this type is ever made: it names a bit of a row.
#[derive(Clone, Copy, Debug, PartialEq, Eq)]
pub struct Depth(pub u32);
