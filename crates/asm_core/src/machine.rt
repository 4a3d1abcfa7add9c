use crate::{FlagSet, Items, Ranges};

/// Why a step can't be done.
#[derive(Clone, Copy, Debug, PartialEq, Eq)]
pub enum Fault {
    Access,
    Divide,
}

/// Bytes of memory that lie side by side.
#[derive(Debug, Drop)]
pub struct Range {
    pub base: u32,
    pub bytes: Items<u8>,
    pub writable: bool,
    /// The operand through which alone these bytes are reached.
    pub owner: Option<u8>,
}

/// What a block can read and change.
#[derive(Debug, Drop)]
pub struct Machine {
    /// In the order of `Reg`.
    pub regs: [u32; 7],
    pub esp: u32,
    pub flags: FlagSet,
    pub ranges: Ranges,
    /// The 64 bytes below esp as it was at the entry.
    pub scratch: [u8; 64],
    /// How many words are pushed, at most 16.
    pub scratch_top: u32,
    /// The number of the next instruction.
    pub at: u32,
}
