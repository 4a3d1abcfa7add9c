//! What is kept of the paths to a place in a block. No value of these types is ever made: they name the bits of rows.

/// What a value comes from.
#[derive(Clone, Copy, Debug, PartialEq, Eq)]
pub enum Provenance {
    /// The value of that cell at the entry.
    EntryOf(u32),
    /// The old bytes of the memory operand of that number, which is written only.
    Old(u32),
    Undefined,
    /// Words from outside the block, as those of `cpuid`.
    Outside,
}

/// What may be true of the value of a cell.
#[derive(Clone, Copy, Debug, PartialEq, Eq)]
pub enum Property {
    /// It isn't a copy of the value of that cell at the entry.
    NotEntryOf(u32),
    ComesFrom(Provenance),
    /// It was read from the second place after the first one had been written, which may be in the same register.
    Pair(u32, u32),
}

/// One thing that a path may show.
#[derive(Clone, Copy, Debug, PartialEq, Eq)]
pub enum Fact {
    /// The path comes here.
    Here,
    /// The cell's value has the property.
    Has(u32, Property),
    /// The place was written after the cell, and may be in the same register.
    Overwrites(u32, u32),
    /// The byte of the operand isn't written yet.
    Unwritten(u32, u32),
    /// The direction flag is set.
    DirectionSet,
}
