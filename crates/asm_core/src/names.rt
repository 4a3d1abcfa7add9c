use crate::{Op, Repeat, Width};

/// What may stand before an instruction.
#[derive(Clone, Copy, Debug, PartialEq, Eq)]
pub enum Prefix {
    Lock,
    Rep,
    /// `repe`, `repz`.
    Repe,
    /// `repne`, `repnz`.
    Repne,
}

/// What a spelling in the table of names stands for.
#[derive(Clone, Copy, Debug)]
pub enum Operation {
    Of(Op),
    /// With a condition behind it: `cmovCC`.
    Cmov,
    /// `setCC`.
    Set,
    /// `jCC`.
    Jump,
}

/// The sizes that a letter behind the name may give: `b`, `w`, `l`.
#[derive(Clone, Copy, Debug)]
pub enum Suffixes {
    None,
    B,
    L,
    Wl,
    Bwl,
}

/// What may stand in the place of an operand.
#[derive(Clone, Copy, Debug)]
pub enum Allowed {
    Register,
    Memory,
    Number,
    RegisterOrMemory,
    RegisterMemoryOrNumber,
    RegisterOrNumber,
    /// A number or `%cl`, which gives no size.
    Count,
    Label,
}

/// The place of an operand: what may stand there, and its size where it isn't the instruction's.
#[derive(Clone, Copy, Debug)]
pub struct Slot {
    pub allowed: Allowed,
    pub width: Option<Width>,
}

/// One line of the table of names: a spelling with operands that it may have (Intel SDM volume 2, in AT&T syntax). Which lines there
/// are is this project's own choice.
#[derive(Clone, Copy, Debug)]
pub struct NameRow {
    /// The name without a suffix, filled up with zeros.
    pub name: [u8; 9],
    pub operation: Operation,
    pub suffixes: Suffixes,
    /// The size without a suffix; `None` where a register operand gives it.
    pub width: Option<Width>,
    /// The operands as they are written, from first to last.
    pub slots: [Option<Slot>; 3],
    /// The operand that must be in memory where `lock` stands before the instruction; without one it may not stand there.
    pub lock: Option<u8>,
    /// What `rep` before it means; without one it may not stand there.
    pub rep: Option<Repeat>,
    /// Whether `repe` and `repne` may stand before it.
    pub compares: bool,
    /// Whether instructions of this form are left out.
    pub left_out: bool,
}

/// The line of the table that an instruction has, what its name stands for there, and its size.
#[derive(Clone, Copy, Debug)]
pub struct Choice {
    pub row: NameRow,
    pub op: Op,
    pub width: Width,
}

/// What prefixes make of an instruction.
#[derive(Clone, Copy, Debug)]
pub struct Prefixed {
    pub repeat: Repeat,
    pub lock: bool,
}
