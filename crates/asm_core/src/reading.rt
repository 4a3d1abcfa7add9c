use crate::{Disp, Form, Items, Kind, Op, Piece, Place, Reg, Repeat, Slice, Width};

/// What the reading of a line knows of an operand under a shape. Whatever else an interface says (clobbers, early marks, `+`)
/// changes no reading.
#[derive(Clone, Copy, Debug)]
pub struct OperandFacts {
    pub kind: Kind,
    /// In bytes.
    pub size: u32,
    /// The value of a number, where it is known.
    pub known: Option<i64>,
    /// The one register that its letters allow, and eax for the pair.
    pub fixed: Option<Reg>,
    /// Whether its letters allow a register that has names for its bytes (`al`, `ah`).
    pub has_byte_names: bool,
    /// The output that it is tied to, or else itself.
    pub root: u8,
}

/// What a hole, or the text that is put there, stands for.
#[derive(Clone, Copy, Debug)]
pub enum Leaf {
    /// A byte or `%=`.
    Nothing,
    /// A register, and whether it may be the count of a shift: it is `%cl`, whatever the placement.
    Register(Place, Slice, bool),
    /// A number with its `$`.
    Immediate(Disp),
    /// A number without `$`, and its value where it is known.
    Bare(Disp, Option<i64>),
    /// The memory operand of that number, and its address where it is put there.
    Memory(u8, Option<Form>),
    /// No placement gives the operand that name.
    Nameless,
}

/// A byte of a template's text under a placement, with where it comes from.
#[derive(Clone, Copy, Debug, PartialEq, Eq)]
pub struct Sign {
    pub byte: u8,
    /// 0 for the template, k + 1 for operand k, 255 for the number that `%=` gives.
    pub origin: u16,
}

/// A piece of a template with what it stands for.
#[derive(Clone, Copy, Debug)]
pub struct Atom {
    pub piece: Piece,
    pub leaf: Leaf,
}

/// An operand of a line.
#[derive(Clone, Copy, Debug)]
pub enum LineOperand {
    /// A register, and whether it may be the count of a shift.
    Register(Place, Slice, bool),
    Immediate(Disp),
    /// The memory operand of that number, and its address where it is put there.
    Memory(u8, Option<Form>),
    /// A written address: displacement, base, index and scale.
    Address(Disp, Option<Place>, Option<(Place, u8)>),
    /// A label, and the number of the instruction that it stands before, if it is there.
    Label(Option<u32>),
}

/// An instruction that is read.
#[derive(Debug, Drop)]
pub struct Line {
    pub op: Op,
    pub width: Width,
    /// As they are written, from first to last.
    pub operands: Items<LineOperand>,
    pub repeat: Repeat,
    pub lock: bool,
    /// The offset in the file of the instruction's first byte, which is that of its first prefix.
    pub place: u32,
}

/// What the table of names makes of an instruction.
#[derive(Debug, Drop)]
pub enum Reading {
    Read(Line),
    /// It is left out by name.
    LeftOut,
    /// The grammar has no reading of it.
    Unread,
}
