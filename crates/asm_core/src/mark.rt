/// What kind of thing lies outside the tables.
#[derive(Clone, Copy, Debug, PartialEq, Eq)]
pub enum MarkKind {
    Statement,
    Clobber,
    Operand,
    Constraint,
    Template,
    Shapes,
    Lines,
    Instruction,
}

/// A thing outside the tables, at its offset in the file.
///
/// The place is the keyword for `Statement`, `Shapes` and `Lines`; the opening quote of the first literal for
/// `Clobber` and `Constraint`; the first byte of the expression for `Operand`, of the form for `Template` and
/// of the instruction for `Instruction`.
#[derive(Clone, Copy, Debug, PartialEq, Eq)]
pub struct Mark {
    pub kind: MarkKind,
    pub place: u32,
}
