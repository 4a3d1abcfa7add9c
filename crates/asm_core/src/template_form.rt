use crate::Modifier;

/// A form of a template, with the offset in the file at which it begins, before it is judged by what stands beside it.
#[derive(Clone, Copy)]
pub enum TemplateForm {
    /// A byte that stands for itself, or by `%%`, `%{`, `%|` or `%}`.
    Byte(u8, u32),
    /// The operand of that number; `None` where the operand that is named is not there.
    Hole(Option<u8>, Modifier, u32),
    /// `%=`.
    Unique(u32),
    /// What is in no form of the grammar.
    Outside(u32),
}

/// What stands at an index of a template's bytes.
#[derive(Clone, Copy)]
pub struct TemplateCut {
    /// `None` where braces part the dialects.
    pub form: Option<TemplateForm>,
    /// Whether what comes next stands in braces.
    pub braced: bool,
    /// The index at which what comes next begins.
    pub end: usize,
}

/// An operand as it is written behind its `%` and modifier: a number, or a name in brackets.
#[derive(Clone, Copy)]
pub struct WrittenOperand {
    /// Its number; `None` where it is not there.
    pub operand: Option<u8>,
    /// The index behind it.
    pub end: usize,
}
