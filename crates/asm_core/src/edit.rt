use crate::{Items, Span};

/// A change of a text: the bytes of the span give way to `text`.
#[derive(Debug, Drop)]
pub struct Edit {
    pub span: Span,
    pub text: Items<u8>,
}
