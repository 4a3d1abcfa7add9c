/// The bytes of a file from the offset `from` up to, but not at, the offset `to`.
#[derive(Clone, Copy, Debug, PartialEq, Eq)]
pub struct Span {
    pub from: u32,
    pub to: u32,
}
