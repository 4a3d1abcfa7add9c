/// What is known of the expression of an asm operand.
#[derive(Clone, Copy, Debug, PartialEq, Eq)]
pub struct Operand {
    /// The bytes of the expression's own type, if that has a size.
    pub own: Option<u32>,
    /// The bytes of its value, after an array or a function became a pointer; `None` where it is no integer, enumeration or pointer.
    pub value: Option<u32>,
    /// Whether its value is a pointer.
    pub pointer: bool,
    /// Its number, read with a sign in the size of its value, if it is an integer constant expression.
    pub known: Option<i64>,
}
