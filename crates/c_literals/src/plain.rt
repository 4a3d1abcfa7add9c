//! What may stand as itself in a literal.

ghost use Rattle.std.specs.Prelude.{◌≡◌};
ghost use Rattle.c_literals.specs.Escapes.{is_plain};

/// Which bytes, but for the backslash, a literal may have as themselves.
#[derive(Clone, Copy, Debug, PartialEq, Eq)]
pub enum Plain {
    /// Every byte, as C has it (C11 6.4.4.4, 6.4.5).
    Every,
    /// Printable ASCII, tab and newline alone, as templates of asm statements have it in this project's profile.
    Printable,
}

impl Plain {
    /// Whether the byte may stand as itself.
    pub fn has(self, b: u8) -> bool
        ensures { result ≡ is_plain self b }
    {
        match self {
            Plain::Every => true,
            Plain::Printable => matches!(b, b' '..=b'~' | b'\t' | b'\n'),
        }
    }
}
