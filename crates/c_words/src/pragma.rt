//! The first `#pragma pack` of a text (GCC manual, "Structure-Layout Pragmas").

ghost use Rattle.std.specs.Prelude.{◌≡◌, ◌<◌, drop, length, IfSome};
ghost use Rattle.c_words.specs.Pragma.{at_pragma, is_at_pack, pack_of, sought_behind};

/// Where the search for `pragma` and for `pack` behind it stands.
#[derive(Clone, Copy)]
pub enum Sought {
    /// No `pragma` stands before.
    Pragma,
    /// In `pragma`: so many of its letters are left.
    Letters(u8),
    /// Behind it and what may stand between.
    Pack,
    /// There, behind a `/` that may begin a comment.
    Slash,
    /// There, in a comment.
    Comment,
    /// There, in a comment behind a `*`.
    Star,
    /// There, behind a backslash that may stand before a newline.
    Backslash,
}

/// Where the search goes on behind the first of the bytes, at which it begins anew.
fn at_pragma(bytes: &[u8]) -> Sought
    ensures { result ≡ at_pragma bytes.now }
{
    if bytes.starts_with(b"pragma") {
        Sought::Letters(5)
    } else {
        Sought::Pragma
    }
}

impl Sought {
    /// Where the search stands behind the first of the bytes.
    #[tactic(auto, unfolding(crate::specs::Pragma::sought_behind))]
    fn behind(self, bytes: &[u8]) -> Sought
        requires { 0 < length bytes.now }
        ensures { result ≡ sought_behind self bytes.now }
    {
        let b = bytes[0];
        match self {
            Sought::Pragma => at_pragma(bytes),
            Sought::Letters(left) if left > 1 => Sought::Letters(left - 1),
            Sought::Letters(_) => Sought::Pack,
            Sought::Pack => match b {
                b' ' | b'\t' | b'(' | b'"' => Sought::Pack,
                b'/' => Sought::Slash,
                b'\\' => Sought::Backslash,
                _ => at_pragma(bytes),
            },
            Sought::Slash if b == b'*' => Sought::Comment,
            Sought::Slash => at_pragma(bytes),
            Sought::Comment if b == b'*' => Sought::Star,
            Sought::Comment => Sought::Comment,
            Sought::Star if b == b'/' => Sought::Pack,
            Sought::Star if b == b'*' => Sought::Star,
            Sought::Star => Sought::Comment,
            Sought::Backslash if b == b'\n' => Sought::Pack,
            Sought::Backslash => at_pragma(bytes),
        }
    }

    /// Whether `pack` stands where it is sought.
    fn is_at_pack(self, bytes: &[u8]) -> bool
        ensures { result ≡ is_at_pack self bytes.now }
    {
        match self {
            Sought::Pack => bytes.starts_with(b"pack"),
            _ => false,
        }
    }
}

/// The offset of the first `pack` that stands behind `pragma`, blanks, comments, spliced lines, `(` and `"` between
/// them.
#[tactic(auto, using(crate::proofs::PragmaLemmas::pack_steps))]
pub fn pack_of(text: &[u8]) -> Option<u32>
    requires { length text.now < 4294967295 }
    ensures { result ≡ pack_of text.now }
{
    let mut sought = Sought::Pragma;
    let mut i = 0;
    while i < text.len() {
        let rest = &text[i..];
        if sought.is_at_pack(rest) {
            return Some(i as u32);
        }
        sought = sought.behind(rest);
        i += 1;
    }
    None
}
