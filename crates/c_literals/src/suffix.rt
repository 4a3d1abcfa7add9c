//! The suffixes of integer constants.

ghost use Rattle.std.specs.Prelude.{◌≡◌};
ghost use Rattle.c_literals.specs.Suffixes.{is_short, same, is_unsigned, is_long, is_long_long, is_unsigned_long, is_unsigned_long_long, suffix_of};

/// How long the shortest type is that a suffix admits.
#[derive(Clone, Copy, Debug, PartialEq, Eq)]
pub enum Rank {
    Int,
    Long,
    LongLong,
}

impl Rank {
    /// Whether the type has 4 bytes.
    pub fn is_short(self) -> bool
        ensures { result ≡ is_short self }
    {
        matches!(self, Rank::Int | Rank::Long)
    }
}

/// What a suffix says of the constant's type (C11 6.4.4.1).
#[derive(Clone, Copy, Debug, PartialEq, Eq)]
pub struct Suffix {
    /// Whether only unsigned types are left.
    pub unsigned: bool,
    pub rank: Rank,
}

/// Whether the suffix is spelt so.
fn is(suffix: &[u8], word: &[u8]) -> bool
    ensures { result ≡ same suffix.now word.now }
{
    suffix == word
}

fn is_unsigned(s: &[u8]) -> bool
    ensures { result ≡ is_unsigned s.now }
{
    is(s, b"u") || is(s, b"U")
}

fn is_long(s: &[u8]) -> bool
    ensures { result ≡ is_long s.now }
{
    is(s, b"l") || is(s, b"L")
}

fn is_long_long(s: &[u8]) -> bool
    ensures { result ≡ is_long_long s.now }
{
    is(s, b"ll") || is(s, b"LL")
}

fn is_unsigned_long(s: &[u8]) -> bool
    ensures { result ≡ is_unsigned_long s.now }
{
    is(s, b"ul")
        || is(s, b"uL")
        || is(s, b"Ul")
        || is(s, b"UL")
        || is(s, b"lu")
        || is(s, b"lU")
        || is(s, b"Lu")
        || is(s, b"LU")
}

fn is_unsigned_long_long(s: &[u8]) -> bool
    ensures { result ≡ is_unsigned_long_long s.now }
{
    is(s, b"ull")
        || is(s, b"uLL")
        || is(s, b"Ull")
        || is(s, b"ULL")
        || is(s, b"llu")
        || is(s, b"llU")
        || is(s, b"LLu")
        || is(s, b"LLU")
}

/// The suffix that the bytes spell.
#[tactic(auto, unfolding(crate::specs::Suffixes::suffix_of))]
pub fn suffix_of(s: &[u8]) -> Option<Suffix>
    ensures { result ≡ suffix_of s.now }
{
    let (unsigned, rank) = if s.is_empty() {
        (false, Rank::Int)
    } else if is_unsigned(s) {
        (true, Rank::Int)
    } else if is_long(s) {
        (false, Rank::Long)
    } else if is_unsigned_long(s) {
        (true, Rank::Long)
    } else if is_long_long(s) {
        (false, Rank::LongLong)
    } else if is_unsigned_long_long(s) {
        (true, Rank::LongLong)
    } else {
        return None;
    };
    Some(Suffix { unsigned, rank })
}
