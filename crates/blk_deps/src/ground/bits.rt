//! Sets as the bits of a word.

ghost use Rattle.std.specs.Prelude.{◌≡◌, ℕ, ◌<◌, ◌==◌, ◌&&◌, ◌||◌, not};
ghost use Rattle.blk_deps.specs.Ground.{has_bit};

/// Whether bit n is set.
pub(crate) fn has_bit(word: u64, n: usize) -> bool
    requires { n < 64 }
    ensures { result ≡ has_bit word n }
{
    (word >> n) & 1 == 1
}

/// The word with bit n set where it has to be.
pub(crate) fn with_bit(word: u64, n: usize, on: bool) -> u64
    requires { n < 64 }
    ensures { (k : ℕ) → k < 64 → has_bit result k ≡ (has_bit word k || (k == n && on)) }
{
    if on { word | (1 << n) } else { word }
}

/// The bits of either word.
pub(crate) fn either(word: u64, other: u64) -> u64
    ensures { (k : ℕ) → has_bit result k ≡ (has_bit word k || has_bit other k) }
{
    word | other
}

/// The bits of the word that the other one hasn't.
pub(crate) fn without(word: u64, other: u64) -> u64
    ensures { (k : ℕ) → k < 64 → has_bit result k ≡ (has_bit word k && not (has_bit other k)) }
{
    word & !other
}

/// The lower half of a word.
pub(crate) fn low_half(word: u64) -> u32
    ensures { (k : ℕ) → k < 32 → has_bit result k ≡ has_bit word k }
{
    (word % 0x1_0000_0000) as u32
}
