//! Bits of words, each of 64.

ghost use Rattle.std.specs.Prelude.{◌≡◌, ℕ, ◌+◌, ◌-◌, ◌*◌, ◌/◌, ◌%◌, ◌<◌, ◌≤◌, ◌==◌, ◌&&◌, ◌||◌, false, nat_lt, nat_le, length, slice_index, if◌then◌else◌};
ghost use Rattle.std.specs.List.{list_any};
ghost use Rattle.dataflow.specs.Bits.{facts_in};
ghost use Rattle.blk_deps.specs.Ground.{has_bit};

/// The bits below n; all of them from 64 on.
#[inline]
pub(crate) fn below(n: usize) -> u64
    ensures { (b : ℕ) → b < 64 → has_bit result b ≡ nat_lt b n }
{
    if n < 64 { (1 << n) - 1 } else { u64::MAX }
}

/// All bits, or none.
#[inline]
fn all(on: bool) -> u64
    ensures { (b : ℕ) → b < 64 → has_bit result b ≡ on }
{
    if on { u64::MAX } else { 0 }
}

/// Whether the bit is there.
#[inline]
pub(crate) fn has(words: &[u64], bit: usize) -> bool
    requires { bit / 64 < length words.now }
    ensures { result ≡ facts_in words.now bit }
{
    words[bit / 64] >> (bit % 64) & 1 == 1
}

/// Whether the word has the bit.
#[inline]
pub(crate) fn word_has(word: u64, bit: usize) -> bool
    requires { bit < 64 }
    ensures { result ≡ has_bit word bit }
{
    word >> bit & 1 == 1
}

/// The word with the bit, or without.
#[inline]
fn with_bit(word: u64, bit: usize, on: bool) -> u64
    requires { bit < 64 }
    ensures { (b : ℕ) → b < 64 → has_bit result b ≡ (if b == bit then on else has_bit word b) }
{
    if on {
        word | 1 << bit
    } else {
        word & !(1 << bit)
    }
}

/// Puts the bit in, or takes it out.
#[inline]
pub(crate) fn set(words: &mut [u64], bit: usize, on: bool)
    requires { bit / 64 < length words.old }
    ensures size { length words.new ≡ length words.old }
    ensures bits { (n : ℕ) → facts_in words.new n ≡ (if n == bit then on else facts_in words.old n) }
{
    words[bit / 64] = with_bit(words[bit / 64], bit % 64, on);
}

/// Puts the bits of a word in.
#[inline]
pub(crate) fn join_word(words: &mut [u64], at: usize, more: u64)
    requires { at < length words.old }
    ensures size { length words.new ≡ length words.old }
    ensures bits { (n : ℕ) → facts_in words.new n ≡ (facts_in words.old n || (n / 64 == at && has_bit more (n % 64))) }
{
    words[at] |= more;
}

/// Puts the bits of as many words in.
#[inline]
pub(crate) fn join(words: &mut [u64], more: &[u64])
    requires { length more.now ≡ length words.old }
    ensures size { length words.new ≡ length words.old }
    ensures bits { (n : ℕ) → facts_in words.new n ≡ (facts_in words.old n || facts_in more.now n) }
{
    for i in 0..words.len() {
        words[i] |= more[i];
    }
}

/// Takes all bits out.
#[inline]
pub(crate) fn clear(words: &mut [u64])
    ensures size { length words.new ≡ length words.old }
    ensures bits { (n : ℕ) → facts_in words.new n ≡ false }
{
    fill_first(words, words.len(), false);
}

/// Has all bits of the first words, or none.
#[inline]
pub(crate) fn fill_first(words: &mut [u64], count: usize, on: bool)
    requires { count ≤ length words.old }
    ensures size { length words.new ≡ length words.old }
    ensures bits { (n : ℕ) → facts_in words.new n ≡ (if nat_lt (n / 64) count then on else facts_in words.old n) }
{
    let word = all(on);
    for i in 0..count {
        words[i] = word;
    }
}

/// Has these words from that one on.
#[inline]
pub(crate) fn put_words(words: &mut [u64], at: usize, more: &[u64])
    requires { at + length more.now ≤ length words.old }
    ensures size { length words.new ≡ length words.old }
    ensures bits { (n : ℕ) → facts_in words.new n
        ≡ (if nat_le at (n / 64) && nat_lt (n / 64) (at + length more.now) then facts_in more.now (n - 64 * at)
        else facts_in words.old n) }
{
    words[at..at + more.len()].copy_from_slice(more);
}

/// The bits that some of the words has.
#[inline]
pub(crate) fn joined(words: &[u64]) -> u64
    ensures { (b : ℕ) → b < 64 → has_bit result b ≡ list_any (λ word. has_bit word b) words.now }
{
    let mut all = 0;
    for word in words {
        all |= *word;
    }
    all
}
