//! Bits of words and of rows, by the facts that they are.

ghost use Rattle.std.specs.Prelude.{◌≡◌, ℕ, ◌<◌, ◌≤◌, ◌&&◌};
ghost use Rattle.blk_deps.specs.Ruling.{IsSpan, have_common};
ghost use Rattle.dataflow.specs.Bits.{facts_in};
ghost use Rattle.blk_deps.specs.Ground.{has_bit, has_cell_bit};

/// Bit n of the word.
pub(crate) fn has_bit(word: u64, n: usize) -> bool
    requires { n < 64 }
    ensures { result ≡ has_bit word n }
{
    word >> n & 1 == 1
}

/// The bit of a byte cell.
pub(crate) fn has_cell_bit(words: &[u64; 3], cell: usize) -> bool
    requires { cell < 192 }
    ensures { result ≡ has_cell_bit words.now cell }
{
    has_bit(words[cell / 64], cell % 64)
}

/// Whether the row has the fact of that bit. There are none past its words.
pub(crate) fn has_fact(row: &[u64], bit: usize) -> bool
    ensures { result ≡ facts_in row.now bit }
{
    match row.get(bit / 64) {
        Some(word) => has_bit(*word, bit % 64),
        None => false,
    }
}

/// The first bit of a word that is set, and the one behind the last.
#[tactic(auto, using(crate::proofs::SpanLemmas::from_lowest, crate::proofs::SpanLemmas::below_highest))]
pub(crate) fn span(word: u64) -> (u8, u8)
    ensures end { result.1 ≤ 64 }
    ensures inside { IsSpan word result.0 result.1 }
{
    let first = word.trailing_zeros() as u8;
    let end = 64 - word.leading_zeros() as u8;
    (first, end)
}

/// Whether both words have some bit.
pub(crate) fn meets(word: u64, other: u64) -> bool
    ensures { result ≡ have_common word other }
{
    word & other != 0
}
