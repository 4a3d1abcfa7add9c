//! Of what class the bytes of places are.

ghost use Rattle.std.specs.Prelude.{◌≡◌, ℕ, ◌+◌, ◌*◌, ◌/◌, ◌%◌, ◌<◌, ◌==◌, ◌&&◌, ◌||◌, not, nat_lt, false};
ghost use Rattle.std.specs.List.{list_any};
ghost use Rattle.asm_core.specs.Company.{all_places};
ghost use Rattle.blk_deps.specs.Operands.{numbers_in};
ghost use Rattle.blk_deps.specs.Holding.{count_at, has_byte, is_of_class, is_in_class, words_of};
ghost use Rattle.blk_deps.specs.Ground.{has_bit, has_cell_bit};

use super::bits::{either, without};
use super::operand::{in_register, is_input_at, is_output_at, place_number, size_at};
use asm_core::{Interface, Places, Shape};

/// Bytes that some operand has.
#[derive(Clone, Copy)]
pub(crate) enum Class {
    /// Of a place that holds it, whatever its size.
    Held,
    /// Of its value.
    Covered,
    OfOutputs,
    OfInputs,
}

impl Class {
    /// How many bytes of operand k are of the class, the low ones.
    fn count(self, interface: &Interface, k: usize) -> u32
        ensures { result ≡ count_at self interface.now k }
    {
        match self {
            Class::Held => 8,
            Class::Covered => size_at(interface, k),
            Class::OfOutputs => if is_output_at(interface, k) {
                size_at(interface, k)
            } else {
                0
            },
            Class::OfInputs => if is_input_at(interface, k) {
                size_at(interface, k)
            } else {
                0
            },
        }
    }
}

/// So many bytes, the low ones of four, as bits.
fn low_bytes(count: u32) -> u64
    ensures below { result < 16 }
    ensures bits { (b : ℕ) → b < 4 → has_bit result b ≡ nat_lt b count }
{
    match count {
        0 => 0,
        1 => 1,
        2 => 3,
        3 => 7,
        _ => 15,
    }
}

/// So many bytes of the place that has these four of a word's sixteen.
fn word_bytes(place: usize, count: u32) -> u64
    requires { place < 16 }
    ensures { (n : ℕ) → n < 64 → has_bit result n ≡ (n / 4 == place && nat_lt (n % 4) count) }
{
    low_bytes(count) << (place * 4)
}

/// A set of byte cells: cell c is bit c % 64 of word c / 64.
#[derive(Clone, Copy)]
pub(crate) struct ByteSet {
    first: u64,
    second: u64,
    third: u64,
}

impl ByteSet {
    fn empty() -> ByteSet
        ensures { (c : ℕ) → has_cell_bit (words_of result) c ≡ false }
    {
        ByteSet {
            first: 0,
            second: 0,
            third: 0,
        }
    }

    /// So many bytes of place p.
    fn of_place(p: usize, count: u32) -> ByteSet
        ensures { (c : ℕ) → c < 148 → has_cell_bit (words_of result) c ≡ (c / 4 == p && nat_lt (c % 4) count) }
    {
        let bits = word_bytes(p % 16, count);
        match p / 16 {
            0 => ByteSet {
                first: bits,
                second: 0,
                third: 0,
            },
            1 => ByteSet {
                first: 0,
                second: bits,
                third: 0,
            },
            2 => ByteSet {
                first: 0,
                second: 0,
                third: bits,
            },
            _ => ByteSet::empty(),
        }
    }

    pub(crate) fn words(self) -> [u64; 3]
        ensures { result ≡ words_of self }
    {
        [self.first, self.second, self.third]
    }

    /// The bytes of either set.
    fn and(self, more: ByteSet) -> ByteSet
        ensures { (c : ℕ) → has_cell_bit (words_of result) c
            ≡ (has_cell_bit (words_of self) c || has_cell_bit (words_of more) c) }
    {
        ByteSet {
            first: either(self.first, more.first),
            second: either(self.second, more.second),
            third: either(self.third, more.third),
        }
    }

    /// The bytes that the other set hasn't.
    pub(crate) fn without(self, others: ByteSet) -> ByteSet
        ensures { (c : ℕ) → has_cell_bit (words_of result) c
            ≡ (has_cell_bit (words_of self) c && not (has_cell_bit (words_of others) c)) }
    {
        ByteSet {
            first: without(self.first, others.first),
            second: without(self.second, others.second),
            third: without(self.third, others.third),
        }
    }
}

/// So many bytes of an operand that is there.
fn operand_bytes(places: Places, count: u32) -> ByteSet
    ensures { (c : ℕ) → c < 148 → has_cell_bit (words_of result) c ≡ has_byte places count c }
{
    match places {
        Places::One(place) => ByteSet::of_place(place_number(place), count),
        Places::Pair => ByteSet::of_place(0, count).and(ByteSet::of_place(
            3,
            count.saturating_sub(4),
        )),
    }
}

/// The bytes of the class that operand k has, which is there.
fn bytes_of_operand(
    interface: &Interface,
    shape: &Shape,
    class: Class,
    k: usize,
    places: Places,
) -> ByteSet
    ensures { (c : ℕ) → c < 148 → has_cell_bit (words_of result) c
        ≡ is_of_class class interface.now shape.now k places c }
{
    if in_register(shape, k) {
        operand_bytes(places, class.count(interface, k))
    } else {
        ByteSet::empty()
    }
}

/// The bytes of the class; operands are at `places`.
pub(crate) fn bytes_of(
    interface: &Interface,
    shape: &Shape,
    places: &[Places],
    class: Class,
) -> ByteSet
    requires { places.now ≡ all_places interface.now shape.now }
    ensures { (c : ℕ) → c < 148 → has_cell_bit (words_of result) c
        ≡ is_in_class class interface.now shape.now c }
{
    let mut bytes = ByteSet::empty();
    for (k, at) in places.iter().enumerate() {
        bytes = bytes.and(bytes_of_operand(interface, shape, class, k, *at));
    }
    bytes
}
