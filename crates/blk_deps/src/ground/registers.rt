//! Which places a shape has, and which of them hold operands.

ghost use Rattle.std.specs.Prelude.{◌≡◌, ℕ, ◌+◌, ◌<◌, ◌==◌, ◌&&◌, ◌||◌, not, nat_lt, length};
ghost use Rattle.asm_core.specs.WellFormed.{IsInterface};
ghost use Rattle.asm_core.specs.Company.{held_at, all_places};
ghost use Rattle.blk_deps.specs.Cells.{place_number, place_at};
ghost use Rattle.blk_deps.specs.Operands.{in_register, has_address, is_own, is_root, is_held, is_place};
ghost use Rattle.blk_deps.specs.Holding.{holds_at, is_of, is_holding};
ghost use Rattle.blk_deps.specs.Ground.{has_bit};

use super::bits::{either, with_bit, without};
use super::memory::has_address;
use super::operand::{in_register, is_output_at, is_root, place_number};
use asm_core::{Interface, Place, Places, Shape};

/// Whose places.
#[derive(Clone, Copy)]
pub(crate) enum Of {
    Operands,
    Outputs,
}

impl Of {
    /// Whether operand k is one of those.
    pub(crate) fn has(self, interface: &Interface, k: usize) -> bool
        ensures { result ≡ is_of self interface.now k }
    {
        match self {
            Of::Operands => true,
            Of::Outputs => is_output_at(interface, k),
        }
    }
}

/// The place alone.
fn only(place: Place) -> u64
    ensures { (p : ℕ) → p < 64 → has_bit result p ≡ (p == place_number place) }
{
    let number = place_number(place);
    if number < 64 { 1 << number } else { 0 }
}

/// The places of an operand that is there: for the pair, eax and edx.
fn places_at(places: Places) -> u64
    ensures { (p : ℕ) → p < 64 → has_bit result p ≡ is_held (held_at (place_at p) places) }
{
    match places {
        Places::One(place) => only(place),
        Places::Pair => 9,
    }
}

/// The places that hold operand k, which is there.
pub(crate) fn places_holding(shape: &Shape, k: usize, places: Places) -> u64
    ensures { (p : ℕ) → p < 64 → has_bit result p ≡ holds_at shape.now k places p }
{
    if in_register(shape, k) {
        places_at(places)
    } else {
        0
    }
}

/// The places that hold operand k, which is there, if it is one of those.
fn places_counted(interface: &Interface, shape: &Shape, of: Of, k: usize, places: Places) -> u64
    ensures { (p : ℕ) → p < 64 → has_bit result p ≡ (is_of of interface.now k && holds_at shape.now k places p) }
{
    if of.has(interface, k) {
        places_holding(shape, k, places)
    } else {
        0
    }
}

/// The places that hold some operand, or some output; operands are at `places`.
pub(crate) fn places_held(interface: &Interface, shape: &Shape, places: &[Places], of: Of) -> u64
    requires { places.now ≡ all_places interface.now shape.now }
    ensures { (p : ℕ) → p < 64 → has_bit result p ≡ is_holding of interface.now shape.now p }
{
    let mut held = 0;
    for (k, at) in places.iter().enumerate() {
        held = either(held, places_counted(interface, shape, of, k, *at));
    }
    held
}

/// The registers that are no operand's place, of the places that hold some operand.
pub(crate) fn lone_places(held: u64) -> u64
    ensures { (p : ℕ) → p < 64 → has_bit result p ≡ (nat_lt p 7 && not (has_bit held p)) }
{
    without(127, held)
}

/// Whether operand k, which is there, has a register of its own.
fn has_own_register(interface: &Interface, shape: &Shape, k: usize, places: Places) -> bool
    ensures { result ≡ ((in_register shape.now k && is_root interface.now shape.now k) && is_own k places) }
{
    in_register(shape, k) && is_root(interface, shape, k) && is_own(k, places)
}

fn is_own(k: usize, places: Places) -> bool
    ensures { result ≡ is_own k places }
{
    match places {
        Places::One(Place::Operand(root)) => k == root as usize,
        _ => false,
    }
}

/// Whether operand k, which is there, has a place of its own.
fn has_place(interface: &Interface, shape: &Shape, k: usize, places: Places) -> bool
    ensures { result ≡ (((in_register shape.now k && is_root interface.now shape.now k) && is_own k places)
        || has_address interface.now shape.now k) }
{
    has_own_register(interface, shape, k, places) || has_address(interface, shape, k)
}

/// The places of the shape.
pub(crate) fn shape_places(interface: &Interface, shape: &Shape, places: &[Places]) -> u64
    requires interface { IsInterface interface.now }
    requires places { places.now ≡ all_places interface.now shape.now }
    ensures { (p : ℕ) → p < 64 → has_bit result p ≡ is_place interface.now shape.now p }
{
    let mut word = 127;
    for (k, at) in places.iter().enumerate() {
        word = with_bit(word, 7 + k, has_place(interface, shape, k, *at));
    }
    word
}
