//! What the operands are under a shape, as bits: of places, of operands, of cells.

ghost use Rattle.std.specs.Prelude.{◌≡◌, ◌<◌, Some, slice_get, length, IfOk};
ghost use Rattle.asm_core.specs.WellFormed.{IsInterface};
ghost use Rattle.blk_deps.specs.Cells.{place_number};
ghost use Rattle.blk_deps.specs.Ground.{has_bit, IsGround};

pub(crate) mod bits;
mod bytes;
mod memory;
mod naming;
mod operand;
mod registers;
mod results;

use self::bits::{either, has_bit, without};
use self::bytes::{Class, bytes_of};
use self::memory::{changing_operands, unseen_operands};
use self::naming::place_names;
use self::operand::place_number;
use self::registers::{Of, lone_places, places_held, shape_places};
use self::results::result_flags;
use asm_core::{Cell, Interface, Items, Memory, Place, Shape};
use asm_places::all_places;
use bitflags::Flags;
use std::alloc::Global;

/// What is known of a shape before any path.
#[derive(Debug, Drop)]
pub struct Ground {
    /// Bit p: place p is one of the shape.
    pub places: u64,
    /// Bit p: a register that is no operand's place.
    pub lone: u64,
    /// Bit p: that and not clobbered, or a place of inputs alone.
    pub kept: u64,
    /// Bit p: a place of inputs alone.
    pub input_places: u64,
    /// How reports name each place, of the registers and of the operands.
    pub names: Items<Cell>,
    /// Bit c % 64 of word c / 64: byte cell c is a byte of an output and of no input.
    pub output_bytes: [u64; 3],
    /// The same of the bytes of a place that are at or above the size of each operand there.
    pub bytes_above: [u64; 3],
    /// The same of the bytes of outputs in registers.
    pub results: [u64; 3],
    /// Bit k: memory that isn't seen.
    pub unseen: u32,
    /// Bit k: memory in one live shape and of another kind in another.
    pub changing: u32,
    /// Bit f: a flag that the condition of a flag output names.
    pub result_flags: u8,
}

impl Ground {
    /// What is known of a shape of the interface, whose live shapes these are.
    ///
    /// # Errors
    /// Want of memory.
    pub fn of(
        alloc: Global,
        interface: &Interface,
        live: &[Shape],
        shape: &Shape,
    ) -> Result<Ground, Memory>
        requires { IsInterface interface.now }
        ensures { IfOk result (IsGround interface.now live.now shape.now) }
    {
        let all = all_places(alloc, interface, shape)?;
        let places = all.as_slice();
        let names = place_names(alloc, interface, shape, places)?;
        let held = places_held(interface, shape, places, Of::Operands);
        let lone = lone_places(held);
        let input_places = without(held, places_held(interface, shape, places, Of::Outputs));
        let undeclared = without(lone, u64::from(interface.clobbers.bits()));
        let covered = bytes_of(interface, shape, places, Class::Covered);
        let whole = bytes_of(interface, shape, places, Class::Held);
        let inputs = bytes_of(interface, shape, places, Class::OfInputs);
        let results = bytes_of(interface, shape, places, Class::OfOutputs);
        Ok(Ground {
            places: shape_places(interface, shape, places),
            lone,
            kept: either(undeclared, input_places),
            input_places,
            names,
            output_bytes: results.without(inputs).words(),
            bytes_above: whole.without(covered).words(),
            results: results.words(),
            unseen: unseen_operands(interface, live, shape),
            changing: changing_operands(live),
            result_flags: result_flags(interface),
        })
    }

    /// How reports name place p.
    pub fn name(&self, p: usize) -> Cell
        requires { p < length self.now.names }
        ensures { slice_get self.now.names p ≡ Some result }
    {
        self.names.as_slice()[p]
    }

    /// Whether the place is one of the shape.
    pub fn is_place(&self, place: Place) -> bool
        requires { place_number place < 64 }
        ensures { result ≡ has_bit self.now.places (place_number place) }
    {
        has_bit(self.places, place_number(place))
    }
}
