//! How reports name places.

ghost use Rattle.std.specs.Prelude.{◌≡◌, ℕ, ◌+◌, ◌<◌, ◌&&◌, length, IfOk};
ghost use Rattle.std.specs.List.{find};
ghost use Rattle.asm_core.specs.WellFormed.{IsInterface};
ghost use Rattle.asm_core.specs.Company.{all_places};
ghost use Rattle.blk_deps.specs.Operands.{numbers_in, holds, bare_name, name_of};
ghost use Rattle.blk_deps.specs.Holding.{holds_at, is_of, AreNames};

use super::bits::has_bit;
use super::registers::{Of, places_holding};
use asm_core::{Cell, Interface, Items, Memory, Places, Reg, Shape};
use std::alloc::Global;

/// How a place is named that holds no operand.
fn bare_name(p: usize) -> Cell
    requires { p < 263 }
    ensures { result ≡ bare_name p }
{
    match p {
        0 => Cell::Reg(Reg::Eax),
        1 => Cell::Reg(Reg::Ebx),
        2 => Cell::Reg(Reg::Ecx),
        3 => Cell::Reg(Reg::Edx),
        4 => Cell::Reg(Reg::Esi),
        5 => Cell::Reg(Reg::Edi),
        6 => Cell::Reg(Reg::Ebp),
        _ => Cell::Operand((p - 7) as u8),
    }
}

/// Whether the place holds operand k, which is there, and that is one of those.
fn is_there(
    interface: &Interface,
    shape: &Shape,
    of: Of,
    k: usize,
    places: Places,
    p: usize,
) -> bool
    requires { p < 64 }
    ensures { result ≡ (is_of of interface.now k && holds_at shape.now k places p) }
{
    of.has(interface, k) && has_bit(places_holding(shape, k, places), p)
}

/// The least operand, or output, that the place holds; operands are at `places`.
fn first_there(
    interface: &Interface,
    shape: &Shape,
    places: &[Places],
    of: Of,
    p: usize,
) -> Option<u8>
    requires interface { IsInterface interface.now }
    requires places { places.now ≡ all_places interface.now shape.now }
    requires place { p < 64 }
    ensures { result
        ≡ find (λ k. is_of of interface.now k && holds interface.now shape.now p k) (numbers_in interface.now) }
{
    for (k, at) in places.iter().enumerate() {
        if is_there(interface, shape, of, k, *at, p) {
            return Some(k as u8);
        }
    }
    None
}

/// How reports name the place: by the least output there, else by the least input, else as it is.
fn place_name(interface: &Interface, shape: &Shape, places: &[Places], p: usize) -> Cell
    requires interface { IsInterface interface.now }
    requires places { places.now ≡ all_places interface.now shape.now }
    requires place { p < 64 }
    ensures { result ≡ name_of interface.now shape.now p }
{
    match first_there(interface, shape, places, Of::Outputs, p) {
        Some(output) => Cell::Operand(output),
        None => match first_there(interface, shape, places, Of::Operands, p) {
            Some(input) => Cell::Operand(input),
            None => bare_name(p),
        },
    }
}

/// How reports name each place, of the registers and of the operands, which are at `places`.
///
/// # Errors
/// Want of memory.
pub(crate) fn place_names(
    alloc: Global,
    interface: &Interface,
    shape: &Shape,
    places: &[Places],
) -> Result<Items<Cell>, Memory>
    requires interface { IsInterface interface.now }
    requires places { places.now ≡ all_places interface.now shape.now }
    ensures { IfOk result (AreNames interface.now shape.now (7 + length interface.now.operands)) }
{
    let mut names = Items::new(alloc);
    for p in 0..7 + places.len() {
        names.push(place_name(interface, shape, places, p))?;
    }
    Ok(names)
}
