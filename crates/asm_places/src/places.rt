//! Where operands are under a shape, as far as their letters say it.

ghost use Rattle.std.specs.Prelude.{◌≡◌, false, ◌<◌, ◌&&◌, ◌==◌, length, slice_get, IfOk};
ghost use Rattle.asm_core.specs.Placement.{tie_root};
ghost use Rattle.asm_core.specs.WellFormed.{IsInterface};
ghost use Rattle.asm_core.specs.Reading.Facts.{only_register, fixed_register, alternative_at};
ghost use Rattle.asm_core.specs.Company.{is_pair_alone, fixed_place, register_places, kind_places, places_by, places_of, all_places};

use crate::operand::{allowed_by, kind_at, tie_root};
use asm_core::{AltIface, Interface, Items, Kind, Memory, Place, Places, Reg, RegSet, Shape};
use bitflags::Flags;
use std::alloc::Global;

/// The register of a set of one.
fn only_register(set: RegSet) -> Option<Reg>
    ensures { result ≡ only_register set }
{
    match set.bits() {
        1 => Some(Reg::Eax),
        2 => Some(Reg::Ebx),
        4 => Some(Reg::Ecx),
        8 => Some(Reg::Edx),
        16 => Some(Reg::Esi),
        32 => Some(Reg::Edi),
        64 => Some(Reg::Ebp),
        _ => None,
    }
}

/// Whether the letters allow the pair and no other register.
fn is_pair_alone(allowed: &AltIface) -> bool
    ensures { result ≡ is_pair_alone allowed.now }
{
    allowed.pair && allowed.regs.bits() == 0
}

/// The place of a register operand whose letters don't allow the pair alone.
fn register_place(root: u8, allowed: &AltIface) -> Place
    ensures { is_pair_alone allowed.now ≡ false → result ≡ fixed_place root (fixed_register allowed.now) }
{
    if allowed.pair {
        return Place::Operand(root);
    }
    match only_register(allowed.regs) {
        Some(register) => Place::Reg(register),
        None => Place::Operand(root),
    }
}

fn register_places(root: u8, allowed: &AltIface) -> Places
    ensures { result ≡ register_places root allowed.now }
{
    if is_pair_alone(allowed) {
        return Places::Pair;
    }
    Places::One(register_place(root, allowed))
}

fn kind_places(root: u8, allowed: &AltIface, kind: Kind) -> Places
    ensures { result ≡ kind_places root allowed.now kind }
{
    match kind {
        Kind::Register => register_places(root, allowed),
        Kind::Memory | Kind::Number => Places::One(Place::Operand(root)),
    }
}

fn places_by(root: u8, allowed: Option<AltIface>, kind: Option<Kind>) -> Places
    ensures { result ≡ places_by root allowed kind }
{
    match (allowed, kind) {
        (Some(allowed), Some(kind)) => kind_places(root, &allowed, kind),
        _ => Places::One(Place::Operand(root)),
    }
}

/// What the shape's alternative allows operand k.
fn alternative_at(i: &Interface, s: &Shape, k: usize) -> Option<AltIface>
    ensures { result ≡ alternative_at (slice_get i.now.operands k) s.now.alternative }
{
    match i.operands.get(k) {
        Some(operand) => allowed_by(operand, s),
        None => None,
    }
}

/// Where operand k is under the shape: where the output is that it is tied to.
#[tactic(auto, unfolding(asm_core::specs::Company::places_of))]
fn places_of(i: &Interface, s: &Shape, k: usize) -> Places
    requires { k < 256 }
    ensures { result ≡ places_of i.now s.now k }
{
    let root = tie_root(i, s, k);
    places_by(root as u8, alternative_at(i, s, root), kind_at(s, root))
}

/// Where each operand is under the shape.
#[tactic(auto, using(asm_core::proofs::CountLaws::counted_all))]
pub fn all_places(alloc: Global, i: &Interface, s: &Shape) -> Result<Items<Places>, Memory>
    requires { IsInterface i.now }
    ensures { IfOk result (λ places. places ≡ all_places i.now s.now) }
{
    let mut places = Items::new(alloc);
    for (k, _operand) in i.operands.as_slice().iter().enumerate() {
        places.push(places_of(i, s, k))?;
    }
    Ok(places)
}
