ghost use Rattle.std.specs.Prelude.{◌≡◌, ◌↔◌, ℕ, ◌<◌, ◌≤◌, length, IsTrue, IfSome, IfNone};
ghost use Rattle.asm_core.specs.Lists.{IsMember};
ghost use Rattle.asm_core.specs.Shape.{shapes_of};
ghost use Rattle.asm_core.specs.Roomy.{ShareRegister, IsPlaceOf};
ghost use Rattle.asm_core.specs.WellFormed.{IsInterface};
ghost use Rattle.asm_core.specs.declared.placement.Placement.{Placement};
ghost use Rattle.asm_places.specs.Sharing.{IsSharedIn, CanShareIn, CanShare, is_other, operand_of};

use crate::goal::{Asked, Goal};
use crate::operand::tie_root;
use crate::placing::{has_placement, least_placement};
use asm_core::{Interface, Place, Placement, Reg, Shape};

const REGISTERS: [Reg; 7] = [
    Reg::Eax,
    Reg::Ebx,
    Reg::Ecx,
    Reg::Edx,
    Reg::Esi,
    Reg::Edi,
    Reg::Ebp,
];

/// An allowed placement in which the two places use one register, a memory operand standing for the registers of its address; None exactly
/// where there is none.
///
/// For the same register twice it tells whether the shape has an allowed placement at all.
pub fn may_share(i: &Interface, s: &Shape, p: Place, q: Place) -> Option<Placement>
    requires interface { IsInterface i.now }
    requires shape { IsMember s.now (shapes_of i.now) }
    requires first { IsPlaceOf i.now p }
    requires second { IsPlaceOf i.now q }
    ensures shared { IfSome result (ShareRegister i.now s.now p q) }
    ensures none { IfNone result ((at : Placement) → ShareRegister i.now s.now p q at → ⊥) }
{
    for register in REGISTERS {
        if let Some(found) = sharing_in(i, s, p, q, register) {
            return Some(found);
        }
    }
    None
}

/// An allowed placement in which both places use the register.
fn sharing_in(i: &Interface, s: &Shape, p: Place, q: Place, register: Reg) -> Option<Placement>
    requires interface { IsInterface i.now }
    requires shape { IsMember s.now (shapes_of i.now) }
    requires first { IsPlaceOf i.now p }
    requires second { IsPlaceOf i.now q }
    ensures shared { IfSome result (IsSharedIn i.now s.now p q register) }
    ensures none { IfNone result ((at : Placement) → IsSharedIn i.now s.now p q register at → ⊥) }
{
    if is_other(p, register) {
        return None;
    }
    if is_other(q, register) {
        return None;
    }
    let asked = Asked {
        register,
        first: operand_of(i, s, p),
        second: operand_of(i, s, q),
    };
    least_placement(i, s, &Goal::Use(asked))
}

/// Whether the two places use one register in some allowed placement, as `may_share` gives one.
pub fn can_share(i: &Interface, s: &Shape, p: Place, q: Place) -> bool
    requires interface { IsInterface i.now }
    requires shape { IsMember s.now (shapes_of i.now) }
    requires first { IsPlaceOf i.now p }
    requires second { IsPlaceOf i.now q }
    ensures { IsTrue result ↔ CanShare i.now s.now p q }
{
    for register in &REGISTERS {
        if can_share_in(i, s, p, q, *register) {
            return true;
        }
    }
    false
}

/// Whether both places use the register in some allowed placement.
fn can_share_in(i: &Interface, s: &Shape, p: Place, q: Place, register: Reg) -> bool
    requires interface { IsInterface i.now }
    requires shape { IsMember s.now (shapes_of i.now) }
    requires first { IsPlaceOf i.now p }
    requires second { IsPlaceOf i.now q }
    ensures { IsTrue result ↔ CanShareIn i.now s.now p q register }
{
    if is_other(p, register) {
        return false;
    }
    if is_other(q, register) {
        return false;
    }
    let asked = Asked {
        register,
        first: operand_of(i, s, p),
        second: operand_of(i, s, q),
    };
    has_placement(i, s, &Goal::Use(asked))
}

/// Whether the place is another register.
fn is_other(place: Place, register: Reg) -> bool
    ensures { result ≡ is_other place register }
{
    match place {
        Place::Reg(own) => own.number() != register.number(),
        Place::Operand(_) => false,
    }
}

/// The operand where the place is, if it is one.
fn operand_of(i: &Interface, s: &Shape, place: Place) -> Option<usize>
    ensures { result ≡ operand_of i.now s.now place }
{
    match place {
        Place::Reg(_) => None,
        Place::Operand(k) => Some(tie_root(i, s, k as usize)),
    }
}
