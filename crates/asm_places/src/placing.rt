ghost use Rattle.std.specs.Prelude.{◌≡◌, ℕ, ◌<◌, ◌≤◌, length, slice_get, unwrap_or, false, IsTrue, IfSome, IfNone};
ghost use Rattle.asm_core.specs.Lists.{IsMember};
ghost use Rattle.asm_core.specs.Shape.{shapes_of};
ghost use Rattle.asm_core.specs.Placement.{IsRoomy};
ghost use Rattle.asm_core.specs.Roomy.{IsLeastRoomy};
ghost use Rattle.asm_core.specs.WellFormed.{IsInterface};
ghost use Rattle.asm_core.specs.declared.placement.Placement.{Placement};
ghost use Rattle.register_search.specs.Assignment.{IsLeast};
ghost use Rattle.asm_places.specs.Operand.{operand_in};
ghost use Rattle.asm_places.specs.Placing.{IsPlacedBy, IsLeastPlaced, HasAssignmentFor, HasNoAssignment, left_in, choice_spot, memory_spot, lower_end, kind_spot, spot_for};

use crate::classes::classes_of;
use crate::goal::Goal;
use crate::operand::{ShapedOperand, operand_in, tie_root};
use asm_core::{Base, Form, Interface, Kind, Placement, Reg, Shape, Spot};
use register_search::{Class, has_assignment, settle};

/// The least roomy placement: operands in order, each in the first register with which one exists; None exactly where there is none.
///
/// A placement is roomy where no register serves two inputs that are not tied to one another. Memory operand k is at the number
/// 1048576 * (k + 1), a number is its known value or the least in range.
pub fn room(i: &Interface, s: &Shape) -> Option<Placement>
    requires interface { IsInterface i.now }
    requires shape { IsMember s.now (shapes_of i.now) }
    ensures least { IfSome result (IsLeastRoomy i.now s.now) }
    ensures none { IfNone result ((p : Placement) → IsRoomy i.now s.now p → ⊥) }
{
    least_placement(i, s, &Goal::Room)
}

/// The placement of the least assignment.
pub(crate) fn least_placement(i: &Interface, s: &Shape, goal: &Goal) -> Option<Placement>
    requires { length i.now.operands ≤ 30 }
    ensures placed { IfSome result (IsLeastPlaced i.now s.now goal.now) }
    ensures none { IfNone result (HasNoAssignment i.now s.now goal.now) }
{
    let mut classes = classes_of(i, s, goal);
    if !has_assignment(&classes) {
        return None;
    }
    settle(&mut classes);
    Some(placement_by(i, s, goal, &classes))
}

/// Whether the classes have an assignment.
pub(crate) fn has_placement(i: &Interface, s: &Shape, goal: &Goal) -> bool
    ensures some { IsTrue result → HasAssignmentFor i.now s.now goal.now }
    ensures none { result ≡ false → HasNoAssignment i.now s.now goal.now }
{
    has_assignment(&classes_of(i, s, goal))
}

fn placement_by(i: &Interface, s: &Shape, goal: &Goal, classes: &[Class]) -> Placement
    requires { length i.now.operands ≤ 30 }
    ensures { IsPlacedBy i.now s.now goal.now (left_in classes.now) result }
{
    let mut spots = [Spot::Number(0); 30];
    for k in 0..30 {
        let root = tie_root(i, s, k);
        spots[k] = spot_for(
            goal,
            root,
            operand_in(i, s, root),
            choice_left(classes, root),
        );
    }
    Placement {
        spots,
        count: i.operands.len() as u8,
    }
}

/// The choice that is left to class k.
fn choice_left(classes: &[Class], k: usize) -> usize
    ensures { result ≡ left_in classes.now k }
{
    match classes.get(k) {
        Some(class) => class.first_choice().unwrap_or(0),
        None => 0,
    }
}

fn spot_for(goal: &Goal, k: usize, operand: Option<ShapedOperand>, choice: usize) -> Spot
    requires { k < 256 }
    ensures { result ≡ spot_for goal.now k operand choice }
{
    let Some(operand) = operand else {
        return Spot::Number(0);
    };
    match operand.kind {
        Kind::Register => choice_spot(choice),
        Kind::Memory => memory_spot(k, goal.asked_of(k)),
        Kind::Number => Spot::Number(least_number(&operand)),
    }
}

/// The value where it is known, else the least in range.
fn least_number(operand: &ShapedOperand) -> i64
    ensures { result ≡ unwrap_or operand.now.known (lower_end operand.now.allowed.numbers) }
{
    match (operand.known, operand.allowed.numbers) {
        (Some(known), _) => known,
        (None, Some((lowest, _))) => lowest,
        (None, None) => 0,
    }
}

/// Memory at its own number, or at the register that it has to use.
fn memory_spot(k: usize, asked: Option<Reg>) -> Spot
    requires { k < 256 }
    ensures { result ≡ memory_spot k asked }
{
    Spot::Memory(match asked {
        Some(register) => Form {
            disp: 0,
            base: Some(Base::Reg(register)),
            index: None,
        },
        None => Form {
            disp: 1048576 * (k as i64 + 1),
            base: None,
            index: None,
        },
    })
}

fn choice_spot(choice: usize) -> Spot
    ensures { result ≡ choice_spot choice }
{
    match choice {
        0 => Spot::Register(Reg::Eax),
        1 => Spot::Register(Reg::Ebx),
        2 => Spot::Register(Reg::Ecx),
        3 => Spot::Register(Reg::Edx),
        4 => Spot::Register(Reg::Esi),
        5 => Spot::Register(Reg::Edi),
        6 => Spot::Register(Reg::Ebp),
        _ => Spot::Pair,
    }
}
