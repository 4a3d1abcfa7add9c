ghost use Rattle.std.specs.Prelude.{◌≡◌, ◌<◌, ◌≤◌, length, slice_get};
ghost use Rattle.asm_core.specs.Reg.{reg_number};
ghost use Rattle.asm_core.specs.Placement.{tie_root, is_input, is_output};
ghost use Rattle.asm_places.specs.Operand.{operand_in, holds_input, is_input_to, has_register, takes};

use asm_core::{AltIface, Interface, Kind, OperandIface, Reg, RegSet, Role, Shape};
use bitflags::Flags;
use register_search::PAIR;

/// An operand in a shape: what the shape's alternative allows it, and its kind.
#[derive(Clone, Copy, Debug)]
pub(crate) struct ShapedOperand {
    pub role: Role,
    pub known: Option<i64>,
    pub allowed: AltIface,
    pub kind: Kind,
}

/// Operand k in the shape.
pub(crate) fn operand_in(i: &Interface, s: &Shape, k: usize) -> Option<ShapedOperand>
    ensures { result ≡ operand_in i.now s.now k }
{
    let operand = i.operands.get(k)?;
    let allowed = allowed_by(operand, s)?;
    let kind = kind_at(s, k)?;
    Some(ShapedOperand {
        role: operand.role,
        known: operand.known,
        allowed,
        kind,
    })
}

pub(crate) fn allowed_by(operand: &OperandIface, s: &Shape) -> Option<AltIface>
    ensures { result ≡ slice_get operand.now.alts s.now.alternative }
{
    operand.alts.get(s.alternative as usize).copied()
}

pub(crate) fn kind_at(s: &Shape, k: usize) -> Option<Kind>
    ensures { result ≡ slice_get s.now.kinds k }
{
    s.kinds.as_slice().get(k).copied()
}

/// The output that operand k is tied to in the shape's alternative, else k itself.
pub(crate) fn tie_root(i: &Interface, s: &Shape, k: usize) -> usize
    ensures is { result ≡ tie_root i.now s.now k }
    ensures below { k < 256 → result < 256 }
{
    let Some(operand) = i.operands.get(k) else {
        return k;
    };
    match allowed_by(operand, s) {
        Some(
            AltIface {
                tied: Some(output),
                ..
            },
        ) => output as usize,
        _ => k,
    }
}

pub(crate) fn is_output(role: Role) -> bool
    ensures { result ≡ is_output role }
{
    matches!(role, Role::Out | Role::InOut)
}

fn is_input(role: Role) -> bool
    ensures { result ≡ is_input role }
{
    matches!(role, Role::In | Role::InOut)
}

/// Whether operand k is an input, or one is tied to it.
pub(crate) fn holds_input(i: &Interface, s: &Shape, k: usize) -> bool
    ensures { result ≡ holds_input i.now s.now k }
{
    for t in 0..i.operands.len() {
        if is_input_to(i, s, t, k) {
            return true;
        }
    }
    false
}

/// Whether operand t is an input, and is k or tied to k.
fn is_input_to(i: &Interface, s: &Shape, t: usize, k: usize) -> bool
    ensures { result ≡ is_input_to i.now s.now k t }
{
    match i.operands.get(t) {
        Some(operand) => is_input(operand.role) && tie_root(i, s, t) == k,
        None => false,
    }
}

/// Whether the register of that number is in the set.
pub(crate) fn has_register(set: RegSet, number: usize) -> bool
    requires { number < 8 }
    ensures { result ≡ has_register set number }
{
    (set.bits() >> number) & 1 == 1
}

/// Whether the choice takes the register.
pub(crate) fn takes(choice: usize, register: Reg) -> bool
    ensures { result ≡ takes choice register }
{
    choice == register.number() || (choice == PAIR && matches!(register, Reg::Eax | Reg::Edx))
}
