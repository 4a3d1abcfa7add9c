//! What an operand is under a shape.

ghost use Rattle.std.specs.Prelude.{◌≡◌, slice_get};
ghost use Rattle.asm_core.specs.Placement.{tie_root, is_output, is_input};
ghost use Rattle.blk_deps.specs.Cells.{place_number};
ghost use Rattle.blk_deps.specs.Operands.{in_register, in_memory, is_output_at, is_input_at, is_root, size_at};

use asm_core::{AltIface, Interface, Kind, OperandIface, Place, Role, Shape};

/// The number of a place.
pub(crate) fn place_number(place: Place) -> usize
    ensures { result ≡ place_number place }
{
    match place {
        Place::Reg(register) => register.number(),
        Place::Operand(k) => 7 + k as usize,
    }
}

fn kind_at(shape: &Shape, k: usize) -> Option<Kind>
    ensures { result ≡ slice_get shape.now.kinds k }
{
    shape.kinds.as_slice().get(k).copied()
}

/// Whether operand k is in a register.
pub(crate) fn in_register(shape: &Shape, k: usize) -> bool
    ensures { result ≡ in_register shape.now k }
{
    matches!(kind_at(shape, k), Some(Kind::Register))
}

/// Whether operand k is in memory.
pub(crate) fn in_memory(shape: &Shape, k: usize) -> bool
    ensures { result ≡ in_memory shape.now k }
{
    matches!(kind_at(shape, k), Some(Kind::Memory))
}

pub(crate) fn is_output(role: Role) -> bool
    ensures { result ≡ is_output role }
{
    matches!(role, Role::Out | Role::InOut)
}

pub(crate) fn is_input(role: Role) -> bool
    ensures { result ≡ is_input role }
{
    matches!(role, Role::In | Role::InOut)
}

/// Whether operand k is an output.
pub(crate) fn is_output_at(interface: &Interface, k: usize) -> bool
    ensures { result ≡ is_output_at interface.now k }
{
    match interface.operands.get(k) {
        Some(operand) => is_output(operand.role),
        None => false,
    }
}

/// Whether operand k is an input.
pub(crate) fn is_input_at(interface: &Interface, k: usize) -> bool
    ensures { result ≡ is_input_at interface.now k }
{
    match interface.operands.get(k) {
        Some(operand) => is_input(operand.role),
        None => false,
    }
}

/// The size of operand k, in bytes.
pub(crate) fn size_at(interface: &Interface, k: usize) -> u32
    ensures { result ≡ size_at interface.now k }
{
    match interface.operands.get(k) {
        Some(operand) => operand.size,
        None => 0,
    }
}

/// What the shape's alternative allows the operand.
fn allowed_by(operand: &OperandIface, shape: &Shape) -> Option<AltIface>
    ensures { result ≡ slice_get operand.now.alts shape.now.alternative }
{
    operand.alts.get(shape.alternative as usize).copied()
}

/// The output that operand k is tied to in the shape's alternative, else k itself.
pub(crate) fn tie_root(interface: &Interface, shape: &Shape, k: usize) -> usize
    ensures { result ≡ tie_root interface.now shape.now k }
{
    let Some(operand) = interface.operands.get(k) else {
        return k;
    };
    match allowed_by(operand, shape) {
        Some(
            AltIface {
                tied: Some(output),
                ..
            },
        ) => output as usize,
        _ => k,
    }
}

/// Whether operand k isn't tied to another.
pub(crate) fn is_root(interface: &Interface, shape: &Shape, k: usize) -> bool
    ensures { result ≡ is_root interface.now shape.now k }
{
    tie_root(interface, shape, k) == k
}
