//! Whether the compiler has room for the operands.

ghost use Rattle.std.specs.Prelude.{◌≡◌, ◌↔◌, ℕ, Some, IsTrue, All, IfSome, IfNone, slice_get};
ghost use Rattle.std.specs.Borrow.{Bor};
ghost use Rattle.asm_core.specs.Lists.{IsMember};
ghost use Rattle.asm_core.specs.Shape.{shapes_of};
ghost use Rattle.asm_core.specs.WellFormed.{IsInterface};
ghost use Rattle.asm_core.specs.declared.shape.Shape.{Shape};
ghost use Rattle.blk_check.specs.Judged.{HasRoom, AnyHasRoom, IsFirstRoomy};

use asm_core::{Interface, Shape};
use asm_places::room;

/// Whether some of the interface's shapes has a roomy placement.
pub fn any_has_room(interface: &Interface, shapes: &[Shape]) -> bool
    requires interface { IsInterface interface.now }
    requires shapes { shapes.now ≡ shapes_of interface.now }
    ensures { IsTrue result ↔ AnyHasRoom interface.now shapes.now }
{
    for shape in shapes {
        if has_room(interface, shape) {
            return true;
        }
    }
    false
}

/// Whether the shape has a roomy placement.
fn has_room(interface: &Interface, shape: &Shape) -> bool
    requires interface { IsInterface interface.now }
    requires shape { IsMember shape.now (shapes_of interface.now) }
    ensures { IsTrue result ↔ HasRoom interface.now shape.now }
{
    room(interface, shape).is_some()
}

/// The first of these shapes that has a roomy placement, with its number, if any has one.
pub fn first_roomy<'a>(interface: &Interface, shapes: &'a [Shape]) -> Option<(usize, &'a Shape)>
    requires interface { IsInterface interface.now }
    requires shapes { All (λ (s : Shape). IsMember s (shapes_of interface.now)) shapes.now }
    ensures none { IfNone result (AnyHasRoom interface.now shapes.now → ⊥) }
    ensures some { IfSome result (λ (x : ℕ × Bor Shape). (slice_get shapes.now x.0 ≡ Some x.1.now) × IsFirstRoomy interface.now shapes.now x.1.now) }
{
    for (k, shape) in shapes.iter().enumerate() {
        if has_room(interface, shape) {
            return Some((k, shape));
        }
    }
    None
}
