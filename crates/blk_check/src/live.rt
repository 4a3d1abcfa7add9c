//! The shapes that have an allowed placement.

ghost use Rattle.std.specs.Prelude.{◌≡◌, ◌↔◌, IsTrue, All, IfOk};
ghost use Rattle.asm_core.specs.Lists.{IsMember};
ghost use Rattle.asm_core.specs.Shape.{IsLive, shapes_of};
ghost use Rattle.asm_core.specs.WellFormed.{IsInterface};
ghost use Rattle.blk_check.specs.Readable.{AreLive};

use asm_core::{Duplicate, Interface, Items, Memory, Place, Reg, Shape};
use asm_places::can_share;
use std::alloc::Global;

/// Any one place, which shares its register with itself wherever a placement is allowed.
const SOME_PLACE: Place = Place::Reg(Reg::Eax);

/// Whether the shape has an allowed placement.
#[tactic(auto, using(crate::proofs::LiveLaws::answered))]
fn is_live(interface: &Interface, shape: &Shape) -> bool
    requires interface { IsInterface interface.now }
    requires shape { IsMember shape.now (shapes_of interface.now) }
    ensures { IsTrue result ↔ IsLive interface.now shape.now }
{
    can_share(interface, shape, SOME_PLACE, SOME_PLACE)
}

/// The shapes that have an allowed placement, in their order.
pub fn live_shapes(
    alloc: Global,
    interface: &Interface,
    shapes: &[Shape],
) -> Result<Items<Shape>, Memory>
    requires interface { IsInterface interface.now }
    requires shapes { shapes.now ≡ shapes_of interface.now }
    ensures are { IfOk result (AreLive interface.now shapes.now) }
    ensures members { IfOk result (All (λ (s : Shape). IsMember s (shapes_of interface.now))) }
{
    live_among(alloc, interface, shapes)
}

fn live_among(
    alloc: Global,
    interface: &Interface,
    shapes: &[Shape],
) -> Result<Items<Shape>, Memory>
    requires interface { IsInterface interface.now }
    requires shapes { shapes.now ≡ shapes_of interface.now }
    ensures { IfOk result (AreLive interface.now shapes.now) }
{
    let mut live = Items::new(alloc);
    for shape in shapes {
        if !is_live(interface, shape) {
            continue;
        }
        live.push(shape.duplicate(alloc)?)?;
    }
    Ok(live)
}
