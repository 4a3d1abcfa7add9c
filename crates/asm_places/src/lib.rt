//! Where a compiler may put the operands of an asm statement: the shapes of its interface, and for a shape a placement in which every operand
//! has room, or one in which two places share a register (GCC manual, "Constraints"; what is allowed is this project's reading of it).
#![tactic(auto)]

mod classes;
mod company;
mod goal;
mod listing;
mod operand;
mod places;
mod placing;
mod sharing;

pub use company::{same_in_register, same_of_operand};
pub use listing::{ShapesEnd, shapes};
pub use places::all_places;
pub use placing::room;
pub use sharing::{can_share, may_share};
