//! Which registers classes can take: each class has a set of choices, and must be apart from the classes of its rivals.
//!
//! There are seven registers, numbered from 0. A choice is one register, or the pair of registers 0 and 3. An assignment gives each class one
//! of its choices, so that rivals have no register in common.
#![tactic(auto)]

mod class;
mod search;
mod settling;
mod table;

pub use class::{CHOICES, Class, Group, PAIR};
pub use search::has_assignment;
pub use settling::settle;
