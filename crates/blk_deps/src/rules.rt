//! Which rules an instruction breaks, and which ones the end, on a path that shows certain facts.

mod accesses;
mod bits;
mod breaking;
mod ends;
mod names;
mod results;
mod scene;
mod text;
mod uses;

pub use breaking::{breaks_at_end, breaks_at_line};
pub use names::PlaceNames;
pub use results::collect_end_uses;
pub use scene::{AtLine, Scene};
pub use text::breaks_u2;
pub use uses::Uses;
