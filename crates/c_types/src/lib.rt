//! Types of C as they lie in memory on i386: how many bytes each takes, at which multiples it lies, and where the members of structs and unions are.
//!
//! Sizes and alignments are those of the System V ABI for i386, in bytes.
#![tactic(auto)]

mod ctype;
mod extent;
mod members;
mod tag;

pub use ctype::{CType, MOST_LAYERS};
pub use extent::{Extent, LARGEST_SIZE, align_of, extent_of, size_of};
pub use members::{last_extent_of, layout};
pub use tag::{Layout, NO_BODY, Tag, Tags};
