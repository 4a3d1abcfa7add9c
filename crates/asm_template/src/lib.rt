//! The template of an asm statement: its pieces, as the assembler gets them (GCC manual, "Extended Asm").
#![tactic(auto)]

mod braces;
mod bytes;
pub mod comments;
mod cut;
mod expand_end;
mod expansion;
mod form;
mod neighbours;
mod operand;
mod printing;
mod scan_end;
mod template;

pub use expand_end::ExpandEnd;
pub use expansion::{Expanded, expand, piece_codes};
pub use scan_end::ScanEnd;
pub use template::{Scanned, pieces, scan};
