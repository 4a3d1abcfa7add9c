//! What is printed of the statements of a file.
#![tactic(auto)]

mod patch_reports;
mod place;
mod places;
mod reports;

pub use patch_reports::{Answered, patch_report};
pub use place::Place;
pub use reports::{Judged, report};
