//! What may break a rule.

use asm_core::{Cell, Rule};

/// A rule with the two cells that a report names.
#[derive(Clone, Copy, Debug, PartialEq, Eq)]
pub struct Violation {
    pub rule: Rule,
    pub cell: Cell,
    pub other: Cell,
}
