ghost use Rattle.std.specs.Prelude.{◌≡◌, ◌+◌, ◌*◌, length};

use crate::rows::Rows;

/// The memory that `solve` works in, and after it what was found: a row of facts for each node, and one for the end.
#[derive(Drop)]
pub struct Work {
    pub(crate) rows: Rows,
    /// Which nodes are to be visited.
    pub(crate) pending: Vec<bool>,
    /// The facts that are on the way.
    pub(crate) next: Vec<u64>,
    ghost rows_of_all: { length rows.words.items ≡ (length pending.items + 1) * rows.width },
    ghost next_is_row: { length next.items ≡ rows.width },
}
