//! The rows of facts of all nodes.

ghost use Rattle.std.specs.Prelude.{◌≡◌, ℕ, ◌+◌, ◌*◌, ◌<◌, ◌≤◌, length, replicate, bit_or, IfOk};
ghost use Rattle.dataflow.specs.Bits.{row_of};
ghost use Rattle.dataflow.specs.Joining.{Joins, JoinsRow};

use crate::Memory;
use std::alloc::Global;

/// Rows of `width` words, one behind the other: a bit is a fact.
#[derive(Drop)]
pub(crate) struct Rows {
    width: usize,
    words: Vec<u64>,
}

impl Rows {
    /// So many rows with no fact.
    ///
    /// # Errors
    /// Want of memory.
    pub(crate) fn blank(alloc: Global, count: usize, width: usize) -> Result<Rows, Memory>
        ensures width { IfOk result (λ rows. rows.width ≡ width) }
        ensures words { IfOk result (λ rows. rows.words.items ≡ replicate (count * width) 0) }
    {
        let Some(words) = count.checked_mul(width) else {
            return Err(Memory);
        };
        let words = vec![in alloc; 0; words]?;
        Ok(Rows { width, words })
    }

    /// A row.
    pub(crate) fn row(&self, at: usize) -> &[u64]
        requires { at * self.now.width + self.now.width ≤ length self.now.words.items }
        ensures { result.now ≡ row_of self.now.width self.now.words.items at }
    {
        let start = at * self.width;
        &self.words[start..start + self.width]
    }

    /// Takes all facts out.
    pub(crate) fn clear(&mut self)
        ensures words { self.new.words.items ≡ replicate (length self.old.words.items) 0 }
        ensures width { self.new.width ≡ self.old.width }
    {
        self.words.fill(0);
    }

    /// Puts these facts to those of a row, and tells whether it had not had all of them.
    pub(crate) fn join(&mut self, at: usize, more: &[u64]) -> bool
        requires inside { at * self.old.width + self.old.width ≤ length self.old.words.items }
        requires width { length more.now ≡ self.old.width }
        ensures width { self.new.width ≡ self.old.width }
        ensures words { JoinsRow self.old.width at more.now result self.old.words.items self.new.words.items }
    {
        let start = at * self.width;
        join(&mut self.words[start..start + self.width], more)
    }
}

/// Puts these facts to those of the row, and tells whether it had not had all of them.
fn join(row: &mut [u64], more: &[u64]) -> bool
    requires { length more.now ≡ length row.old }
    ensures { Joins more.now result row.old row.new }
{
    let mut grew = false;
    for i in 0..row.len() {
        let joined = joined(row[i], more[i]);
        grew |= joined != row[i];
        row[i] = joined;
    }
    grew
}

/// The facts of both words.
#[inline]
fn joined(old: u64, more: u64) -> u64
    ensures { result ≡ bit_or old more }
{
    old | more
}
