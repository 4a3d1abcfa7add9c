//! What the search does with its memory.

ghost use Rattle.std.specs.Prelude.{◌≡◌, ℕ, ◌<◌, ◌≤◌, length, replicate, slice_index, true, false, MatchOption};
ghost use Rattle.dataflow.specs.Working.{row_in, is_pending, IsSameShape, IsBlank, Takes, Flows, FlowsAlong};

use crate::Work;

impl Work {
    /// The row of facts before a node; the end has the number behind the last node. A bit is set where facts that it
    /// stands for were found there.
    pub fn row(&self, node: usize) -> &[u64]
        requires { node ≤ length self.now.pending.items }
        ensures row { result.now ≡ row_in self.now node }
        ensures width { length result.now ≡ self.now.rows.width }
    {
        self.rows.row(node)
    }

    /// Takes all facts out of the rows.
    pub(crate) fn clear(&mut self)
        ensures shape { IsSameShape self.old self.new }
        ensures blank { IsBlank self.new }
        ensures next { self.new.next.items ≡ replicate (length self.old.next.items) 0 }
    {
        self.rows.clear();
        self.pending.fill(false);
        self.next.fill(0);
    }

    /// The first node that is to be visited.
    pub(crate) fn first_pending(&self) -> Option<usize>
        ensures { MatchOption result
            ((i : ℕ) → is_pending self.now i ≡ false)
            (λ at. (at < length self.now.pending.items) × (is_pending self.now at ≡ true)) }
    {
        self.pending.iter().position(|pending| *pending)
    }

    /// Takes a node out of those that are to be visited, and its row as the facts that are on the way.
    pub(crate) fn take(&mut self, at: usize)
        requires { at < length self.old.pending.items }
        ensures { Takes at self.old self.new }
    {
        self.pending[at] = false;
        self.next.copy_from_slice(self.rows.row(at));
    }

    /// Joins the facts that are on the way to the row of a node, which is to be visited if it grew.
    pub(crate) fn flow(&mut self, to: usize)
        requires { to ≤ length self.old.pending.items }
        ensures { Flows to self.old self.new }
    {
        if self.rows.join(to, &self.next) && to < self.pending.len() {
            self.pending[to] = true;
        }
    }

    /// Joins them to the rows where two ways go.
    pub(crate) fn flow_along(&mut self, goals: [usize; 2])
        requires first { slice_index goals 0 ≤ length self.old.pending.items }
        requires second { slice_index goals 1 ≤ length self.old.pending.items }
        ensures { FlowsAlong goals self.old self.new }
    {
        let [first, second] = goals;
        self.flow(first);
        if second == first {
            return;
        }
        self.flow(second);
    }
}
