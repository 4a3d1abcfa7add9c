ghost use Rattle.std.specs.Prelude.{◌≡◌, ℕ, ◌<◌, ◌≤◌, List, [], ◌∷◌, length, replicate, Bool};
ghost use Rattle.dataflow.specs.Bits.{facts_in};
ghost use Rattle.dataflow.specs.Cause.{HasOneCause};

/// A graph of nodes with what each node makes of the facts before it. Nodes have the numbers below `size`, and `size`
/// is the end; paths begin at node 0. A fact is a bit of a row of words: bit n % 64 of word n / 64, where n is its
/// number. Several facts may be one bit, and a fact past the row is never there.
pub trait Block {
    /// What is followed along the paths. No value of it need ever be made.
    type Fact;

    /// Memory that `apply` may use as it likes.
    type Scratch;

    /// What the methods ask of the block.
    ghost IsBlock: { Self → Type 0 };

    /// What `apply` asks of the scratch memory, as its sizes; what the memory holds is of no account.
    ghost IsScratch: { Self → Self.Scratch → Type 0 };

    /// The bit of a fact in a row.
    ghost number: { Self → Self.Fact → ℕ };

    /// How many nodes there are.
    ghost size: { Self → ℕ };

    /// How many words a row has.
    ghost width: { Self → ℕ };

    /// Where a way goes from a node: each node has two, numbered 0 and 1, which may go to the same node.
    ghost goes: { Self → ℕ → ℕ → ℕ };

    /// The facts where all paths begin, before node 0.
    ghost start: { Self → Self.Fact → Bool };

    /// What a node makes of the facts before it.
    ghost after: { Self → ℕ → (Self.Fact → Bool) → Self.Fact → Bool };

    /// How many nodes there are.
    fn size(&self) -> usize
        requires { IsBlock self.now }
        ensures { result ≡ size self.now };

    /// How many words a row has.
    fn width(&self) -> usize
        requires { IsBlock self.now }
        ensures { result ≡ width self.now };

    /// Where the two ways of a node go.
    fn goals(&self, at: usize) -> [usize; 2]
        requires block { IsBlock self.now }
        requires node { at < size self.now }
        ensures goals { result ≡ goes self.now at 0 ∷ goes self.now at 1 ∷ [] }
        ensures first { goes self.now at 0 ≤ size self.now }
        ensures second { goes self.now at 1 ≤ size self.now };

    /// Puts the facts of the start into a row that has none.
    fn begin(&self, row: &mut [u64])
        requires block { IsBlock self.now }
        requires blank { row.old ≡ replicate (width self.now) 0 }
        ensures { (fact : Self.Fact) → facts_in row.new (number self.now fact) ≡ start self.now fact };

    /// Makes of the facts before a node, which the row holds, those after it.
    fn apply(&self, at: usize, scratch: &mut Self::Scratch, row: &mut [u64])
        requires block { IsBlock self.now }
        requires node { at < size self.now }
        requires row { length row.old ≡ width self.now }
        requires scratch { IsScratch self.now scratch.old }
        ensures facts { (fact : Self.Fact)
            → facts_in row.new (number self.now fact)
            ≡ after self.now at (λ one. facts_in row.old (number self.now one)) fact }
        ensures scratch { IsScratch self.now scratch.new };

    /// Each fact after a node comes from one fact before it.
    ghost one_cause: { (block : Self) (at : ℕ) → HasOneCause (after block at) };
}
