//! What the facts of paths say of runs: the way from the rules that a block keeps to what a run of it leaves as it was.
#![tactic(auto)]

mod facts;

pub use facts::facts_hold;
