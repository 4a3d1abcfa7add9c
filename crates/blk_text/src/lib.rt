//! The text of a block that no rule on its text breaks: it is there under every allowed placement, and its
//! instructions are the block's. Definitions and proofs alone, for what is said of a block's runs.
#![tactic(auto)]
