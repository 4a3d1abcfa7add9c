//! Whole runs of asmck over files and an output in memory, with expected lines worked out by hand.
#![tactic(auto)]

#[cfg(test)]
mod runs;
#[cfg(test)]
mod tests;
