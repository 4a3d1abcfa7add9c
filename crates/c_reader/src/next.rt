//! One turn of a repetition.

/// What one turn of a repetition over tokens gives.
#[derive(Drop)]
pub enum Next<S, R> {
    /// The repetition has ended with this result.
    Done(R),
    /// It goes on from this state, at the token with this index.
    More(S, usize),
}
