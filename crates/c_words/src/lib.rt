//! What each token of a preprocessed C file is to the grammar of declarations, statements and expressions (C11 6.7 to 6.9, and GNU C's spellings).
#![tactic(auto)]

mod pragma;
mod punct;
mod source;
mod spelling;
mod token_word;
mod word;

pub use punct::Punct;
pub use source::Source;
pub use word::{Basic, TagWord, Word};
