//! Why a text has no tokens.

ghost use Rattle.std.specs.Prelude.{◌≡◌};
ghost use Rattle.c_tokens.specs.declared.token_end.TokenEnd.TheVariants.{Memory};

use std::alloc::{AllocError, AllocFailed};
use thiserror::Error;

/// Why a text has no tokens. Offsets are bytes from the text's beginning.
#[derive(Clone, Copy, Debug, PartialEq, Eq, Error)]
pub enum TokenEnd {
    /// The literal that begins here, with its prefix, meets a newline that no backslash takes, or the end.
    #[error("open string at {0}")]
    OpenString(u32),
    /// The comment that begins here has no `*/`.
    #[error("open comment at {0}")]
    OpenComment(u32),
    /// The byte here begins no token and is no white space.
    #[error("bad byte at {0}")]
    BadByte(u32),
    /// The bracket here closes none, or another kind than the innermost open one, or is the first that stays open.
    #[error("unbalanced bracket at {0}")]
    Unbalanced(u32),
    #[error("out of memory")]
    Memory,
}

impl From<AllocError> for TokenEnd {
    ghost from_gives = { λ _ e. e ≡ Memory };

    fn from(_: AllocError) -> TokenEnd {
        TokenEnd::Memory
    }
}

impl<T: Drop> From<AllocFailed<T>> for TokenEnd {
    ghost from_gives = { λ _ e. e ≡ Memory };

    fn from(_: AllocFailed<T>) -> TokenEnd {
        TokenEnd::Memory
    }
}
