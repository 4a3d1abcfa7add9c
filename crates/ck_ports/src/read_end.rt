ghost use Rattle.std.specs.Prelude.{◌≡◌};
ghost use Rattle.ck_ports.specs.declared.read_end.ReadEnd.TheVariants.{Memory};
ghost use Rattle.ck_ports.specs.ReadEnd.{read_end_of};

use crate::PortEnd;
use std::alloc::AllocError;
use thiserror::Error;

/// Why a file was not read.
#[derive(Clone, Copy, Debug, PartialEq, Eq, Error)]
pub enum ReadEnd {
    /// The outside refused, and counted a fault.
    #[error("the file cannot be read")]
    Failed,
    /// The file has more than `MAX_FILE_BYTES` bytes.
    #[error("the file is too large")]
    TooLarge,
    #[error("out of memory")]
    Memory,
}

impl From<PortEnd> for ReadEnd {
    ghost from_gives = { λ end e. e ≡ read_end_of end };

    fn from(end: PortEnd) -> Self {
        match end {
            PortEnd::Failed => ReadEnd::Failed,
            PortEnd::Memory => ReadEnd::Memory,
        }
    }
}

impl From<AllocError> for ReadEnd {
    ghost from_gives = { λ _ e. e ≡ Memory };

    fn from(_: AllocError) -> Self {
        ReadEnd::Memory
    }
}
