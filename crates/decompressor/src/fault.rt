ghost use Rattle.std.specs.Prelude.{◌≡◌};
ghost use Rattle.decompressor.specs.declared.fault.DecodeFault.TheVariants.{WriteFault, NoMemory};

use checkpoint_io::Cause;
use nl_io::Failed;
use std::alloc::{AllocError, AllocFailed};
use thiserror::Error;

/// Why a log wasn't decompressed whole.
#[derive(Clone, Copy, Debug, PartialEq, Eq, Error)]
pub enum DecodeFault {
    /// The sink failed.
    #[error("write fault: the lines can't be written")]
    WriteFault,
    /// The file is no log from this offset on, from this cause.
    #[error("damaged: the file isn't a whole and right log")]
    Damaged { offset: u64, cause: Cause },
    /// A read failed.
    #[error("read fault: the log can't be read")]
    ReadFault,
    #[error("no memory")]
    NoMemory,
}

impl From<Failed> for DecodeFault {
    ghost from_gives = { λ _ fault. fault ≡ WriteFault };

    fn from(_failed: Failed) -> DecodeFault {
        DecodeFault::WriteFault
    }
}

impl From<AllocError> for DecodeFault {
    ghost from_gives = { λ _ fault. fault ≡ NoMemory };

    fn from(_error: AllocError) -> DecodeFault {
        DecodeFault::NoMemory
    }
}

impl<T: Drop> From<AllocFailed<T>> for DecodeFault {
    ghost from_gives = { λ _ fault. fault ≡ NoMemory };

    fn from(_error: AllocFailed<T>) -> DecodeFault {
        DecodeFault::NoMemory
    }
}
