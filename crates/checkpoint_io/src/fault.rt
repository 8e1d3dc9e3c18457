ghost use Rattle.std.specs.Prelude.{◌≡◌};
ghost use Rattle.checkpoint_io.specs.declared.fault.BlockFault.TheVariants as faults;

use crate::cause::Cause;
use std::alloc::AllocError;

/// Why no block was read.
#[derive(Clone, Copy, Debug, PartialEq, Eq)]
pub enum BlockFault {
    /// The file is broken there.
    Damaged(Cause),
    /// A read failed.
    ReadFault,
    NoMemory,
}

impl From<AllocError> for BlockFault {
    ghost from_gives = { λ _ fault. fault ≡ faults.NoMemory };

    fn from(_error: AllocError) -> BlockFault {
        BlockFault::NoMemory
    }
}
