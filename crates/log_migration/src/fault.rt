ghost use Rattle.std.specs.Prelude.{◌≡◌};
ghost use Rattle.log_migration.specs.declared.fault.MigrateFault.TheVariants as faults;

use checkpoint_io::Cause;
use std::alloc::AllocError;

/// Why there is no log of version 2.
#[derive(Clone, Copy, Debug, PartialEq, Eq)]
pub enum MigrateFault {
    /// A read failed.
    ReadFault,
    /// The file is no log from this offset on, from this cause.
    Damaged { offset: u64, cause: Cause },
    /// The log is of version 2.
    NotOne,
    /// The log of version 2 would have more bytes than are read of one.
    TooLarge,
    NoMemory,
}

impl From<AllocError> for MigrateFault {
    ghost from_gives = { λ _ fault. fault ≡ faults.NoMemory };

    fn from(_error: AllocError) -> MigrateFault {
        MigrateFault::NoMemory
    }
}
