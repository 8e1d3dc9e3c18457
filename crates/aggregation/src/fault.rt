ghost use Rattle.std.specs.Prelude.{◌≡◌};
ghost use Rattle.aggregation.specs.declared.fault.AggregateFault.TheVariants.{NoMemory};

use crate::totals::Totals;
use checkpoint_io::Cause;
use std::alloc::AllocError;

/// Why there are no totals of an argument over a whole log.
#[derive(Clone, Copy, Debug, PartialEq, Eq)]
pub enum AggregateFault {
    /// A read failed.
    ReadFault,
    /// The file is no log from this offset on, from this cause. The whole blocks in front have these totals, where they
    /// define such an argument.
    Damaged {
        offset: u64,
        cause: Cause,
        front: Option<Totals>,
    },
    /// The log defines no message with this id.
    NoSuchMessage,
    /// The message has no argument there, or one that is a text.
    NoSuchArgument,
    NoMemory,
}

impl From<AllocError> for AggregateFault {
    ghost from_gives = { λ _ fault. fault ≡ NoMemory };

    fn from(_error: AllocError) -> AggregateFault {
        AggregateFault::NoMemory
    }
}
