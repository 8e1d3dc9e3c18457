//! The body of an extent while it is made.

ghost use Rattle.std.specs.Prelude.{◌≡◌, ◌+◌, ◌<◌, max};
ghost use Rattle.log_dictionary.specs.declared.dictionary.TheConstants.{MAX_MESSAGES};

use log_dictionary::MAX_MESSAGES;

/// What is known of the records that stand in the front of a body.
#[derive(Clone, Copy)]
pub(crate) struct Draft {
    /// How many there are.
    pub records: u32,
    /// How many bytes they take.
    pub len: usize,
    /// One more than the greatest of their ids, and 0 where there is none.
    pub ids: u32,
    /// The stamp of the last of them, from which the next step counts.
    pub last: u64,
}

/// The greater of a count and one more than an id.
pub(crate) fn counted(count: u32, id: u32) -> u32
    requires { id < MAX_MESSAGES }
    ensures { result ≡ max count (id + 1) }
{
    if count <= id { id + 1 } else { count }
}

impl Draft {
    /// No records. The first step counts from the tick.
    pub(crate) fn none(tick: u64) -> Draft
        ensures { result ≡ record { records = 0; len = 0; ids = 0; last = tick } }
    {
        Draft {
            records: 0,
            len: 0,
            ids: 0,
            last: tick,
        }
    }
}
