//! What a session is to be.

ghost use Rattle.std.specs.Prelude.{◌↔◌, IsTrue};

use log_dictionary::Clock;
use session_options::{MAX_BATCH, MAX_RING, MAX_SESSION_WORDS, MAX_WRITERS, MIN_RING};

/// What a session is told when it is opened, beside its messages.
#[derive(Clone, Copy, Debug, PartialEq, Eq)]
pub struct Setup {
    /// How many words each writer's ring has.
    pub ring: u64,
    pub writers: u32,
    /// The most calls of an extent of the log.
    pub batch: u32,
    /// The clock by which calls are stamped.
    pub clock: Clock,
}

impl Setup {
    ghost use Rattle.log_ends.specs.Openings.{IsSetupInRange};

    /// Whether each of its numbers is in its range.
    pub(crate) fn is_in_range(self) -> bool
        ensures { IsTrue result ↔ IsSetupInRange self }
    {
        self.ring >= MIN_RING
            && self.ring <= MAX_RING
            && self.writers >= 1
            && self.writers <= MAX_WRITERS
            && self.ring * u64::from(self.writers) <= MAX_SESSION_WORDS
            && self.batch >= 1
            && self.batch <= MAX_BATCH
            && self.clock.rate >= 1
    }
}
