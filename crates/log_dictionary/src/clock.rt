//! The clock of a trace.

ghost use Rattle.std.specs.Prelude.{◌≡◌, ◌≤◌, [], ◌∷◌};
ghost use Rattle.log_dictionary.specs.Times.{Time};

/// A clock that counts ticks: at the tick `tick` it was `nanos` nanoseconds since 1970, and it has
/// `rate` ticks a second.
#[derive(Clone, Copy, Debug, PartialEq, Eq)]
pub struct Clock {
    pub tick: u64,
    pub nanos: u64,
    pub rate: u64,
}

impl Clock {
    /// The nanoseconds since 1970 at a stamp, which is a count of ticks. A part of a nanosecond is
    /// left out.
    pub fn time(&self, stamp: u64) -> u128
        requires not_before { self.now.tick ≤ stamp }
        requires rate { 1 ≤ self.now.rate }
        ensures { result ≡ Time (self.now ∷ []) stamp }
    {
        let ticks = u128::from(stamp - self.tick);
        u128::from(self.nanos) + ticks * 1_000_000_000 / u128::from(self.rate)
    }
}
