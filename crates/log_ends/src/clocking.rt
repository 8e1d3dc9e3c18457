//! Telling a consumer a further clock.

ghost use Rattle.log_ends.specs.Clocking.{TakesClock};

use crate::consumer::ConsumerEnd;
use log_dictionary::Clock;
use roaming_consumer::ClockRefusal;

impl ConsumerEnd {
    /// Takes a further clock, by which stamps from its tick on are read.
    ///
    /// # Errors
    ///
    /// Why the clock wasn't taken. The consumer is as it was.
    pub fn take_clock(&mut self, clock: Clock) -> Result<(), ClockRefusal>
        ensures { TakesClock self.old clock result self.new }
    {
        if clock.tick <= self.earlier && self.roamer.may_take(&clock) {
            return Err(ClockRefusal::Reached);
        }
        self.roamer.add_clock(clock)
    }
}
