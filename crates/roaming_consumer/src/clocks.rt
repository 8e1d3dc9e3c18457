//! The clocks of a log behind that of its header.

ghost use Rattle.std.specs.Prelude.{◌≡◌, ◌↔◌, ◌≤◌, ℕ, List, length, All, Err, OnOk, OnErr, IsTrue};
ghost use Rattle.checkpoint_io.specs.declared.heads.TheConstants.{CLOCK_LEN};
ghost use Rattle.roaming_consumer.specs.Growth.{due_clocks, clocks_bytes};
ghost use Rattle.roaming_consumer.specs.Sinks.{Sends};
ghost use Rattle.roaming_consumer.specs.Roamers.{ends_of, roamer_clocks, roamer_progress, is_begun, ArePlanned, RoamerStandsFor, MayTakeClock, AddsClock};

use crate::roamer::Roamer;
use checkpoint_io::{CLOCK_LEN, has_clocks, put_clock};
use log_dictionary::Clock;
use nl_io::{Failed, Sink, write_all};
use ring_core::StageOut;

/// Why a clock wasn't taken: the first of these that holds.
#[derive(Clone, Copy, Debug, PartialEq, Eq)]
pub enum ClockRefusal {
    /// It may not follow the clocks that were told: the log has one clock alone, there are 256, its tick isn't above that
    /// of the last one, or its rate is 0.
    Misfit,
    /// A call was taken whose stamp has reached its tick.
    Reached,
}

/// Writes clocks, one behind the other.
pub(crate) fn write_clocks<K: Sink>(clocks: &[Clock], sink: &mut K) -> Result<(), Failed>
    requires rates { All (λ clock. 1 ≤ clock.rate) clocks.now }
    ensures sent { Sends result (clocks_bytes clocks.now)
        (K.put sink.old) (K.put sink.new) (K.faults sink.old) (K.faults sink.new) }
    ensures others { K.rest sink.old sink.new }
{
    let mut buffer = [0; CLOCK_LEN];
    for clock in clocks {
        put_clock(clock, &mut buffer);
        write_all(sink, &buffer)?;
    }
    Ok(())
}

impl<'d, S> Roamer<'d, S> {
    /// The clocks that a stamp has reached and that aren't written.
    pub(crate) fn due(&self, stamp: u64) -> &[Clock]
        ensures value { result.now ≡ due_clocks (roamer_clocks self.now) (roamer_progress self.now).written stamp }
        ensures rates { All (λ clock. 1 ≤ clock.rate) result.now }
    {
        let end = self.clocks.reached(stamp).max(self.written);
        &self.clocks.as_slice()[self.written..end]
    }

    /// Whether a clock may follow those that were told.
    pub fn may_take(&self, clock: &Clock) -> bool
        ensures { IsTrue result ↔ MayTakeClock self.now clock.now }
    {
        has_clocks(self.version) && self.clocks.check(clock).is_ok()
    }
}

impl<'d, S: StageOut> Roamer<'d, S> {
    /// Takes a further clock, by which stamps from its tick on are read. It is written in front of the first extent that
    /// has a record with such a stamp. It takes no memory.
    ///
    /// # Errors
    ///
    /// Why the clock wasn't taken. The roamer is as it was.
    pub fn add_clock(&mut self, clock: Clock) -> Result<(), ClockRefusal>
        ensures ok { OnOk result (AddsClock self.old clock self.new) }
        ensures err { OnErr result (self.new ≡ self.old) }
        ensures misfit { (result ≡ Err ClockRefusal.Misfit) ↔ (¬ (MayTakeClock self.old clock)) }
        ensures reached { (result ≡ Err ClockRefusal.Reached)
            ↔ (MayTakeClock self.old clock × (clock.tick ≤ (roamer_progress self.old).latest)) }
        ensures stands { (wrote : List ℕ) → RoamerStandsFor S.got S.ended self.old wrote
            → RoamerStandsFor S.got S.ended self.new wrote }
        ensures planned { ArePlanned S.plan self.old → ArePlanned S.plan self.new }
        ensures same_begun { is_begun self.new ≡ is_begun self.old }
        ensures same_ends { ends_of self.new ≡ ends_of self.old }
    {
        if !self.may_take(&clock) {
            return Err(ClockRefusal::Misfit);
        }
        if clock.tick <= self.latest {
            return Err(ClockRefusal::Reached);
        }
        let _added = self.clocks.add(clock);
        Ok(())
    }
}
