//! Several logs of one run, one after another.

ghost use Rattle.std.specs.Prelude.{◌≡◌, ℕ, List, [], false, length};
ghost use Rattle.std.specs.List.{AllZip};
ghost use Rattle.roaming_consumer.specs.Parting.{IsStopped, IsAnew};
ghost use Rattle.roaming_consumer.specs.Roamers.{ends_of, roamer_progress, is_begun, is_faulted, ArePlanned, IsSameRun, KeepsLog, RoamerStandsFor};

use crate::part_out::PartOut;
use crate::roamer::Roamer;

/// Ends the part of each end.
fn end_each<S: PartOut>(ends: &mut [S])
    ensures held { AllZip (IsStopped S.got S.ended S.plan) ends.old ends.new }
    ensures ends { AllZip S.ends_part ends.old ends.new }
    ensures count { length ends.new ≡ length ends.old }
{
    for end in ends.iter_mut() {
        end.end_part();
    }
}

/// Begins a part of each end.
fn begin_each<S: PartOut>(ends: &mut [S])
    ensures anew { AllZip (IsAnew S.got S.plan) ends.old ends.new }
    ensures begins { AllZip S.begins_part ends.old ends.new }
    ensures count { length ends.new ≡ length ends.old }
{
    for end in ends.iter_mut() {
        end.begin_part();
    }
}

impl<'d, S> Roamer<'d, S> {
    /// The greatest stamp of a call that was to be written into the log, and 0 where there is none.
    pub fn latest(&self) -> u64
        ensures { result ≡ (roamer_progress self.now).latest }
    {
        self.latest
    }
}

impl<'d, S: PartOut> Roamer<'d, S> {
    /// Ends the part that is written: no frame is taken any more, and the visits that come write the close marks of the
    /// writers that have none.
    pub fn end_part(&mut self)
        ensures ends { AllZip S.ends_part (ends_of self.old) (ends_of self.new) }
        ensures same { KeepsLog self.old self.new }
        ensures stands { (wrote : List ℕ) → RoamerStandsFor S.got S.ended self.old wrote
            → RoamerStandsFor S.got S.ended self.new wrote }
        ensures planned { ArePlanned S.plan self.old → ArePlanned S.plan self.new }
    {
        end_each(&mut self.ends);
    }

    /// Begins a part: a log of its own, by the same clocks, of the frames that are taken from now on. Its header isn't
    /// written yet. It takes no memory.
    pub fn begin_part(&mut self)
        ensures ends { AllZip S.begins_part (ends_of self.old) (ends_of self.new) }
        ensures same_run { IsSameRun self.old self.new }
        ensures flags { (is_begun self.new ≡ false) × (is_faulted self.new ≡ false) }
        ensures stands { RoamerStandsFor S.got S.ended self.new [] }
        ensures planned { ArePlanned S.plan self.old → ArePlanned S.plan self.new }
    {
        begin_each(&mut self.ends);
        self.closed.fill(false);
        self.defined = 0;
        self.written = 1;
        self.latest = 0;
        self.begun = false;
        self.faulted = false;
    }
}
