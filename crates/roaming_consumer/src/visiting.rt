//! Visits.

ghost use Rattle.std.specs.Prelude.{◌≡◌, ◌⊎◌, ◌<◌, ◌≤◌, ◌+◌, true, false, length, slice_get, Some, Ok, IfOk, IsErr, OnOk, OnErr};
ghost use Rattle.nl_io.specs.Count.{Rose};
ghost use Rattle.nl_io.specs.Content.{Told};
ghost use Rattle.roaming_consumer.specs.Roamers.{ends_of, roamer_batch, is_begun, is_faulted, is_marked, ArePlanned, IsSameRun, ChangesOne, KeepsLog, AppendsToLog};
ghost use Rattle.roaming_consumer.specs.Visits.{VisitTells, KeepsRing, Marks, TakesAtMost, VisitWrites, VisitStops, IsWritten, IsThrown};

use crate::gathering::{Gathered, Thrown};
use crate::roamer::Roamer;
use crate::visit::{SinkFault, Visit};
use nl_io::Sink;
use ring_core::StageOut;

impl<'d, S: StageOut> Roamer<'d, S> {
    /// A visit before any write has failed.
    fn write_visit<K: Sink>(&mut self, writer: u32, sink: &mut K) -> Result<Visit, SinkFault>
        requires known { writer < length (ends_of self.old) }
        requires planned { ArePlanned S.plan self.old }
        requires begun { is_begun self.old ≡ true }
        requires unfaulted { is_faulted self.old ≡ false }
        ensures visits { ChangesOne (ends_of self.old) (ends_of self.new) writer (λ before after.
            IfOk result (λ visit. VisitTells S.got S.ended S.loads visit before after)
            × KeepsRing S.ended S.loads S.pair S.plan before after) }
        ensures again { (end : S) → slice_get (ends_of self.old) writer ≡ Some end → S.ended end ≡ true
            → (result ≡ Ok Visit.Ended) ⊎ (IsErr result × (is_marked self.old writer ≡ false)) }
        ensures written { IfOk result IsWritten }
        ensures few { IfOk result (TakesAtMost (roamer_batch self.old)) }
        ensures marks { Marks result writer self.old self.new }
        ensures writes { IfOk result (λ visit. ChangesOne (ends_of self.old) (ends_of self.new) writer
            (VisitWrites S.got S.ended S.loads self.old writer (K.put sink.old) (K.put sink.new) visit)) }
        ensures stops { OnErr result (ChangesOne (ends_of self.old) (ends_of self.new) writer
            (VisitStops S.got S.ended self.old writer (K.put sink.old) (K.put sink.new))) }
        ensures wrote { AppendsToLog S.got S.ended self.old self.new (K.put sink.old) (K.put sink.new) }
        ensures counted { OnOk result (K.faults sink.new ≡ K.faults sink.old) }
        ensures cause { OnErr result (Rose (K.faults sink.old) (K.faults sink.new)) }
        ensures count { K.faults sink.old ≤ K.faults sink.new }
        ensures others { K.rest sink.old sink.new }
        ensures ok { OnOk result (is_faulted self.new ≡ false) }
        ensures err { OnErr result (is_faulted self.new ≡ true) }
        ensures begun { is_begun self.new ≡ true }
        ensures same_run { IsSameRun self.old self.new }
    {
        let Gathered { draft, ended } = self.collect(writer);
        if draft.records > 0 {
            if self.write_draft(writer, draft, sink).is_err() {
                self.faulted = true;
                return Err(SinkFault);
            }
            return Ok(Visit::Wrote(u64::from(draft.records)));
        }
        if !ended {
            return Ok(Visit::Idle);
        }
        if !self.closed[writer as usize] && self.write_mark(writer, sink).is_err() {
            self.faulted = true;
            return Err(SinkFault);
        }
        Ok(Visit::Ended)
    }
}

impl<'d, S: StageOut> Roamer<'d, S> {
    /// A visit after a write has failed.
    fn throw_visit(&mut self, writer: u32) -> Visit
        requires known { writer < length (ends_of self.old) }
        requires begun { is_begun self.old ≡ true }
        requires faulted { is_faulted self.old ≡ true }
        ensures visits { ChangesOne (ends_of self.old) (ends_of self.new) writer (λ before after.
            VisitTells S.got S.ended S.loads result before after
            × KeepsRing S.ended S.loads S.pair S.plan before after) }
        ensures again { (end : S) → slice_get (ends_of self.old) writer ≡ Some end → S.ended end ≡ true
            → result ≡ Visit.Ended }
        ensures thrown { IsThrown result }
        ensures wrote { (put : Told) → AppendsToLog S.got S.ended self.old self.new put put }
        ensures writes { (put : Told) → ChangesOne (ends_of self.old) (ends_of self.new) writer
            (VisitWrites S.got S.ended S.loads self.old writer put put result) }
        ensures few { TakesAtMost (roamer_batch self.old) result }
        ensures others { KeepsLog self.old self.new }
    {
        let Thrown { frames, ended } = self.toss(writer);
        if frames > 0 {
            return Visit::Discarded(u64::from(frames));
        }
        if ended { Visit::Ended } else { Visit::Idle }
    }

    /// Takes frames of the writer's end, and writes their records as one extent, in front of which stand the clocks that
    /// they have reached and that the log doesn't have yet, and the fragments of the messages that it wants and that the
    /// log doesn't define yet. It takes frames until there are as many as in a batch, a record might have no room in the
    /// body, or the end gives none. Where it gives none at first and all has ended, the close mark of the writer is
    /// written, once. It has no answer for want of memory.
    ///
    /// After a write has failed the frames are thrown away, and nothing is written.
    ///
    /// # Errors
    ///
    /// A write failed in this call. The roamer is faulted from then on.
    pub fn visit<K: Sink>(&mut self, writer: u32, sink: &mut K) -> Result<Visit, SinkFault>
        requires known { writer < length (ends_of self.old) }
        requires planned { ArePlanned S.plan self.old }
        requires begun { is_begun self.old ≡ true }

        // What the answer says of the writer's end. All other ends are as they were.
        ensures visits { ChangesOne (ends_of self.old) (ends_of self.new) writer (λ before after.
            IfOk result (λ visit. VisitTells S.got S.ended S.loads visit before after)
            × KeepsRing S.ended S.loads S.pair S.plan before after) }
        // A writer that had ended is told as ended each time, unless its close mark wasn't written and can't be.
        ensures again { (end : S) → slice_get (ends_of self.old) writer ≡ Some end → S.ended end ≡ true
            → (result ≡ Ok Visit.Ended) ⊎ (IsErr result × (is_marked self.old writer ≡ false)) }
        ensures written { is_faulted self.old ≡ false → IfOk result IsWritten }
        ensures thrown { is_faulted self.old ≡ true → IfOk result IsThrown }
        ensures few { IfOk result (TakesAtMost (roamer_batch self.old)) }
        ensures marks { Marks result writer self.old self.new }

        // What the sink was given, and why no more frames were taken.
        ensures writes { IfOk result (λ visit. ChangesOne (ends_of self.old) (ends_of self.new) writer
            (VisitWrites S.got S.ended S.loads self.old writer (K.put sink.old) (K.put sink.new) visit)) }
        ensures stops { OnErr result (ChangesOne (ends_of self.old) (ends_of self.new) writer
            (VisitStops S.got S.ended self.old writer (K.put sink.old) (K.put sink.new))) }
        ensures wrote { AppendsToLog S.got S.ended self.old self.new (K.put sink.old) (K.put sink.new) }
        ensures untouched { is_faulted self.old ≡ true → sink.new ≡ sink.old }
        ensures counted { OnOk result (K.faults sink.new ≡ K.faults sink.old) }
        ensures cause { OnErr result (Rose (K.faults sink.old) (K.faults sink.new)) }
        ensures count { K.faults sink.old ≤ K.faults sink.new }
        ensures others { K.rest sink.old sink.new }

        // What state the roamer is in.
        ensures ok { OnOk result (is_faulted self.new ≡ is_faulted self.old) }
        ensures err { OnErr result ((is_faulted self.old ≡ false) × (is_faulted self.new ≡ true)) }
        ensures begun { is_begun self.new ≡ true }
        ensures same_run { IsSameRun self.old self.new }
        ensures planned { ArePlanned S.plan self.new }
        ensures same_count { length (ends_of self.new) ≡ length (ends_of self.old) }
    {
        if self.faulted {
            return Ok(self.throw_visit(writer));
        }
        self.write_visit(writer, sink)
    }
}
