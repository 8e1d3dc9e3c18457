//! The parts of a visit: taking frames, and writing what was taken.

ghost use Rattle.std.specs.Prelude.{◌≡◌, ◌-◌, ◌<◌, ◌≤◌, length, max, take, OnOk, OnErr};
ghost use Rattle.log_dictionary.specs.declared.dictionary.TheConstants.{MAX_MESSAGES};
ghost use Rattle.log_dictionary.specs.Messages.{AreDistinct};
ghost use Rattle.checkpoint_io.specs.Blocks.{close_bytes};
ghost use Rattle.roaming_consumer.specs.Gathering.{FramesCame, DraftsFrames, StopsTaking};
ghost use Rattle.roaming_consumer.specs.Growth.{due_clocks, progress_closing};
ghost use Rattle.roaming_consumer.specs.Sinks.{Sends, SendsExtent};
ghost use Rattle.roaming_consumer.specs.Roamers.{ends_of, roamer_messages, roamer_version, roamer_clocks, roamer_clock, roamer_room, roamer_batch, roamer_progress, is_begun, is_faulted, behind_draft, ArePlanned, IsSameRun, ChangesOne, EndAfterTaking, KeepsLog};

use crate::blocks::{write_close, write_extent};
use crate::clocks::write_clocks;
use crate::draft::Draft;
use crate::fragments::write_fragments;
use crate::gathering::{Gathered, Thrown, gather, throw_away};
use crate::roamer::Roamer;
use nl_io::{Failed, Sink};
use ring_core::StageOut;

impl<'d, S: StageOut> Roamer<'d, S> {
    /// Takes frames of the writer's end, and puts their records into the body.
    pub(crate) fn collect(&mut self, writer: u32) -> Gathered
        requires known { writer < length (ends_of self.old) }
        requires planned { ArePlanned S.plan self.old }
        ensures gathers { ChangesOne (ends_of self.old) (ends_of self.new) writer (λ before after.
            DraftsFrames (roamer_messages self.old) (roamer_clock self.old).tick (S.got before)
            (S.got after) result.draft
            self.new.body.items
            × EndAfterTaking S.ended S.loads S.pair S.plan result.draft.records result.ended before after
            × StopsTaking S.got S.ended S.loads (roamer_batch self.old) result.draft.records
            (roamer_room self.old - result.draft.len) before after) }
        ensures few { result.draft.records ≤ roamer_batch self.old }
        ensures others { KeepsLog self.old self.new }
    {
        let end = &mut self.ends[writer as usize];
        gather(
            end,
            self.dictionary,
            self.clock.tick,
            self.batch,
            &mut self.frame,
            &mut self.body,
        )
    }

    /// Takes frames of the writer's end, and throws them away.
    pub(crate) fn toss(&mut self, writer: u32) -> Thrown
        requires known { writer < length (ends_of self.old) }
        ensures came { ChangesOne (ends_of self.old) (ends_of self.new) writer (λ before after.
            FramesCame (S.got before) (S.got after) result.frames
            × EndAfterTaking S.ended S.loads S.pair S.plan result.frames result.ended before after
            × StopsTaking S.got S.ended S.loads (roamer_batch self.old) result.frames (roamer_room self.old) before after) }
        ensures few { result.frames ≤ roamer_batch self.old }
        ensures others { KeepsLog self.old self.new }
    {
        let end = &mut self.ends[writer as usize];
        throw_away(end, self.batch, &mut self.frame)
    }
}

impl<'d, S> Roamer<'d, S> {
    /// Writes the extent of the writer with the records of the draft, and in front of it the clocks and the fragments
    /// that it wants.
    pub(crate) fn write_draft<K: Sink>(
        &mut self,
        writer: u32,
        draft: Draft,
        sink: &mut K,
    ) -> Result<(), Failed>
        requires known { writer < length (ends_of self.old) }
        requires some { 1 ≤ draft.len }
        requires short { draft.len ≤ roamer_room self.old }
        requires ids { draft.ids ≤ length (roamer_messages self.old) }
        ensures sent { SendsExtent result
            (due_clocks (roamer_clocks self.old) (roamer_progress self.old).written draft.last)
            (roamer_messages self.old) (roamer_version self.old) (roamer_progress self.old).defined
            (max (roamer_progress self.old).defined draft.ids) writer (take draft.len self.old.body.items)
            (K.put sink.old) (K.put sink.new) (K.faults sink.old) (K.faults sink.new) }
        ensures others { K.rest sink.old sink.new }
        ensures ok { OnOk result (roamer_progress self.new ≡ behind_draft self.old draft) }
        ensures err { OnErr result (roamer_progress self.new ≡ record (roamer_progress self.old) {
          latest = max (roamer_progress self.old).latest draft.last;
        }) }
        ensures same_run { IsSameRun self.old self.new }
        ensures same_ends { ends_of self.new ≡ ends_of self.old }
        ensures same_flags { (is_begun self.new ≡ is_begun self.old)
            × (is_faulted self.new ≡ is_faulted self.old) }

        // What is known of every dictionary.
        ensures distinct { AreDistinct (roamer_messages self.old) }
        ensures few { length (roamer_messages self.old) ≤ MAX_MESSAGES }
    {
        self.latest = self.latest.max(draft.last);
        let messages = self.dictionary.as_slice();
        let due = self.due(draft.last);
        let written = self.written + due.len();
        write_clocks(due, sink)?;
        let defined = self.defined.max(draft.ids);
        write_fragments(messages, self.defined, defined, &mut self.fragment, sink)?;
        write_extent(self.version, writer, &self.body[..draft.len], sink)?;
        self.written = written;
        self.defined = defined;
        Ok(())
    }

    /// Writes the close mark of the writer.
    pub(crate) fn write_mark<K: Sink>(&mut self, writer: u32, sink: &mut K) -> Result<(), Failed>
        requires known { writer < length (ends_of self.old) }
        ensures sent { Sends result (close_bytes (roamer_version self.old) writer)
            (K.put sink.old) (K.put sink.new) (K.faults sink.old) (K.faults sink.new) }
        ensures others { K.rest sink.old sink.new }
        ensures ok { OnOk result (roamer_progress self.new ≡ progress_closing (roamer_progress self.old) writer) }
        ensures err { OnErr result (roamer_progress self.new ≡ roamer_progress self.old) }
        ensures same_run { IsSameRun self.old self.new }
        ensures same_ends { ends_of self.new ≡ ends_of self.old }
        ensures same_flags { (is_begun self.new ≡ is_begun self.old)
            × (is_faulted self.new ≡ is_faulted self.old) }
    {
        write_close(self.version, writer, sink)?;
        self.closed[writer as usize] = true;
        Ok(())
    }
}
