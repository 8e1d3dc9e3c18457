//! One ring.

ghost use Rattle.std.specs.Prelude.{◌≡◌, ◌≢◌, ◌≤◌, ◌+◌, [], false, None, OnOk, OnErr, IfOk};
ghost use Rattle.ring_core.specs.declared.limits.TheConstants.{MAX_POSITION};
ghost use Rattle.session_options.specs.declared.limits.TheConstants.{MAX_RING};
ghost use Rattle.ring_machine.specs.Streams.{FitsWithin};
ghost use Rattle.ring_machine.specs.RingStates.{new_ring, written, taken, RingOk};
ghost use Rattle.ring_machine.specs.Steps.{first_bar, store_tests, writer_bar, roamer_bar, barred, stored, after_step};
ghost use Rattle.ring_machine.specs.Rings.{view_of};

use crate::steps::{Barred, StepKind};
use crate::track::Track;
use crate::view::RingView;
use arg_records::MAX_FRAME_WORDS;
use log_dictionary::MAX_MESSAGES;
use std::alloc::{AllocError, Global};
use std::marker::Model;

/// A ring, with all that its ends have done.
#[derive(Drop)]
pub struct Ring {
    pub(crate) size: u64,
    pub(crate) words: Vec<u64>,
    pub(crate) published: u64,
    pub(crate) closed: bool,
    pub(crate) released: u64,
    pub(crate) stored: Track,
    pub(crate) seen: u64,
    pub(crate) looks: u64,
    pub(crate) writer_steps: u64,
    pub(crate) read: Track,
    pub(crate) loaded: u64,
    pub(crate) learnt: bool,
    pub(crate) loads: u64,
    pub(crate) roamer_steps: u64,
    pub(crate) sent: u64,
}

impl Model for Ring {
    ghost use Rattle.ring_machine.specs.RingStates.{RingState};

    ghost Value = { RingState };

    ghost use Rattle.ring_machine.specs.RingInside.{ring_state, IsRing};

    ghost view = { ring_state };

    ghost invariant = { IsRing };
}

impl Ring {
    /// A new ring of so many words.
    pub(crate) fn make(alloc: Global, size: u64) -> Result<Ring, AllocError>
        requires { (1 ≤ size) × (size ≤ MAX_RING) }
        ensures { IfOk result (λ ring. ring ≡ new_ring size) }
    {
        let words = vec![in alloc; 0; size as usize]?;
        Ok(Ring {
            size,
            words,
            published: 0,
            closed: false,
            released: 0,
            stored: Track::make(alloc, size),
            seen: 0,
            looks: 0,
            writer_steps: 0,
            read: Track::make(alloc, size),
            loaded: 0,
            learnt: false,
            loads: 0,
            roamer_steps: 0,
            sent: 0,
        })
    }

    /// Why the writer can't store this word of a frame, once it hasn't closed the ring.
    fn store_barred(&self, word: u64) -> Option<Barred>
        requires { (written self.now).at ≤ MAX_POSITION }
        ensures { result ≡ first_bar (store_tests self.now.size (self.now.writer.seen + self.now.size)
            (written self.now).at (written self.now).part word) }
    {
        if self.stored.is_inside() {
            return None;
        }
        let len = word % 65_536;
        if len < 2 || len > MAX_FRAME_WORDS as u64 || word / 65_536 >= MAX_MESSAGES as u64 {
            return Some(Barred::BadWord);
        }
        let at = self.stored.at();
        if at % self.size + len > self.size {
            return Some(Barred::AtEdge);
        }
        if at + len > self.seen + self.size {
            return Some(Barred::NoRoom);
        }
        None
    }

    /// Why the writer can't skip.
    fn skip_barred(&self) -> Option<Barred>
        requires { (written self.now).at ≤ MAX_POSITION }
        ensures { result ≡ writer_bar self.now.size self.now.writer StepKind.Skip }
    {
        if self.closed {
            return Some(Barred::Closed);
        }
        if self.stored.is_inside() {
            return Some(Barred::MidFrame);
        }
        let at = self.stored.at();
        if at % self.size == 0 {
            return Some(Barred::AtEdge);
        }
        if at + (self.size - at % self.size) > self.seen + self.size {
            return Some(Barred::NoRoom);
        }
        None
    }

    /// Why the writer can't publish.
    fn publish_barred(&self) -> Option<Barred>
        ensures { result ≡ writer_bar self.now.size self.now.writer StepKind.Publish }
    {
        if self.closed {
            return Some(Barred::Closed);
        }
        if self.stored.is_inside() {
            return Some(Barred::MidFrame);
        }
        if self.published == self.stored.at() {
            return Some(Barred::Nothing);
        }
        None
    }

    /// Why the writer can't close the ring.
    fn close_barred(&self) -> Option<Barred>
        ensures { result ≡ writer_bar self.now.size self.now.writer StepKind.Close }
    {
        if self.closed {
            return Some(Barred::Closed);
        }
        if self.stored.is_inside() || self.published != self.stored.at() {
            return Some(Barred::MidFrame);
        }
        None
    }

    /// Why the roamer can't release.
    fn release_barred(&self) -> Option<Barred>
        ensures { result ≡ roamer_bar self.now.size self.now.roamer StepKind.Release }
    {
        if self.read.is_inside() {
            return Some(Barred::MidFrame);
        }
        if self.released == self.read.at() {
            return Some(Barred::Nothing);
        }
        None
    }

    /// Why the step can't be made.
    pub(crate) fn barred(&self, step: StepKind) -> Option<Barred>
        requires { (written self.now).at ≤ MAX_POSITION }
        ensures { result ≡ barred self.now step }
    {
        match step {
            StepKind::Look if self.closed => Some(Barred::Closed),
            StepKind::Look => None,
            StepKind::Store(_) if self.closed => Some(Barred::Closed),
            StepKind::Store(word) => self.store_barred(word),
            StepKind::Skip => self.skip_barred(),
            StepKind::Publish => self.publish_barred(),
            StepKind::Close => self.close_barred(),
            StepKind::Load => None,
            StepKind::Read if self.loaded == self.read.at() => Some(Barred::Empty),
            StepKind::Read => None,
            StepKind::Release => self.release_barred(),
        }
    }

    /// The writer looks.
    fn look(&mut self)
        ensures { self.new ≡ after_step self.old StepKind.Look }
    {
        self.seen = self.released;
        self.looks = self.looks.saturating_add(1);
        self.writer_steps = self.writer_steps.saturating_add(1);
    }

    /// The writer stores a word behind the others: one of a frame, or a wrap mark.
    fn store(&mut self, word: u64) -> Result<(), AllocError>
        requires not_closed { self.old.writer.closed ≡ false }
        requires fits { FitsWithin self.old.size (self.old.writer.seen + self.old.size) (written self.old) word }
        requires position { (written self.old).at ≤ MAX_POSITION }
        ensures ok { OnOk result (self.new ≡ stored self.old word) }
        ensures err { OnErr result (self.new ≡ self.old) }
    {
        let place = (self.stored.at() % self.size) as usize;
        self.stored.push(word)?;
        self.words[place] = word;
        self.writer_steps = self.writer_steps.saturating_add(1);
        Ok(())
    }

    /// The writer publishes all that it has stored.
    fn publish(&mut self)
        requires not_closed { self.old.writer.closed ≡ false }
        requires whole { (written self.old).part ≡ [] }
        ensures { self.new ≡ after_step self.old StepKind.Publish }
    {
        self.published = self.stored.at();
        self.sent = self.stored.frames();
        self.writer_steps = self.writer_steps.saturating_add(1);
    }

    /// The writer closes the ring.
    fn close(&mut self)
        requires not_closed { self.old.writer.closed ≡ false }
        requires published { self.old.writer.published ≡ (written self.old).at }
        ensures { self.new ≡ after_step self.old StepKind.Close }
    {
        self.closed = true;
        self.writer_steps = self.writer_steps.saturating_add(1);
    }

    /// The roamer loads the producer word.
    fn load(&mut self)
        ensures { self.new ≡ after_step self.old StepKind.Load }
    {
        self.loaded = self.published;
        self.learnt = self.closed;
        self.loads = self.loads.saturating_add(1);
        self.roamer_steps = self.roamer_steps.saturating_add(1);
    }

    /// The roamer reads the next word.
    fn read(&mut self) -> Result<(), AllocError>
        requires left { self.old.roamer.loaded ≢ (taken self.old).at }
        requires position { (written self.old).at ≤ MAX_POSITION }
        ensures ok { OnOk result (self.new ≡ after_step self.old StepKind.Read) }
        ensures err { OnErr result (self.new ≡ self.old) }
    {
        let word = self.words[(self.read.at() % self.size) as usize];
        self.read.push(word)?;
        self.roamer_steps = self.roamer_steps.saturating_add(1);
        Ok(())
    }

    /// The roamer releases all that it has read.
    fn release(&mut self)
        requires whole { (taken self.old).part ≡ [] }
        ensures { self.new ≡ after_step self.old StepKind.Release }
    {
        self.released = self.read.at();
        self.roamer_steps = self.roamer_steps.saturating_add(1);
    }

    /// Makes a step that isn't barred.
    pub(crate) fn go(&mut self, step: StepKind) -> Result<(), AllocError>
        requires open { barred self.old step ≡ None }
        requires position { (written self.old).at ≤ MAX_POSITION }
        ensures ok { OnOk result (self.new ≡ after_step self.old step) }
        ensures err { OnErr result (self.new ≡ self.old) }
    {
        match step {
            StepKind::Look => self.look(),
            StepKind::Store(word) => return self.store(word),
            StepKind::Skip => return self.store(0),
            StepKind::Publish => self.publish(),
            StepKind::Close => self.close(),
            StepKind::Load => self.load(),
            StepKind::Read => return self.read(),
            StepKind::Release => self.release(),
        }
        Ok(())
    }

    /// What is shown of the ring.
    pub(crate) fn view(&self) -> RingView
        ensures view { result ≡ view_of self.now }
        ensures ok { RingOk self.now }
    {
        let read = self.read.at();
        RingView {
            written: self.stored.at(),
            published: self.published,
            released: self.released,
            seen: self.seen,
            loaded: self.loaded,
            read,
            sent: self.sent,
            got: self.read.frames(),
            closed: self.closed,
            ended: self.learnt && read == self.loaded,
        }
    }
}
