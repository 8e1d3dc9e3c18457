//! A ring whose writer's end refuses a frame for which there would be room.

ghost use Rattle.std.specs.Prelude.{◌≡◌, ◌≤◌, ◌+◌, ◌-◌, IfSome};
ghost use Rattle.std.proofs.Common.{arith};
ghost use Rattle.ring_core.specs.Answers.{IsFull};

use arg_records::MAX_FRAME_WORDS;
use log_dictionary::Message;
use ring_core::{Full, Stage, StageFault, StageIn, need_from_place};
use session_options::{MAX_RING, MIN_RING};
use std::alloc::Global;
use word_ring::{WordDone, WordIn, WordOut, WordRing};

/// The writer's end of a ring of words. It refuses its third frame, where the room isn't enough of which it knows: it
/// learns from refusals only what was taken.
#[derive(Drop)]
pub(crate) struct LateIn {
    end: WordIn,
    /// Up to which position it knows that its frames were taken.
    known: u64,
    offers: u64,
    looks: u64,
    ghost within: { known ≤ end.at - end.ahead },
}

impl LateIn {
    fn over(end: WordIn) -> LateIn
        ensures { (result.end ≡ end) × (result.known ≡ 0) }
    {
        LateIn {
            end,
            known: 0,
            offers: 0,
            looks: 0,
        }
    }

    /// The answer to a frame of so many words, if it is the third and the room isn't enough of which it knows.
    fn wanting(&self, frame: usize) -> Option<Full>
        ensures { IfSome result (λ full. IsFull self.now.end.at frame self.now.end.words self.now.known full) }
    {
        let (at, words) = (self.end.at(), self.end.words());
        let is_lawful = MIN_RING <= words && words <= MAX_RING && frame <= MAX_FRAME_WORDS;
        if self.offers != 3 || !is_lawful {
            return None;
        }
        let need = need_from_place(at % words, frame as u64, words);
        let room = words.checked_sub(at - self.known)?;
        if room < need {
            Some(Full { need, room })
        } else {
            None
        }
    }

    /// Learns from a frame that was accepted how far the frames were taken at least: it had room.
    fn learn_room(&mut self)
        requires { self.old.end.at ≤ self.old.end.words + (self.old.end.at - self.old.end.ahead) }
        ensures known { (self.old.known ≤ self.new.known)
            × (self.old.end.at ≤ self.new.known + self.old.end.words) }
        ensures others { (self.new.end ≡ self.old.end) × (self.new.looks ≡ self.old.looks) }
    {
        self.known = self
            .known
            .max(self.end.at().saturating_sub(self.end.words()));
    }

    /// Learns from a refusal of its ring how far its frames were taken.
    fn learn(&mut self, full: Full)
        requires room { (full.room ≤ self.old.end.words) × (self.old.end.words - full.room ≤ self.old.end.at) }
        requires seen { self.old.end.at - self.old.end.ahead ≡ self.old.end.at - (self.old.end.words - full.room) }
        ensures known { self.new.known ≡ self.old.end.at - self.old.end.ahead }
        ensures others { (self.new.end ≡ self.old.end) × (self.new.looks ≡ self.old.looks) }
    {
        self.known = self.end.at() - (self.end.words() - full.room);
    }
}

impl StageIn for LateIn {
    ghost sent = { λ late. late.end.sent };

    ghost closed = { λ late. late.end.closed };

    ghost at = { λ late. late.end.at };

    ghost seen = { λ late. late.known };

    ghost looks = { λ late. late.end.looks + late.looks };

    ghost words = { λ late. late.end.words };

    ghost pair = { λ late. late.end.pair };

    ghost plan = { λ late. late.end.plan };

    ghost steps = { λ late. late.end.steps };

    fn offer(&mut self, frame: &[u64]) -> Result<(), Full> {
        self.offers = self.offers.saturating_add(1);
        if let Some(full) = self.wanting(frame.len()) {
            self.looks = self.looks.saturating_add(1);
            return Err(full);
        }
        match self.end.offer(frame) {
            Ok(()) => {
                self.learn_room();
                Ok(())
            }
            Err(full) => {
                self.learn(full);
                Err(full)
            }
        }
    }

    fn close(&mut self) {
        self.end.close();
    }

    fn at(&self) -> u64 {
        self.end.at()
    }

    fn words(&self) -> u64 {
        self.end.words()
    }

    ghost seen_within = { λ late. Prim.omega arith };
}

/// Rings of words whose writers' ends refuse a frame.
pub(crate) struct LateStage;

impl Stage for LateStage {
    type In = LateIn;

    type Out = WordOut;

    type Done = WordDone;

    fn make(
        alloc: Global,
        words: u64,
        messages: &[Message],
        first: u64,
    ) -> Result<(LateIn, WordOut), StageFault> {
        let (end, roamer) = WordRing::make(alloc, words, messages, first)?;
        Ok((LateIn::over(end), roamer))
    }

    fn settle(writer: LateIn, roamer: WordOut) -> WordDone {
        let LateIn {
            end,
            known: _,
            offers: _,
            looks: _,
        } = writer;
        WordRing::settle(end, roamer)
    }
}
