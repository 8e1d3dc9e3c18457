//! The roamer's end of a ring of words.

ghost use Rattle.std.specs.Prelude.{◌≡◌, ◌≢◌, ◌<◌, ◌≤◌, ◌+◌, ◌%◌, [], true, false, length, take, IsTrue, IsFalse, MatchOption};
ghost use Rattle.std.specs.Arc.{arc_value};
ghost use Rattle.arg_records.specs.declared.frame.TheConstants.{MAX_FRAME_WORDS};
ghost use Rattle.nl_io.specs.Count.{counted};
ghost use Rattle.ring_core.specs.Counts.{RisesBy};
ghost use Rattle.ring_machine.specs.RingStates.{new_writer, new_roamer};
ghost use Rattle.word_ring.specs.Ends.{IsTableSize, numbers_of};
ghost use Rattle.word_ring.specs.Taking.{IsTaken, TakesLoaded, SkipsMark, answer_of};
ghost use Rattle.word_ring.specs.Rule.{plan_in, known};
ghost use Rattle.word_ring.specs.Seats.{view, IsSeatOf};

use crate::frames::read_frame;
use crate::places::places_on;
use crate::steps::{WordSeat, WordTable, load, read, release};
use arg_records::MAX_FRAME_WORDS;
use ring_core::{StageOut, Taken};
use std::alloc::Global;
use std::marker::Model;
use std::sync::Arc;

/// The end from which a roamer takes frames. No call of it waits, or takes memory.
#[derive(Drop)]
pub struct WordOut {
    pub(crate) ring: Arc<WordTable, Global>,
    pub(crate) seat: WordSeat,
    pub(crate) size: u64,
    pub(crate) at: u64,
    /// The place of `at`.
    pub(crate) place: u64,
    pub(crate) loaded: u64,
    pub(crate) learnt: bool,
    pub(crate) ended: bool,
    pub(crate) frames: u64,
}

impl Model for WordOut {
    ghost use Rattle.word_ring.specs.Ends.{WordRoamerEnd};

    ghost Value = { WordRoamerEnd };

    ghost use Rattle.word_ring.specs.RoamerInside.{roamer_end_of, IsWordRoamer};

    ghost view = { roamer_end_of };

    ghost invariant = { IsWordRoamer };
}

impl WordOut {
    /// The end with this seat, before anything was taken.
    pub(crate) fn over(ring: Arc<WordTable, Global>, seat: WordSeat, size: u64) -> WordOut
        requires seat { IsSeatOf size (arc_value ring) seat }
        requires size { IsTableSize size }
        requires new { view seat ≡ known false true size (plan_in (view seat)) new_writer new_roamer }
        ensures { result ≡ record {
          pair = numbers_of seat.table_id;
          plan = plan_in (view seat);
          words = size;
          got = [];
          at = 0;
          released = 0;
          loaded = 0;
          learnt = false;
          ended = false;
          loads = 0;
          steps = 0;
        } }
    {
        WordOut {
            ring,
            seat,
            size,
            at: 0,
            place: 0,
            loaded: 0,
            learnt: false,
            ended: false,
            frames: 0,
        }
    }

    /// How many frames were taken.
    pub fn frames(&self) -> u64
        ensures { result ≡ length self.now.got }
    {
        self.frames
    }

    /// Loads how far words are published, and whether the ring is closed. It answers whether words are left.
    fn reach(&mut self) -> bool
        requires { self.old.ended ≡ false }
        ensures same { self.new ≡ record self.old {
          loaded = self.new.loaded;
          learnt = self.new.learnt;
          loads = counted self.old.loads;
          steps = self.new.steps;
        } }
        ensures counts { (self.old.loads ≤ self.new.loads) × RisesBy 1 self.old.steps self.new.steps }
        ensures left { IsTrue result → self.new.loaded ≢ self.new.at }
        ensures none { IsFalse result → self.new.at ≡ self.new.loaded }
    {
        let table: &WordTable = &self.ring;
        let word = load(table, &mut self.seat);
        self.loaded = word / 2;
        self.learnt = word % 2 == 1;
        self.at < self.loaded
    }

    /// Goes on to the end of the frame that is next among the words that are loaded, and answers how many words it has.
    /// Where a wrap mark is next, it goes on to the ring's beginning.
    fn go_on(&mut self, into: &mut [u64; MAX_FRAME_WORDS]) -> Option<usize>
        requires not_ended { self.old.ended ≡ false }
        requires left { self.old.loaded ≢ self.old.at }
        ensures { MatchOption result (SkipsMark self.old self.new)
            (λ n. (n ≤ MAX_FRAME_WORDS) × TakesLoaded self.old (take n into.new) self.new) }
    {
        let table: &WordTable = &self.ring;
        let place = self.place as usize;
        let word = read(table, &mut self.seat, place);
        if word == 0 {
            self.at += self.size - self.place;
            self.place = 0;
            return None;
        }
        let len = read_frame(table, &mut self.seat, place, word, into);
        self.at += len as u64;
        self.place = places_on(self.place, len as u64, self.size);
        self.frames += 1;
        release(table, &mut self.seat, self.at);
        Some(len)
    }

    /// The answer where no words are left.
    fn none_left(&mut self) -> Taken
        requires not_ended { self.old.ended ≡ false }
        requires none { self.old.at ≡ self.old.loaded }
        ensures answer { result ≡ answer_of self.old.learnt }
        ensures same { self.new ≡ record self.old { ended = self.old.learnt } }
    {
        self.ended = self.learnt;
        if self.ended {
            Taken::Ended
        } else {
            Taken::Nothing
        }
    }

    /// Takes the next frame into the front of `into`. It loads the producer word once at most, and never waits.
    pub fn take(&mut self, into: &mut [u64; MAX_FRAME_WORDS]) -> Taken
        ensures { IsTaken self.old into.new result self.new }
    {
        if self.ended {
            return Taken::Ended;
        }
        let asked = self.at == self.loaded;
        if asked && !self.reach() {
            return self.none_left();
        }
        if let Some(len) = self.go_on(into) {
            return Taken::Frame(len);
        }
        // A wrap mark stood there, and the frame is behind it.
        if self.at == self.loaded && (asked || !self.reach()) {
            return self.none_left();
        }
        match self.go_on(into) {
            Some(len) => Taken::Frame(len),
            None => unreachable!(),
        }
    }
}

impl StageOut for WordOut {
    ghost got = { λ end. end.got };

    ghost ended = { λ end. end.ended };

    ghost loads = { λ end. end.loads };

    ghost pair = { λ end. end.pair };

    ghost plan = { λ end. end.plan };

    ghost steps = { λ end. end.steps };

    fn take(&mut self, into: &mut [u64; MAX_FRAME_WORDS]) -> Taken {
        WordOut::take(self, into)
    }
}
