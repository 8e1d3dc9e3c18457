//! What is left of a ring of words whose ends have come together again.

ghost use Rattle.std.specs.Prelude.{◌≡◌, true};
ghost use Rattle.ring_core.specs.Plans.{BeginsWith};
ghost use Rattle.word_ring.specs.Ends.{both_ends};

use crate::known::Both;
use crate::steps::{WordSeat, WordTable, settle};
use crate::word_in::WordIn;
use crate::word_out::WordOut;
use ring_core::StageDone;
use std::marker::Model;

/// What both ends knew.
#[derive(Drop)]
pub struct WordDone {
    seat: WordSeat,
    ended: bool,
    frames: u64,
}

impl Model for WordDone {
    ghost use Rattle.word_ring.specs.Ends.{BothWordEnds};

    ghost Value = { BothWordEnds };

    ghost use Rattle.word_ring.specs.DoneInside.{both_ends_of, CountsFrames};

    ghost view = { both_ends_of };

    ghost invariant = { CountsFrames };
}

impl WordDone {
    /// Brings the two ends of a ring together. What was taken is the front of what was put, and all of it where the
    /// roamer's end has ended, which it does of a closed ring alone.
    pub fn of(writer: WordIn, roamer: WordOut) -> WordDone
        requires { writer.pair ≡ roamer.pair }
        ensures ends { result ≡ both_ends writer roamer }
        ensures front { BeginsWith writer.sent roamer.got }
        ensures whole { roamer.ended ≡ true → (writer.closed ≡ true) × (roamer.got ≡ writer.sent) }
    {
        let WordIn {
            ring,
            mut seat,
            size: _,
            at: _,
            place: _,
        } = writer;
        let WordOut {
            ring: _,
            seat: theirs,
            size: _,
            at: _,
            place: _,
            loaded: _,
            learnt: _,
            ended,
            frames,
        } = roamer;
        let table: &WordTable = &ring;
        table.shared.join_seat::<Both>(&mut seat, theirs);
        settle(table, &mut seat);
        WordDone {
            seat,
            ended,
            frames,
        }
    }
}

impl StageDone for WordDone {
    ghost pair = { λ done. done.pair };

    ghost sent = { λ done. done.sent };

    ghost got = { λ done. done.got };

    ghost closed = { λ done. done.closed };

    ghost ended = { λ done. done.ended };

    fn frames(&self) -> u64 {
        self.frames
    }
}
