//! The writer's end of a ring of words.

ghost use Rattle.std.specs.Prelude.{◌≡◌, ◌↔◌, ◌<◌, ◌≤◌, ◌+◌, ◌-◌, ◌++◌, ◌∷◌, [], true, false, length, OnOk, OnErr, IfErr, IsOk};
ghost use Rattle.std.specs.Arc.{arc_value};
ghost use Rattle.ring_core.specs.declared.limits.TheConstants.{MAX_POSITION, OFFER_ROOM};
ghost use Rattle.ring_core.specs.Answers.{IsFull};
ghost use Rattle.ring_core.specs.Counts.{RisesBy};
ghost use Rattle.ring_core.specs.Plans.{Lawful};
ghost use Rattle.ring_core.specs.Positions.{Need};
ghost use Rattle.ring_machine.specs.RingStates.{new_writer, new_roamer};
ghost use Rattle.word_ring.specs.Ends.{AcceptsFrame, RefusesFrame, IsTableSize, numbers_of, seen_by, room_found};
ghost use Rattle.word_ring.specs.Rule.{plan_in, known};
ghost use Rattle.word_ring.specs.Seats.{view, IsSeatOf};

use crate::frames::put_next;
use crate::places::places_on;
use crate::steps::{WordSeat, WordTable, close, look, publish};
use ring_core::{Full, StageIn, need_from_place};
use std::alloc::Global;
use std::marker::Model;
use std::sync::Arc;

/// The end into which a writer puts frames. No call of it waits, or takes memory.
#[derive(Drop)]
pub struct WordIn {
    pub(crate) ring: Arc<WordTable, Global>,
    pub(crate) seat: WordSeat,
    pub(crate) size: u64,
    pub(crate) at: u64,
    /// The place of `at`.
    pub(crate) place: u64,
}

impl Model for WordIn {
    ghost use Rattle.word_ring.specs.Ends.{WordWriterEnd};

    ghost Value = { WordWriterEnd };

    ghost use Rattle.word_ring.specs.WriterInside.{writer_end_of, IsWordWriter};

    ghost view = { writer_end_of };

    ghost invariant = { IsWordWriter };
}

impl WordIn {
    /// The end with this seat, before anything was put.
    pub(crate) fn over(ring: Arc<WordTable, Global>, seat: WordSeat, size: u64) -> WordIn
        requires seat { IsSeatOf size (arc_value ring) seat }
        requires size { IsTableSize size }
        requires new { view seat ≡ known true false size (plan_in (view seat)) new_writer new_roamer }
        ensures { result ≡ record {
          pair = numbers_of seat.table_id;
          plan = plan_in (view seat);
          words = size;
          sent = [];
          closed = false;
          at = 0;
          ahead = 0;
          looks = 0;
          steps = 0;
        } }
    {
        WordIn {
            ring,
            seat,
            size,
            at: 0,
            place: 0,
        }
    }

    /// Puts a frame behind those that were put before, if the ring has room for it. It looks once how far the roamer
    /// has released places, and never waits.
    pub fn offer(&mut self, frame: &[u64]) -> Result<(), Full>
        requires lawful { Lawful self.old.plan (self.old.sent ++ frame.now ∷ []) }
        requires not_closed { self.old.closed ≡ false }
        requires position { self.old.at + OFFER_ROOM ≤ MAX_POSITION }
        ensures exact { IsOk result ↔ (Need self.old.at (length frame.now) self.old.words
            ≤ room_found self.old self.new) }
        ensures ok { OnOk result (AcceptsFrame self.old frame.now self.new) }
        ensures err { OnErr result (RefusesFrame self.old self.new) }
        ensures full { IfErr result (IsFull self.old.at (length frame.now) self.old.words (seen_by self.new)) }
        ensures further { seen_by self.old ≤ seen_by self.new }
        ensures within { seen_by self.new ≤ self.old.at }
    {
        let table: &WordTable = &self.ring;
        let need = need_from_place(self.place, frame.len() as u64, self.size);
        let released = look(table, &mut self.seat);
        let room = self.size - (self.at - released);
        if need > room {
            return Err(Full { need, room });
        }
        put_next(table, &mut self.seat, self.place, frame, self.size);
        self.at += need;
        self.place = places_on(self.place, need, self.size);
        publish(table, &mut self.seat, self.at);
        Ok(())
    }

    /// Closes the end: no frame comes behind those that were put.
    pub fn close(&mut self)
        requires { self.old.closed ≡ false }
        ensures same { self.new ≡ record self.old { closed = true; steps = self.new.steps } }
        ensures steps { RisesBy 1 self.old.steps self.new.steps }
    {
        let table: &WordTable = &self.ring;
        close(table, &mut self.seat, self.at);
    }
}

impl StageIn for WordIn {
    ghost use Rattle.std.proofs.Common.{arith};
    ghost use Rattle.word_ring.specs.Ends.{seen_by};

    ghost sent = { λ end. end.sent };

    ghost closed = { λ end. end.closed };

    ghost at = { λ end. end.at };

    ghost seen = { seen_by };

    ghost looks = { λ end. end.looks };

    ghost words = { λ end. end.words };

    ghost pair = { λ end. end.pair };

    ghost plan = { λ end. end.plan };

    ghost steps = { λ end. end.steps };

    fn offer(&mut self, frame: &[u64]) -> Result<(), Full> {
        WordIn::offer(self, frame)
    }

    fn close(&mut self) {
        WordIn::close(self);
    }

    fn at(&self) -> u64 {
        self.at
    }

    fn words(&self) -> u64 {
        self.size
    }

    ghost seen_within = { λ end. Prim.omega arith };
}
