//! The consumer's rounds.

ghost use Rattle.std.specs.Prelude.{◌≡◌, ◌↔◌, ◌<◌, ◌+◌, Bool, true, length};
ghost use Rattle.std.specs.List.{AllZip};
ghost use Rattle.roaming_consumer.specs.Roamers.{ends_of, is_begun, ArePlanned};
ghost use Rattle.trace_session.specs.Rounds.{Roams, IsOverUpTo};
ghost use Rattle.trace_session.specs.Workplaces.{works_at, TakesOneTurn};

use crate::gate::Gate;
use crate::workplace::Workplace;
use nl_io::Sink;
use ring_core::{StageIn, StageOut};
use roaming_consumer::{Roamer, Visit};
use std::alloc::Global;
use std::sync::{Arc, Wait};
use std::thread::Parker;
use std::time::Duration;

/// How many microseconds the consumer naps where a round found nothing and the one before found something.
const FIRST_NAP: u64 = 50;

/// The most microseconds that it naps.
const LONGEST_NAP: u64 = 1_000;

/// What came of a round, or of a part of one.
#[derive(Clone, Copy, Debug, PartialEq, Eq)]
enum Round {
    /// A call was taken, logged or dropped.
    Moved,
    /// Nothing moved.
    Idle,
    /// All writers have ended.
    Over,
}

impl Round {
    /// What came of two parts of a round.
    fn with(self, other: Round) -> Round
        ensures { (result ≡ Round.Over) ↔ ((self ≡ Round.Over) × (other ≡ Round.Over)) }
    {
        match (self, other) {
            (Round::Moved, _) | (_, Round::Moved) => Round::Moved,
            (Round::Over, Round::Over) => Round::Over,
            _ => Round::Idle,
        }
    }
}

/// Visits a writer.
fn visit_one<O: StageOut, K: Sink>(roamer: &mut Roamer<'_, O>, writer: u32, sink: &mut K) -> Round
    requires known { writer < length (ends_of roamer.old) }
    requires planned { ArePlanned O.plan roamer.old }
    requires begun { is_begun roamer.old ≡ true }
    ensures roams { Roams O.got O.ended O.pair O.plan roamer.old roamer.new
        (K.put sink.old) (K.put sink.new) (K.faults sink.old) (K.faults sink.new) }
    ensures over { result ≡ Round.Over → IsOverUpTo O.ended writer roamer.old
        → IsOverUpTo O.ended (writer + 1) roamer.new }
    ensures others { K.rest sink.old sink.new }
{
    match roamer.visit(writer, sink) {
        Ok(Visit::Ended) => Round::Over,
        Ok(Visit::Idle) => Round::Idle,
        Ok(Visit::Wrote(_) | Visit::Discarded(_)) | Err(_) => Round::Moved,
    }
}

/// Visits each of so many writers once, one after the other.
fn visit_all<O: StageOut, K: Sink>(roamer: &mut Roamer<'_, O>, writers: u32, sink: &mut K) -> Round
    requires known { writers ≡ length (ends_of roamer.old) }
    requires planned { ArePlanned O.plan roamer.old }
    requires begun { is_begun roamer.old ≡ true }
    ensures roams { Roams O.got O.ended O.pair O.plan roamer.old roamer.new
        (K.put sink.old) (K.put sink.new) (K.faults sink.old) (K.faults sink.new) }
    ensures over { result ≡ Round.Over → IsOverUpTo O.ended writers roamer.new }
    ensures others { K.rest sink.old sink.new }
{
    let mut round = Round::Over;
    for writer in 0..writers {
        round = round.with(visit_one(roamer, writer, sink));
    }
    round
}

/// Takes a turn of each worker that is here.
fn take_turns<I, G>(workplaces: &mut [Workplace<I, G>]) -> Round
where
    I: StageIn + Send + Drop + 'static,
    G: Gate + 'static,
    ensures same { works_at I.pair I.words workplaces.new ≡ works_at I.pair I.words workplaces.old }
    ensures turns { AllZip (λ old new. (moved : Bool) × TakesOneTurn I.at I.words I.seen I.looks I.closed old new moved)
        workplaces.old workplaces.new }
{
    let mut round = Round::Over;
    for place in 0..workplaces.len() {
        if workplaces[place].take_turn() {
            round = Round::Moved;
        }
    }
    round
}

/// Goes round the writers until all of them have ended, and takes the turns of those workers that are here. Where a
/// round found nothing it naps, each time twice as long as the time before.
pub(crate) fn consume<I, O, K, G, R>(
    rt: R,
    roamer: &mut Roamer<'_, O>,
    workplaces: &mut [Workplace<I, G>],
    sink: &mut K,
    gate: &Arc<G, Global>,
)
where
    I: StageIn + Send + Drop + 'static,
    O: StageOut,
    K: Sink,
    G: Gate + 'static,
    R: Wait + Copy,
    requires known { length workplaces.old ≡ length (ends_of roamer.old) }
    requires planned { ArePlanned O.plan roamer.old }
    requires begun { is_begun roamer.old ≡ true }
    ensures roams { Roams O.got O.ended O.pair O.plan roamer.old roamer.new
        (K.put sink.old) (K.put sink.new) (K.faults sink.old) (K.faults sink.new) }
    ensures over { IsOverUpTo O.ended (length (ends_of roamer.new)) roamer.new }
    ensures same { works_at I.pair I.words workplaces.new ≡ works_at I.pair I.words workplaces.old }
    ensures others { K.rest sink.old sink.new }
{
    let pause = Parker::new();
    let mut nap = FIRST_NAP;
    let mut number = 0u64;
    for _ in rt.forever() {
        gate.round(number);
        number = number.saturating_add(1);
        let visits = visit_all(roamer, workplaces.len() as u32, sink);
        let turns = take_turns(workplaces);
        match visits.with(turns) {
            Round::Moved => nap = FIRST_NAP,
            Round::Idle => {
                pause.park_timeout(&rt, Duration::from_micros(nap));
                nap = nap.saturating_mul(2).min(LONGEST_NAP);
            }
            Round::Over => return,
        }
    }
    unreachable!()
}
