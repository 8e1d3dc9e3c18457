//! Rings of atomic words.

ghost use Rattle.std.specs.Prelude.{◌≡◌, [], true, false};
ghost use Rattle.ring_core.specs.Plans.{plan_of};
ghost use Rattle.ring_machine.specs.RingStates.{new_writer, new_roamer};
ghost use Rattle.word_ring.specs.Rule.{known, newcomer};
ghost use Rattle.word_ring.specs.Seats.{view, IsSeatOf, IsSameSeat};

use crate::known::{Planned, Roles};
use crate::places::DATA;
use crate::steps::{WordSeat, WordTable};
use crate::word_done::WordDone;
use crate::word_in::WordIn;
use crate::word_out::WordOut;
use log_dictionary::Message;
use ring_core::{Stage, StageFault};
use session_options::{MAX_RING, MIN_RING};
use std::alloc::Global;
use std::marker::Brand;
use std::sync::Arc;

/// Rings each of which is a table of atomic words.
pub struct WordRing;

/// Parts the roles of writer and roamer, for calls of the messages.
fn part_roles<K: Planned>(
    table: &WordTable,
    seat: &mut WordSeat,
    messages: &[Message],
    first: u64,
) -> WordSeat
    requires plan { K.plan ≡ plan_of messages.now first }
    requires seat { IsSeatOf (view seat.old).size table.now seat.old }
    requires new { view seat.old ≡ newcomer (view seat.old).size }
    ensures same { IsSameSeat seat.old seat.new }
    ensures one { (result.table_id ≡ seat.old.table_id) × (result.me.1 ≡ []) }
    ensures writer { view seat.new
        ≡ known true false (view seat.old).size (plan_of messages.now first) new_writer new_roamer }
    ensures roamer { view result
        ≡ known false true (view seat.old).size (plan_of messages.now first) new_writer new_roamer }
{
    let _ = messages;
    let _ = first;
    table.shared.split_seat::<Roles<K>>(seat)
}

impl Stage for WordRing {
    type In = WordIn;

    type Out = WordOut;

    type Done = WordDone;

    fn make(
        alloc: Global,
        words: u64,
        messages: &[Message],
        first: u64,
    ) -> Result<(WordIn, WordOut), StageFault> {
        if words < MIN_RING || words > MAX_RING {
            return Err(StageFault::BadSize);
        }
        let size = words as usize;
        let Ok(zeros) = Vec::from_elem(alloc, 0, DATA + size) else {
            return Err(StageFault::NoMemory);
        };
        let Ok((table, mut seat)) = WordTable::of_words(alloc, &zeros, &size) else {
            return Err(StageFault::NoMemory);
        };
        let theirs = part_roles::<Brand>(&table, &mut seat, messages, first);
        let Ok(ours) = Arc::new(alloc, table) else {
            return Err(StageFault::NoMemory);
        };
        let Ok(shared) = Arc::try_clone(&ours) else {
            return Err(StageFault::NoMemory);
        };
        Ok((
            WordIn::over(ours, seat, words),
            WordOut::over(shared, theirs, words),
        ))
    }

    fn settle(writer: WordIn, roamer: WordOut) -> WordDone {
        WordDone::of(writer, roamer)
    }
}
