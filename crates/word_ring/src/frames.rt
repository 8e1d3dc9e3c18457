//! Frames, stored and read word by word.

ghost use Rattle.std.specs.Prelude.{◌≡◌, ◌+◌, ◌-◌, ◌%◌, ◌≤◌, ◌∷◌, ◌++◌, [], true, false, length, take};
ghost use Rattle.arg_records.specs.declared.frame.TheConstants.{MAX_FRAME_WORDS};
ghost use Rattle.ring_core.specs.Plans.{Lawful};
ghost use Rattle.ring_machine.specs.Streams.{IsBegun};
ghost use Rattle.word_ring.specs.Counts.{CountsSteps};
ghost use Rattle.word_ring.specs.Ends.{IsTableSize};
ghost use Rattle.word_ring.specs.Frames.{with_frame, with_next, having_stored, having_put_on, MayStore, MayPut};
ghost use Rattle.word_ring.specs.Plays.{written_by, read_by};
ghost use Rattle.word_ring.specs.Rule.{plan_in};
ghost use Rattle.word_ring.specs.Seats.{view, IsSeatOf, IsSameSeat};

use crate::steps::{WordSeat, WordTable, put, read};
use arg_records::MAX_FRAME_WORDS;

/// The writer stores a frame, which begins at this place.
pub fn put_frame(table: &WordTable, seat: &mut WordSeat, place: usize, frame: &[u64])
    requires seat { IsSeatOf (view seat.old).size table.now seat.old }
    requires writes { (view seat.old).writes ≡ true }
    requires size { IsTableSize (view seat.old).size }
    requires not_closed { (view seat.old).writer.closed ≡ false }
    requires place { place ≡ (written_by (view seat.old)).at % (view seat.old).size }
    requires may { MayStore (view seat.old) frame.now }
    ensures same { IsSameSeat seat.old seat.new }
    ensures knows { view seat.new ≡ having_stored (view seat.old) frame.now (view seat.new).writer.steps }
    ensures written { written_by (view seat.new) ≡ with_frame (written_by (view seat.old)) frame.now }
    ensures steps { CountsSteps (length frame.now) (view seat.old).writer.steps (view seat.new).writer.steps }
{
    for (i, word) in frame.iter().enumerate() {
        put(table, seat, place + i, *word);
    }
}

/// The writer stores a frame from this place on, behind a wrap mark where it would cross the ring's end.
pub fn put_next(table: &WordTable, seat: &mut WordSeat, place: u64, frame: &[u64], size: u64)
    requires seat { IsSeatOf (view seat.old).size table.now seat.old }
    requires writes { (view seat.old).writes ≡ true }
    requires size { IsTableSize size }
    requires not_closed { (view seat.old).writer.closed ≡ false }
    requires told { (size ≡ (view seat.old).size) × (place ≡ (written_by (view seat.old)).at % size) }
    requires may { MayPut (view seat.old) frame.now }
    ensures same { IsSameSeat seat.old seat.new }
    ensures written { written_by (view seat.new) ≡ with_next size (written_by (view seat.old)) frame.now }
    ensures knows { view seat.new ≡ having_put_on (view seat.old) (view seat.new).writer.stream
        (view seat.new).writer.steps }
    ensures steps { CountsSteps (length frame.now + 1) (view seat.old).writer.steps (view seat.new).writer.steps }
{
    let place = place as usize;
    if place + frame.len() <= size as usize {
        put_frame(table, seat, place, frame);
        return;
    }
    put(table, seat, place, 0);
    put_frame(table, seat, 0, frame);
}

/// The roamer, which has read the first word of a frame that begins at this place, reads the others. It answers how
/// many words the frame has.
pub fn read_frame(
    table: &WordTable,
    seat: &mut WordSeat,
    place: usize,
    head: u64,
    into: &mut [u64; MAX_FRAME_WORDS],
) -> usize
    requires seat { IsSeatOf (view seat.old).size table.now seat.old }
    requires reads { (view seat.old).reads ≡ true }
    requires size { IsTableSize (view seat.old).size }
    requires head { (read_by (view seat.old)).part ≡ head ∷ [] }
    requires most { head % 65536 ≤ MAX_FRAME_WORDS }
    requires begun { IsBegun (view seat.old).size (view seat.old).roamer.loaded (read_by (view seat.old)) }
    requires place { place ≡ ((read_by (view seat.old)).at - 1) % (view seat.old).size }
    ensures same { IsSameSeat seat.old seat.new }
    ensures len { result ≡ head % 65536 }
    ensures read { read_by (view seat.new) ≡ record (read_by (view seat.old)) {
      at = (read_by (view seat.old)).at + (result - 1);
      frames = (read_by (view seat.old)).frames ++ take result into.new ∷ [];
      part = [];
    } }
    ensures lawful { Lawful (plan_in (view seat.old)) (read_by (view seat.new)).frames }
    ensures others { view seat.new ≡ record (view seat.old) {
      roamer = record (view seat.old).roamer {
        stream = (view seat.new).roamer.stream;
        steps = (view seat.new).roamer.steps;
      };
    } }
    ensures steps { CountsSteps (result - 1) (view seat.old).roamer.steps (view seat.new).roamer.steps }
{
    let len = (head % 65_536) as usize;
    into[0] = head;
    for i in 1..len {
        into[i] = read(table, seat, place + i);
    }
    len
}
