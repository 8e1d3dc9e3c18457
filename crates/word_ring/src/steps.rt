//! The steps of a ring's ends, each on one word of the table. Each is a step of the machine, and is to be one that the
//! machine doesn't bar.

ghost use Rattle.std.specs.Prelude.{◌≡◌, ◌+◌, ◌/◌, ◌%◌, ◌≤◌, ◌<◌, true, None};
ghost use Rattle.ring_core.specs.declared.limits.TheConstants.{MAX_POSITION};
ghost use Rattle.ring_core.specs.Plans.{Lawful};
ghost use Rattle.ring_machine.specs.declared.steps.StepKind.TheVariants as steps;
ghost use Rattle.ring_machine.specs.Streams.{FitsWithin};
ghost use Rattle.word_ring.specs.Ends.{IsTableSize};
ghost use Rattle.word_ring.specs.Plays.{written_by, read_by, HasReadFront};
ghost use Rattle.word_ring.specs.Plays.{writer_barred, roamer_barred, put_step};
ghost use Rattle.word_ring.specs.Plays.{having_looked, having_put, having_published, having_closed};
ghost use Rattle.word_ring.specs.Plays.{having_loaded, having_read, having_released};
ghost use Rattle.word_ring.specs.Rule.{plan_in};
ghost use Rattle.word_ring.specs.Seats.{view, IsSeatOf, IsSameSeat};

use crate::known::{Close, Known, Load, Look, Publish, Put, Read, Release, Ringed, Settle};
use crate::places::{CONSUMER, DATA, PRODUCER};
use atomic_table::{Seat, Table};
use std::alloc::Global;

/// The table of a ring.
pub type WordTable = Table<(), Known, usize, Ringed, Global>;

/// A seat of a ring's table.
pub type WordSeat = Seat<(), Known>;

/// The writer looks how far places are released.
pub fn look(table: &WordTable, seat: &mut WordSeat) -> u64
    requires seat { IsSeatOf (view seat.old).size table.now seat.old }
    requires writes { (view seat.old).writes ≡ true }
    requires not_barred { writer_barred (view seat.old) steps.Look ≡ None }
    ensures same { IsSameSeat seat.old seat.new }
    ensures knows { view seat.new ≡ having_looked (view seat.old) result }
    ensures further { (view seat.old).writer.seen ≤ result }
    ensures within { result ≤ (written_by (view seat.old)).at }
    ensures lap { (written_by (view seat.old)).at ≤ result + (view seat.old).size }
{
    table.shared.load::<Look>(seat, CONSUMER)
}

/// The writer stores the next word of its stream.
pub fn put(table: &WordTable, seat: &mut WordSeat, place: usize, word: u64)
    requires seat { IsSeatOf (view seat.old).size table.now seat.old }
    requires writes { (view seat.old).writes ≡ true }
    requires not_barred { writer_barred (view seat.old) (put_step (view seat.old) word) ≡ None }
    requires place { place ≡ (written_by (view seat.old)).at % (view seat.old).size }
    requires size { IsTableSize (view seat.old).size }
    requires lawful { Lawful (plan_in (view seat.old)) (written_by (having_put (view seat.old) word)).frames }
    ensures same { IsSameSeat seat.old seat.new }
    ensures knows { view seat.new ≡ having_put (view seat.old) word }
{
    table.shared.store::<Put>(seat, DATA + place, word);
}

/// The writer publishes all that it has stored, up to this position.
pub fn publish(table: &WordTable, seat: &mut WordSeat, at: u64)
    requires seat { IsSeatOf (view seat.old).size table.now seat.old }
    requires writes { (view seat.old).writes ≡ true }
    requires not_barred { writer_barred (view seat.old) steps.Publish ≡ None }
    requires at { (at ≡ (written_by (view seat.old)).at) × (at ≤ MAX_POSITION) }
    ensures same { IsSameSeat seat.old seat.new }
    ensures knows { view seat.new ≡ having_published (view seat.old) }
{
    table.shared.store::<Publish>(seat, PRODUCER, 2 * at);
}

/// The writer closes the ring, all of which is published, up to this position.
pub fn close(table: &WordTable, seat: &mut WordSeat, at: u64)
    requires seat { IsSeatOf (view seat.old).size table.now seat.old }
    requires writes { (view seat.old).writes ≡ true }
    requires not_barred { writer_barred (view seat.old) steps.Close ≡ None }
    requires at { (at ≡ (written_by (view seat.old)).at) × (at ≤ MAX_POSITION) }
    ensures same { IsSameSeat seat.old seat.new }
    ensures knows { view seat.new ≡ having_closed (view seat.old) }
{
    table.shared.store::<Close>(seat, PRODUCER, 2 * at + 1);
}

/// The roamer loads the producer word.
pub fn load(table: &WordTable, seat: &mut WordSeat) -> u64
    requires seat { IsSeatOf (view seat.old).size table.now seat.old }
    requires reads { (view seat.old).reads ≡ true }
    ensures same { IsSameSeat seat.old seat.new }
    ensures knows { view seat.new ≡ having_loaded (view seat.old) result }
    ensures further { (read_by (view seat.old)).at ≤ result / 2 }
{
    table.shared.load::<Load>(seat, PRODUCER)
}

/// The roamer reads the next word of the writer's stream.
pub fn read(table: &WordTable, seat: &mut WordSeat, place: usize) -> u64
    requires seat { IsSeatOf (view seat.old).size table.now seat.old }
    requires reads { (view seat.old).reads ≡ true }
    requires not_barred { roamer_barred (view seat.old) steps.Read ≡ None }
    requires place { place ≡ (read_by (view seat.old)).at % (view seat.old).size }
    requires size { IsTableSize (view seat.old).size }
    ensures same { IsSameSeat seat.old seat.new }
    ensures knows { view seat.new ≡ having_read (view seat.old) result }
    ensures fits { FitsWithin (view seat.old).size (view seat.old).roamer.loaded (read_by (view seat.old)) result }
    ensures lawful { Lawful (plan_in (view seat.old)) (read_by (view seat.new)).frames }
{
    table.shared.load::<Read>(seat, DATA + place)
}

/// The roamer releases all places that it has read, up to this position.
pub fn release(table: &WordTable, seat: &mut WordSeat, at: u64)
    requires seat { IsSeatOf (view seat.old).size table.now seat.old }
    requires reads { (view seat.old).reads ≡ true }
    requires not_barred { roamer_barred (view seat.old) steps.Release ≡ None }
    requires at { at ≡ (read_by (view seat.old)).at }
    ensures same { IsSameSeat seat.old seat.new }
    ensures knows { view seat.new ≡ having_released (view seat.old) }
{
    table.shared.store::<Release>(seat, CONSUMER, at);
}

/// A seat that knows what both ends did learns that what was read is the front of what was stored.
pub fn settle(table: &WordTable, seat: &mut WordSeat)
    requires seat { IsSeatOf (view seat.old).size table.now seat.old }
    requires writes { (view seat.old).writes ≡ true }
    requires reads { (view seat.old).reads ≡ true }
    ensures same { IsSameSeat seat.old seat.new }
    ensures knows { view seat.new ≡ view seat.old }
    ensures settled { HasReadFront (view seat.old) }
{
    table.shared.load::<Settle>(seat, PRODUCER);
}
