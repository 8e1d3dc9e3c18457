//! Bringing a writer and the consumer of its session together.

ghost use Rattle.std.specs.Prelude.{ℕ, List};
ghost use Rattle.log_ends.specs.Consumers.{HasGiven};
ghost use Rattle.log_ends.specs.Logged.{IsWriterOf, TakesLogged, IsInLog};

use crate::consumer::ConsumerEnd;
use crate::part_end::PartEnd;
use crate::writer::WriterEnd;
use word_ring::WordDone;

/// Brings a writer and the consumer of its session together, and gives up both. This may be done whenever no call of
/// either is being made, and what it tells is of what they are by then: so it holds at each of these moments, whether
/// this is called or not.
pub fn settle(writer: WriterEnd, consumer: ConsumerEnd, number: u32)
    requires { IsWriterOf writer consumer number }
    ensures taken { TakesLogged writer consumer number }
    ensures in_log { (given : List ℕ) → HasGiven consumer given
        → IsInLog writer consumer number given }
{
    let WriterEnd {
        writer,
        dictionary: _,
    } = writer;
    let ConsumerEnd {
        roamer,
        backlog: _,
        writers: _,
        next: _,
        over: _,
        ending: _,
        earlier: _,
    } = consumer;
    let PartEnd {
        out,
        earlier: _,
        held: _,
    } = roamer.into_ends().swap_remove(number as usize);
    drop(WordDone::of(writer.into_end(), out));
}
