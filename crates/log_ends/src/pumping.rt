//! Pumping the bytes of the log out of a consumer.

ghost use Rattle.std.specs.Prelude.{◌≡◌, ◌<◌, ◌^◌, [], true, false, length};
ghost use Rattle.log_ends.specs.Consumers.{consumer_ends, waiting, is_over, is_ending, Pumps, IfGave};
ghost use Rattle.log_ends.specs.Rounds.{IsVisited, Passes, Seeks};

use crate::consumer::{ConsumerEnd, Pumped};
use roaming_consumer::Visit;

impl ConsumerEnd {
    /// Visits a writer. What the visit writes is held back, for which there is always room.
    fn visit(&mut self, writer: u32) -> Visit
        requires known { writer < length (consumer_ends self.old) }
        requires none { waiting self.old ≡ [] }
        requires going { is_over self.old ≡ false }
        ensures { IsVisited self.old writer result self.new }
    {
        match self.roamer.visit(writer, &mut self.backlog) {
            Ok(visit) => visit,
            Err(_) => unreachable!(),
        }
    }

    /// Visits the writers from this one on, up to one of which bytes wait. It answers whether none wait and all of these
    /// writers have ended.
    fn visit_from(&mut self, first: u32) -> bool
        requires none { waiting self.old ≡ [] }
        requires going { is_over self.old ≡ false }
        ensures { Passes self.old first result self.new }
    {
        let writers = self.writers;
        let mut all_ended = true;
        for writer in first..writers {
            let visit = self.visit(writer);
            if !self.backlog.is_empty() {
                self.next = writer + 1;
                return false;
            }
            match visit {
                Visit::Ended => {}
                _ => all_ended = false,
            }
        }
        all_ended
    }

    /// Writes the close mark of the first writer that has none in the part, which is being ended. It answers whether each
    /// has one.
    fn close_next(&mut self) -> bool
        requires none { waiting self.old ≡ [] }
        requires going { is_over self.old ≡ false }
        requires ending { is_ending self.old ≡ true }
        ensures { Seeks self.old result self.new }
    {
        let next = self.next;
        let closed = self.visit_from(0);
        self.next = next;
        closed
    }

    /// Visits writers where no bytes wait, until some do. It answers whether the part has come to its end, and all of it
    /// was given.
    fn seek(&mut self) -> bool
        requires { is_over self.old ≡ false }
        ensures { Seeks self.old result self.new }
    {
        if !self.backlog.is_empty() {
            return false;
        }
        if self.ending {
            return self.close_next();
        }
        self.visit_from(self.next);
        if !self.backlog.is_empty() {
            return false;
        }
        self.visit_from(0)
    }

    /// Gives the next bytes of the log: those that wait, or else those that the next visits write. It gives what there is,
    /// though there might be more after another visit. Behind the last bytes of a part it says so once.
    pub fn pump(&mut self, into: &mut [u8]) -> Pumped
        ensures pumps { Pumps self.old into.old result self.new into.new }
        ensures bound { IfGave result (λ n. n < 2 ^ 63) }
    {
        if into.is_empty() {
            return Pumped::NoRoom;
        }
        if self.over {
            return Pumped::AtEnd;
        }
        if self.seek() {
            if self.ending {
                self.begin_part();
                return Pumped::PartOver;
            }
            self.over = true;
            return Pumped::AtEnd;
        }
        match self.backlog.give(into) {
            0 => Pumped::Nothing,
            count => Pumped::Gave(count),
        }
    }
}
