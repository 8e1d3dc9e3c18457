//! The parts of a log.

ghost use Rattle.std.specs.Prelude.{◌≡◌, [], true, false};
ghost use Rattle.log_ends.specs.Consumers.{waiting, is_over, is_ending};
ghost use Rattle.log_ends.specs.Parting.{BeginsLog, EndsLog};

use crate::consumer::ConsumerEnd;

/// Why the part isn't ended.
#[derive(Clone, Copy, Debug, PartialEq, Eq)]
pub enum PartRefusal {
    /// All bytes of the log were given, and it has the close mark of every writer: this part is the last one.
    AtEnd,
    /// It is being ended already.
    Ending,
}

impl ConsumerEnd {
    /// Ends the part: what is still given of it are its last bytes and the close marks of the writers that have none in
    /// it. Behind them the next part begins.
    ///
    /// # Errors
    ///
    /// Why it isn't ended. The consumer is as it was.
    pub fn next_part(&mut self) -> Result<(), PartRefusal>
        ensures { EndsLog self.old result self.new }
    {
        if self.over {
            return Err(PartRefusal::AtEnd);
        }
        if self.ending {
            return Err(PartRefusal::Ending);
        }
        self.ending = true;
        self.roamer.end_part();
        Ok(())
    }

    /// Begins the next part, when all of the last one was given.
    pub(crate) fn begin_part(&mut self)
        requires none { waiting self.old ≡ [] }
        requires going { is_over self.old ≡ false }
        ensures { BeginsLog self.old self.new }
    {
        self.ending = false;
        self.earlier = self.earlier.max(self.roamer.latest());
        self.roamer.begin_part();
        if self.roamer.begin(&mut self.backlog).is_err() {
            unreachable!();
        }
    }
}
