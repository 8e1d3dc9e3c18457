//! The end that a thread logs with.

ghost use Rattle.std.specs.Prelude.{◌≡◌, ◌≤◌, map, false, Err};
ghost use Rattle.ring_core.specs.Plans.{types_by_id};

use crate::argument::CArgument;
use log_dictionary::Dictionary;
use log_session::{JudgedRefusal, Writer};
use ring_core::{Full, MAX_POSITION, OFFER_ROOM};
use word_ring::WordIn;

/// Logs the calls of one thread at a time.
#[derive(Drop)]
pub struct WriterEnd {
    pub(crate) writer: Writer<WordIn>,
    pub(crate) dictionary: &'static Dictionary,
    ghost planned: { writer.end.plan.types ≡ types_by_id dictionary.now },
}

/// Why a call wasn't logged.
#[derive(Clone, Copy, Debug, PartialEq, Eq)]
pub enum LogFault {
    /// The writer was finished.
    Finished,
    /// The dictionary has no message with the id, or the arguments don't fit it.
    Misfit,
    /// The stamp is below that of the last call, or below the clock's tick.
    Early,
    /// The calls of the writer have taken as many words as can be counted.
    WornOut,
    /// The frame of the call would have more words than any frame.
    TooLong,
    /// The ring had too little room.
    Full(Full),
}

impl WriterEnd {
    ghost use Rattle.log_ends.specs.Arguments.{argument_given};
    ghost use Rattle.log_ends.specs.Writers.{is_finished, writer_stamp, IsWornOut, LogsCall, FinishesWriter};

    /// Logs a call, unless there is a cause not to; of several causes the first of [`LogFault`] is told. It waits for
    /// nobody, and takes no memory.
    ///
    /// # Errors
    ///
    /// Nothing was logged.
    pub fn log(&mut self, stamp: u64, id: u32, args: &[CArgument<'_>]) -> Result<(), LogFault>
        ensures { LogsCall self.old stamp id (map argument_given args.now) result self.new }
    {
        if self.writer.is_closed() {
            return Err(LogFault::Finished);
        }
        if stamp < self.writer.last_stamp() || self.writer.sent() > MAX_POSITION - OFFER_ROOM {
            return Err(self.refuse(stamp, id, args));
        }
        let Some(message) = self.dictionary.get(id) else {
            return Err(LogFault::Misfit);
        };
        let types = message.format.types();
        match self.writer.log_judged(stamp, id, types, args) {
            Ok(()) => Ok(()),
            Err(JudgedRefusal::Misfit) => Err(LogFault::Misfit),
            Err(JudgedRefusal::TooLong) => Err(LogFault::TooLong),
            Err(JudgedRefusal::Full(full)) => Err(LogFault::Full(full)),
        }
    }

    /// What is told of a call that is too early or has no words left to count: that it doesn't fit comes before both.
    #[cold]
    fn refuse(&self, stamp: u64, id: u32, args: &[CArgument<'_>]) -> LogFault
        requires unfinished { is_finished self.now ≡ false }
        requires refused { writer_stamp self.now ≤ stamp → IsWornOut self.now }
        ensures { LogsCall self.now stamp id (map argument_given args.now) (Err result) self.now }
    {
        if !self.dictionary.takes(id, args) {
            return LogFault::Misfit;
        }
        if stamp < self.writer.last_stamp() {
            return LogFault::Early;
        }
        LogFault::WornOut
    }

    /// Finishes the writer, so that nothing more is logged. It answers whether it wasn't finished before.
    pub fn finish(&mut self) -> bool
        ensures { FinishesWriter self.old result self.new }
    {
        if self.writer.is_closed() {
            return false;
        }
        self.writer.close();
        true
    }
}
