//! The end that gives out writers.

ghost use Rattle.std.specs.Prelude.{◌≡◌};

use crate::texts::limit_of;
use crate::writer::WriterEnd;
use log_dictionary::Dictionary;
use std::collections::VecDeque;

/// Gives out the writers of a session, one after the other.
#[derive(Drop)]
pub struct SessionEnd {
    /// Those that weren't given out, in the order of their numbers.
    pub(crate) left: VecDeque<WriterEnd>,
    pub(crate) ended: bool,
    pub(crate) dictionary: &'static Dictionary,
}

/// Why no writer was given out.
#[derive(Clone, Copy, Debug, PartialEq, Eq)]
pub enum WriterFault {
    /// All were given out, or the session has ended.
    NoWriter,
    NoMemory,
}

impl SessionEnd {
    ghost use Rattle.log_ends.specs.Sessions.{session_messages, EndsSession};
    ghost use Rattle.log_ends.specs.Texts.{text_limit};

    /// Ends the giving out of writers, and finishes those that weren't given out.
    pub fn end(&mut self)
        ensures { EndsSession self.old self.new }
    {
        self.ended = true;
        for writer in self.left.make_contiguous() {
            writer.finish();
        }
    }

    /// How many bytes of a text the message with the id prints at most, where its argument `nth` is one: from 0, with
    /// those that a `*` takes. There is no answer where the message isn't there, or the argument, or is no text.
    pub fn text_limit(&self, id: u32, nth: u32) -> Option<u16>
        ensures { result ≡ text_limit (session_messages self.now) id nth }
    {
        limit_of(self.dictionary, id, nth)
    }
}
