//! Recorded runs.

ghost use Rattle.std.specs.Prelude.{◌≡◌, ◌<◌, length, OnOk, OnErr};
ghost use Rattle.trace_text.specs.CallReading.{with_call};

use crate::writer_calls::WriterCalls;
use arg_records::Call;
use log_dictionary::{Clocks, Dictionary};
use std::alloc::AllocError;
use std::marker::Model;

/// The most calls of a run.
pub const MAX_CALLS: usize = 4_194_304;

/// The most bytes of the text of a trace.
pub const MAX_TRACE: usize = 67_108_864;

/// A recorded run of a program that logs: the version of its log, its messages, its clocks, and the calls of each
/// writer. Each run that is one can be written as a text.
#[derive(Debug, Drop)]
pub struct Trace {
    pub version: u8,
    pub dictionary: Dictionary,
    pub clocks: Clocks,
    pub writers: WriterCalls,
}

impl Model for Trace {
    ghost use Rattle.trace_text.specs.Recordings.{Recording};
    ghost use Rattle.trace_text.specs.Canonical.{HasText};

    ghost Value = { Recording };

    ghost view = { λ t. record { version = t.version; dictionary = t.dictionary; clocks = t.clocks; writers = t.writers } };

    ghost invariant = { λ t. HasText
        (record { version = t.version; dictionary = t.dictionary; clocks = t.clocks; writers = t.writers }) };
}

impl Trace {
    ghost use Rattle.trace_text.specs.Canonical.{HasText};

    /// Adds a call at the end of a writer's. Where that is refused, for want of memory, the call is dropped.
    pub fn push_call(&mut self, writer: u32, call: Call) -> Result<(), AllocError>
        requires writer { writer < length self.old.writers }
        requires has_text { HasText (with_call self.old (record { writer = writer; call = call })) }
        ensures ok { OnOk result (self.new ≡ with_call self.old (record { writer = writer; call = call })) }
        ensures err { OnErr result (self.new ≡ self.old) }
    {
        self.writers.push_call(writer, call)
    }
}
