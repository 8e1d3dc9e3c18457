//! The header of the log.

ghost use Rattle.std.specs.Prelude.{◌≡◌, true, false, OnOk, OnErr};
ghost use Rattle.checkpoint_io.specs.Blocks.{header_bytes};
ghost use Rattle.checkpoint_io.specs.Validity.{IsHeader};
ghost use Rattle.roaming_consumer.specs.Sinks.{Sends};
ghost use Rattle.roaming_consumer.specs.Roamers.{ends_of, is_begun, is_faulted, roamer_header, KeepsMarks, IsSameRun, AppendsToLog};

use crate::blocks::write_header;
use crate::roamer::Roamer;
use crate::visit::SinkFault;
use checkpoint_io::Header;
use nl_io::Sink;
use ring_core::StageOut;

impl<'d, S> Roamer<'d, S> {
    /// The header of the log.
    fn header(&self) -> Header
        ensures value { result ≡ roamer_header self.now }
        ensures right { IsHeader (roamer_header self.now) }
    {
        Header {
            version: self.version,
            writers: self.ends.len() as u32,
            clock: self.clock,
        }
    }
}

impl<'d, S: StageOut> Roamer<'d, S> {
    /// Writes the header of the log. It has no answer for want of memory.
    ///
    /// # Errors
    ///
    /// A write failed. The roamer is begun then too, and faulted.
    pub fn begin<K: Sink>(&mut self, sink: &mut K) -> Result<(), SinkFault>
        requires { is_begun self.old ≡ false }
        ensures sent { Sends result (header_bytes (roamer_header self.old))
            (K.put sink.old) (K.put sink.new) (K.faults sink.old) (K.faults sink.new) }
        ensures wrote { AppendsToLog S.got S.ended self.old self.new (K.put sink.old) (K.put sink.new) }
        ensures others { K.rest sink.old sink.new }
        ensures begun { is_begun self.new ≡ true }
        ensures ok { OnOk result (is_faulted self.new ≡ is_faulted self.old) }
        ensures err { OnErr result (is_faulted self.new ≡ true) }
        ensures marks { KeepsMarks self.old self.new }
        ensures same_ends { ends_of self.new ≡ ends_of self.old }
        ensures same_run { IsSameRun self.old self.new }
    {
        self.begun = true;
        let header = self.header();
        if write_header(&header, sink).is_err() {
            self.faulted = true;
            return Err(SinkFault);
        }
        Ok(())
    }
}
