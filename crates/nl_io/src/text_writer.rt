//! A text on its way to a sink.

ghost use Rattle.std.specs.Prelude.{◌≡◌, ◌+◌, ◌≤◌, ◌++◌, [], length, IsOk, OnOk, OnErr};
ghost use Rattle.nl_io.specs.Content.{with_end};
ghost use Rattle.nl_io.specs.TextWriters.{Carries, IsCutOff, text_of_pieces};

use crate::failed::Failed;
use crate::sink::{Sink, write_all};
use arrayvec::ArrayVec;
use std::marker::Model;

/// The most bytes of a text that are held back.
pub const MAX_HELD: usize = 16_384;

/// A text on its way to a sink. What isn't put yet is held back until there is enough for a large write, and takes no
/// memory that could be wanting. In contracts a writer is the bytes that it holds back.
///
/// All calls of one writer are given the same sink. The text ends with [`TextWriter::flush`].
#[derive(Drop)]
pub struct TextWriter {
    held: ArrayVec<u8, MAX_HELD>,
}

impl Model for TextWriter {
    ghost use Rattle.std.specs.Prelude.{ℕ, List};

    ghost Value = { List ℕ };

    ghost view = { λ writer. writer.held.items };
}

impl TextWriter {
    /// A writer that holds nothing back.
    pub fn make() -> TextWriter
        ensures { result ≡ [] }
    {
        TextWriter {
            held: ArrayVec::new(),
        }
    }

    /// Puts the bytes behind the text, or holds them back where there is room.
    ///
    /// # Errors
    ///
    /// The sink failed. A front of the text went out then, and the rest of it is lost.
    pub fn put<K: Sink>(&mut self, sink: &mut K, bytes: &[u8]) -> Result<(), Failed>
        ensures ok { OnOk result (Carries (self.old ++ bytes.now) (K.put sink.old) (K.put sink.new) self.new) }
        ensures counted { OnOk result (K.faults sink.new ≡ K.faults sink.old) }
        ensures cut_off { OnErr result (IsCutOff (self.old ++ bytes.now) (K.put sink.old) (K.put sink.new)
            (K.faults sink.old) (K.faults sink.new)) }
        ensures lost { OnErr result (self.new ≡ []) }
        ensures others { K.rest sink.old sink.new }

        // Where there is room the sink isn't asked.
        ensures room { length self.old + length bytes.now ≤ MAX_HELD
            → IsOk result × (K.put sink.new ≡ K.put sink.old) }
    {
        match self.held.try_extend_from_slice(bytes) {
            Ok(()) => Ok(()),
            Err(_) => self.put_held(sink, bytes),
        }
    }

    // Puts what is held back, and then the bytes where there is never room for them.
    fn put_held<K: Sink>(&mut self, sink: &mut K, bytes: &[u8]) -> Result<(), Failed>
        ensures ok { OnOk result (Carries (self.old ++ bytes.now) (K.put sink.old) (K.put sink.new) self.new) }
        ensures counted { OnOk result (K.faults sink.new ≡ K.faults sink.old) }
        ensures cut_off { OnErr result (IsCutOff (self.old ++ bytes.now) (K.put sink.old) (K.put sink.new)
            (K.faults sink.old) (K.faults sink.new)) }
        ensures lost { OnErr result (self.new ≡ []) }
        ensures others { K.rest sink.old sink.new }
    {
        self.flush(sink)?;
        match self.held.try_extend_from_slice(bytes) {
            Ok(()) => Ok(()),
            Err(_) => write_all(sink, bytes),
        }
    }

    /// Puts the pieces behind the text, one behind the other.
    ///
    /// # Errors
    ///
    /// The sink failed. A front of the text went out then, and the rest of it is lost.
    pub fn put_pieces<K: Sink>(&mut self, sink: &mut K, pieces: &[&str]) -> Result<(), Failed>
        ensures ok { OnOk result (Carries (self.old ++ text_of_pieces pieces.now) (K.put sink.old) (K.put sink.new)
            self.new) }
        ensures counted { OnOk result (K.faults sink.new ≡ K.faults sink.old) }
        ensures cut_off { OnErr result (IsCutOff (self.old ++ text_of_pieces pieces.now) (K.put sink.old)
            (K.put sink.new) (K.faults sink.old) (K.faults sink.new)) }
        ensures lost { OnErr result (self.new ≡ []) }
        ensures others { K.rest sink.old sink.new }
    {
        for piece in pieces {
            self.put(sink, piece.as_bytes())?;
        }
        Ok(())
    }

    /// Puts what is held back.
    ///
    /// # Errors
    ///
    /// The sink failed. A front of the text went out then, and the rest of it is lost.
    pub fn flush<K: Sink>(&mut self, sink: &mut K) -> Result<(), Failed>
        ensures ok { OnOk result (K.put sink.new ≡ with_end self.old (K.put sink.old)) }
        ensures counted { OnOk result (K.faults sink.new ≡ K.faults sink.old) }
        ensures cut_off { OnErr result (IsCutOff self.old (K.put sink.old) (K.put sink.new)
            (K.faults sink.old) (K.faults sink.new)) }
        ensures empty { self.new ≡ [] }
        ensures others { K.rest sink.old sink.new }
    {
        let written = write_all(sink, self.held.as_slice());
        self.held.clear();
        written
    }
}
