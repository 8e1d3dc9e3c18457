ghost use Rattle.std.specs.Prelude.{◌≡◌, None};

use crate::failed::Failed;
use crate::sink::Sink;
use crate::std_calls::write_some;
use std::io::Write;

/// A writer of std as a sink, which tells nothing of the bytes.
///
/// An interrupted call is tried again up to 64 times. That the writer takes nothing of some bytes is
/// a failed call.
#[derive(Drop)]
pub struct StdSink<W: Write + Drop> {
    writer: W,
    faults: u64,
}

impl<W: Write + Drop> StdSink<W> {
    /// No call has failed yet.
    pub fn make(writer: W) -> StdSink<W>
        ensures { ⟦<StdSink<W> as Sink>⟧.faults result ≡ 0 }
    {
        StdSink { writer, faults: 0 }
    }
}

impl<W: Write + Drop> Sink for StdSink<W> {
    ghost put = { λ _. None };

    ghost faults = { λ s. s.faults };

    ghost rest = { λ _ _. Unit {0} };

    ghost rest_same = { λ _. tt };

    ghost rest_then = { λ _ _ _ _ _. tt };

    fn write(&mut self, bytes: &[u8]) -> Result<usize, Failed> {
        write_some(&mut self.writer, bytes, &mut self.faults)
    }
}
