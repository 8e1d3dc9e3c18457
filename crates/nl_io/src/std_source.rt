ghost use Rattle.std.specs.Prelude.{◌≡◌, None};

use crate::failed::Failed;
use crate::source::Source;
use crate::std_calls::read_some;
use std::io::Read;

/// A reader of std as a source, which tells nothing of the bytes.
///
/// An interrupted call is tried again up to 64 times.
#[derive(Drop)]
pub struct StdSource<R: Read + Drop> {
    reader: R,
    faults: u64,
}

impl<R: Read + Drop> StdSource<R> {
    /// No call has failed yet.
    pub fn make(reader: R) -> StdSource<R>
        ensures { ⟦<StdSource<R> as Source>⟧.faults result ≡ 0 }
    {
        StdSource { reader, faults: 0 }
    }
}

impl<R: Read + Drop> Source for StdSource<R> {
    ghost left = { λ _. None };

    ghost faults = { λ s. s.faults };

    ghost rest = { λ _ _. Unit {0} };

    ghost rest_same = { λ _. tt };

    ghost rest_then = { λ _ _ _ _ _. tt };

    fn read(&mut self, into: &mut [u8]) -> Result<usize, Failed> {
        read_some(&mut self.reader, into, &mut self.faults)
    }
}
