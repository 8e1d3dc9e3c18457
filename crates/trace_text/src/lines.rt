//! The lines of a text.

ghost use Rattle.std.specs.Prelude.{◌≡◌, ◌≢◌, ◌==◌, ◌+◌, ◌^◌, ◌<◌, All, length, IfSome, IfNone};
ghost use Rattle.log_dictionary.specs.Fields.{IsFirstSplit};

use crate::cause::TraceCause;
use crate::reading::TraceFault;
use log_dictionary::split_at_byte;

/// The lines of a text that are still to come.
#[derive(Clone, Copy)]
pub(crate) struct Lines<'a> {
    /// The number of the next one, from 1.
    number: u64,
    bytes: &'a [u8],
    ghost countable: { number + length bytes.now < 2 ^ 64 },
}

impl<'a> Lines<'a> {
    /// All lines of the text.
    pub(crate) fn of(text: &'a [u8]) -> Lines<'a>
        requires { length text.now < 2 ^ 63 }
        ensures number { result.number ≡ 1 }
        ensures bytes { result.bytes.now ≡ text.now }
    {
        Lines {
            number: 1,
            bytes: text,
        }
    }

    /// Whether no byte is left.
    pub(crate) fn is_empty(self) -> bool
        ensures { result ≡ (length self.entry.bytes.now == 0) }
    {
        self.bytes.is_empty()
    }

    /// The next line, without its line feed, and the lines after it.
    pub(crate) fn split_first(self) -> Option<(&'a [u8], Lines<'a>)>
        ensures some { IfSome result (λ split. IsFirstSplit 10 self.entry.bytes.now split.0.now split.1.bytes.now) }
        ensures next { IfSome result (λ split. split.1.number ≡ self.entry.number + 1) }
        ensures none { IfNone result (All (λ byte. byte ≢ 10) self.entry.bytes.now) }
    {
        let (line, rest) = split_at_byte(self.bytes, b'\n')?;
        let rest = Lines {
            number: self.number + 1,
            bytes: rest,
        };
        Some((line, rest))
    }

    /// That the next line is refused.
    pub(crate) fn refused(self, cause: TraceCause) -> TraceFault
        ensures { result ≡ TraceFault.Refused self.entry.number cause }
    {
        TraceFault::Refused {
            line: self.number,
            cause,
        }
    }
}
