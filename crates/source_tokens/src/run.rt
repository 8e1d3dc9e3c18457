//! Runs of bytes of one class.

ghost use Rattle.std.specs.Prelude.{◌≤◌, length};
ghost use Rattle.std.specs.List.{list_all};
ghost use Rattle.source_tokens.specs.Bytes.{is_of_class};
ghost use Rattle.source_tokens.specs.Reading.{EndsLongest};

use crate::class::Class;
use crate::splice::past_splices;

/// The bytes behind the longest run of the class.
#[inline]
pub(crate) fn past_run(class: Class, bytes: &[u8]) -> &[u8]
    ensures longest { EndsLongest (list_all (is_of_class class)) bytes.now result.now }
    ensures within { length result.now ≤ length bytes.now }
{
    let mut rest = bytes;
    while let [byte, behind @ ..] = rest {
        if !class.has(*byte) {
            break;
        }
        rest = past_splices(behind);
    }
    rest
}
