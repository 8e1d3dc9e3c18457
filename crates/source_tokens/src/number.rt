//! Preprocessing numbers.

ghost use Rattle.std.specs.Prelude.{◌≡◌, ◌≤◌, length};
ghost use Rattle.std.specs.Prelude.{◌||◌, ◌&&◌, ◌==◌};
ghost use Rattle.source_tokens.specs.Bytes.{is_number_byte, is_sign, is_exponent};
ghost use Rattle.source_tokens.specs.Forms.{is_number_tail};
ghost use Rattle.source_tokens.specs.Reading.{EndsLongest};

use crate::class::is_number_byte;
use crate::splice::past_splices;

/// Whether the byte goes on with a number behind the byte `before`, whatever follows.
fn goes_on(before: u8, byte: u8) -> bool
    ensures { result ≡ (is_number_byte byte || byte == 46 || (is_sign byte && is_exponent before)) }
{
    match byte {
        b'.' => true,
        b'+' | b'-' => matches!(before, b'e' | b'E' | b'p' | b'P'),
        _ => is_number_byte(byte),
    }
}

/// The bytes behind a number, which go on behind its byte `first`.
pub(crate) fn past_number(first: u8, bytes: &[u8]) -> &[u8]
    ensures longest { EndsLongest (is_number_tail first) bytes.now result.now }
    ensures within { length result.now ≤ length bytes.now }
{
    let mut before = first;
    let mut rest = bytes;
    while let [byte, behind @ ..] = rest {
        let behind = past_splices(behind);
        if goes_on(before, *byte) {
            before = *byte;
            rest = behind;
            continue;
        }
        if *byte != b'\'' {
            break;
        }
        match behind {
            [digit, more @ ..] if is_number_byte(*digit) => {
                before = *digit;
                rest = past_splices(more);
            }
            _ => break,
        }
    }
    rest
}
