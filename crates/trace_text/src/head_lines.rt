//! The lines of the version, of clocks and of the number of writers.

ghost use Rattle.std.specs.Prelude.{◌≡◌};
ghost use Rattle.trace_text.specs.LineFields.{version_at, clock_of, clock_at, writers_at};

use log_dictionary::{Clock, read_number, split_at_byte};
use session_options::{is_known, most_writers};

/// The version that the first line of a trace says.
pub(crate) fn read_version(line: &[u8]) -> Option<u8>
    ensures { result ≡ version_at line.now }
{
    let number = read_number(line.strip_prefix(b"nanolog-trace ")?)?;
    if number > u64::from(u8::MAX) || !is_known(number as u8) {
        return None;
    }
    Some(number as u8)
}

// The tick, the nanoseconds and the rate of a clock.
fn clock_of(fields: &[u8]) -> Option<Clock>
    ensures { result ≡ clock_of fields.now }
{
    let (tick, rest) = split_at_byte(fields, b' ')?;
    let tick = read_number(tick)?;
    let (nanos, rate) = split_at_byte(rest, b' ')?;
    let nanos = read_number(nanos)?;
    let rate = read_number(rate)?;
    if rate == 0 {
        return None;
    }
    Some(Clock { tick, nanos, rate })
}

/// What a line of a clock says.
pub(crate) fn read_clock(line: &[u8]) -> Option<Clock>
    ensures { result ≡ clock_at line.now }
{
    clock_of(line.strip_prefix(b"clock ")?)
}

/// The number of writers that their line says, in a trace of the version.
pub(crate) fn read_writers(version: u8, line: &[u8]) -> Option<u32>
    ensures { result ≡ writers_at version line.now }
{
    let field = line.strip_prefix(b"writers ")?;
    let count = read_number(field)?;
    if count < 1 || count > u64::from(most_writers(version)) {
        return None;
    }
    Some(count as u32)
}
