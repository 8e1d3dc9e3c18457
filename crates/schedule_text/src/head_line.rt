//! The line of the rings.

ghost use Rattle.std.specs.Prelude.{◌≡◌, ◌≤◌, IfSome};
ghost use Rattle.std.specs.Option.{option_map};
ghost use Rattle.session_options.specs.declared.limits.TheConstants.{MIN_RING};
ghost use Rattle.ring_machine.specs.declared.rings.TheConstants.{MAX_RINGS};
ghost use Rattle.schedule_text.specs.Lines.{sizes_within, sizes_of, sizes_at, first_line_says};

use log_dictionary::{read_number, split_at_byte};
use ring_machine::MAX_RINGS;
use session_options::MIN_RING;

/// The most words of a ring of a schedule.
pub const MAX_WORDS: u64 = 65_536;

/// A number of rings, and of words of each.
fn sizes_within(count: u64, words: u64) -> Option<(u32, u64)>
    ensures { result ≡ sizes_within count words }
{
    if count < 1 || count > u64::from(MAX_RINGS) || words < MIN_RING || words > MAX_WORDS {
        return None;
    }
    Some((count as u32, words))
}

fn sizes_of(fields: &[u8]) -> Option<(u32, u64)>
    ensures { result ≡ sizes_of fields.now }
{
    let (count, words) = split_at_byte(fields, b' ')?;
    let count = read_number(count)?;
    let words = read_number(words)?;
    sizes_within(count, words)
}

/// The number of rings, and that of the words of each, which their line says.
fn sizes_at(line: &[u8]) -> Option<(u32, u64)>
    ensures { result ≡ sizes_at line.now }
{
    sizes_of(line.strip_prefix(b"rings ")?)
}

/// What the line of the rings says, the first of these bytes, and the bytes behind it.
pub(crate) fn read_sizes(bytes: &[u8]) -> Option<((u32, u64), &[u8])>
    ensures { option_map (λ found. (found.0, found.1.now)) result ≡ first_line_says sizes_at bytes.now }
{
    let (line, rest) = split_at_byte(bytes, b'\n')?;
    let sizes = sizes_at(line)?;
    Some((sizes, rest))
}
