//! The line of a step.

ghost use Rattle.std.specs.Prelude.{◌≡◌};
ghost use Rattle.std.specs.Option.{option_map};
ghost use Rattle.schedule_text.specs.Lines.{short_step, plain_step, store_at, plain_at, step_at, first_line_says};

use log_dictionary::{read_number, split_at_byte};
use ring_machine::StepKind;

const PUBLISH: &[u8] = b"publish";

const RELEASE: &[u8] = b"release";

/// The step of this short name, but for that which stores a word.
fn short_step(name: &[u8]) -> Option<StepKind>
    ensures { result ≡ short_step name.now }
{
    match name {
        b"look" => Some(StepKind::Look),
        b"skip" => Some(StepKind::Skip),
        b"close" => Some(StepKind::Close),
        b"load" => Some(StepKind::Load),
        b"read" => Some(StepKind::Read),
        _ => None,
    }
}

/// The step of this name, but for that which stores a word.
fn plain_step(name: &[u8]) -> Option<StepKind>
    ensures { result ≡ plain_step name.now }
{
    if name == PUBLISH {
        return Some(StepKind::Publish);
    }
    if name == RELEASE {
        return Some(StepKind::Release);
    }
    short_step(name)
}

/// A ring, and the word that is stored.
fn store_at(fields: &[u8]) -> Option<(u64, StepKind)>
    ensures { result ≡ store_at fields.now }
{
    let (ring, word) = split_at_byte(fields, b' ')?;
    let ring = read_number(ring)?;
    let word = read_number(word)?;
    Some((ring, StepKind::Store(word)))
}

/// A ring, for the step of this name.
fn plain_at(name: &[u8], fields: &[u8]) -> Option<(u64, StepKind)>
    ensures { result ≡ plain_at name.now fields.now }
{
    let step = plain_step(name)?;
    let ring = read_number(fields)?;
    Some((ring, step))
}

/// What a line of a step says.
fn step_at(line: &[u8]) -> Option<(u64, StepKind)>
    ensures { result ≡ step_at line.now }
{
    match split_at_byte(line, b' ')? {
        (b"store", fields) => store_at(fields),
        (name, fields) => plain_at(name, fields),
    }
}

/// What the line of a step says, the first of these bytes, and the bytes behind it.
pub(crate) fn read_step(bytes: &[u8]) -> Option<((u64, StepKind), &[u8])>
    ensures { option_map (λ found. (found.0, found.1.now)) result ≡ first_line_says step_at bytes.now }
{
    let (line, rest) = split_at_byte(bytes, b'\n')?;
    let said = step_at(line)?;
    Some((said, rest))
}
