//! Judging a body, which takes no memory.

ghost use Rattle.std.specs.Prelude.{◌≡◌, ◌↔◌, List, IfOk, MatchResult, Ok, Err};
ghost use Rattle.printf_grammar.specs.declared.argument.Value.{Value};
ghost use Rattle.arg_records.specs.declared.call.Call.{Call};
ghost use Rattle.arg_records.specs.Calls.{last_stamp};
ghost use Rattle.buffer_extent.specs.declared.fault.BodyCause.{BodyCause};
ghost use Rattle.buffer_extent.specs.Reading.{call_of, record_at};
ghost use Rattle.buffer_extent.specs.Bodies.{IsBody, BodyBreak};

use crate::fault::BodyCause;
use crate::numbers::{NO_NUMBERS, Number};
use crate::take::RecordHeader;
use crate::texts::skip_texts;
use crate::unpack::take_start;
use log_dictionary::Dictionary;
use printf_grammar::MAX_ARGUMENTS;

/// Judges the record at the front of bytes, and gives its id and stamp, with the bytes behind it. It goes by the room
/// for the numbers.
fn judge_record<'a>(
    dictionary: &Dictionary,
    before: u64,
    least: u64,
    bytes: &'a [u8],
    numbers: &mut [Number; MAX_ARGUMENTS],
) -> Result<(RecordHeader, &'a [u8]), BodyCause>
    ensures { MatchResult result
        (λ pair. (args : List Value)
        × (record_at dictionary.now before least bytes.now ≡ Ok (call_of pair.0 args, pair.1.now)))
        (λ cause. record_at dictionary.now before least bytes.now ≡ Err cause) }
{
    let (head, rest) = take_start(dictionary, before, least, bytes, numbers)?;
    let types = dictionary.message(head.id).format.types();
    let rest = skip_texts(types, &numbers[..types.len()], rest)?;
    Ok((head, rest))
}

/// Judges a body as [`crate::read_body`] does, without its records and without memory. The answer is the stamp of the
/// last record, or `last` where there is none.
pub fn judge_body(
    body: &[u8],
    dictionary: &Dictionary,
    base: u64,
    last: u64,
) -> Result<u64, BodyCause>
    ensures ok { IfOk result (λ stamp. (records : List Call) × IsBody dictionary.now base last records body.now
        × (stamp ≡ last_stamp last records)) }
    ensures broken { (cause : BodyCause) → (result ≡ Err cause) ↔ BodyBreak dictionary.now base last body.now cause }
{
    let mut numbers = NO_NUMBERS;
    let mut before = base;
    let mut least = last;
    let mut rest = body;
    while !rest.is_empty() {
        let (head, back) = judge_record(dictionary, before, least, rest, &mut numbers)?;
        before = head.stamp;
        least = head.stamp;
        rest = back;
    }
    Ok(least)
}
