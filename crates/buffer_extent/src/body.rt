//! Reading the records of a body.

ghost use Rattle.std.specs.Prelude.{◌≡◌, ◌≢◌, ◌⊎◌, List, [], IfOk, MatchResult, Ok, Err};
ghost use Rattle.arg_records.specs.declared.call.Call.{Call};
ghost use Rattle.buffer_extent.specs.declared.fault.BodyCause.{BodyCause};
ghost use Rattle.buffer_extent.specs.Reading.{start_at, record_at};
ghost use Rattle.buffer_extent.specs.Bodies.{IsBody, BodyBreak, IsDamage};

use crate::fault::BodyFault;
use crate::kept::keep_texts;
use crate::unpack::{RecordRoom, take_start};
use arg_records::{Call, Calls};
use log_dictionary::Dictionary;
use printf_grammar::Values;
use std::alloc::Global;

/// The record at the front of bytes, kept, and the bytes behind it. It goes by the room.
fn take_record<'a>(
    alloc: Global,
    dictionary: &Dictionary,
    before: u64,
    least: u64,
    bytes: &'a [u8],
    room: &mut RecordRoom<'a>,
) -> Result<(Call, &'a [u8]), BodyFault>
    ensures record { MatchResult result
        (λ pair. record_at dictionary.now before least bytes.now ≡ Ok (pair.0, pair.1.now))
        (IsDamage (λ cause. record_at dictionary.now before least bytes.now ≡ Err cause)) }

    // The record is judged before any memory is wanted.
    ensures broken { (cause : BodyCause) → record_at dictionary.now before least bytes.now ≡ Err cause
        → result ≡ Err (BodyFault.Damaged cause) }
{
    let (head, rest) = take_start(dictionary, before, least, bytes, &mut room.numbers)?;
    let types = dictionary.message(head.id).format.types();
    let numbers = &room.numbers[..types.len()];
    let mut args = Values::make(alloc);
    let rest = keep_texts(alloc, types, numbers, rest, &mut room.args, &mut args)?;
    let call = Call {
        stamp: head.stamp,
        id: head.id,
        args,
    };
    Ok((call, rest))
}

/// The records of a body. `base` is the tick of the clock, from which the first step counts; `last`
/// is the last stamp of the writer, or the tick.
pub fn read_body(
    alloc: Global,
    body: &[u8],
    dictionary: &Dictionary,
    base: u64,
    last: u64,
) -> Result<Calls, BodyFault>
    ensures ok { IfOk result (λ records. IsBody dictionary.now base last records body.now) }

    // A body is read, and bytes that break the rules are refused, unless memory runs out.
    ensures only { (records : List Call) → IsBody dictionary.now base last records body.now → MatchResult result
        (λ read. read ≡ records)
        (λ fault. fault ≡ BodyFault.NoMemory) }
    ensures damaged { (cause : BodyCause) → result ≡ Err (BodyFault.Damaged cause)
        → BodyBreak dictionary.now base last body.now cause }
    ensures broken { (cause : BodyCause) → BodyBreak dictionary.now base last body.now cause → MatchResult result
        (λ read. ⊥)
        (λ fault. (fault ≡ BodyFault.Damaged cause) ⊎ (fault ≡ BodyFault.NoMemory)) }

    // No memory is wanted for no records, and how the first one starts is judged before any is.
    ensures empty { body.now ≡ [] → result ≡ Ok [] }
    ensures no_start { (cause : BodyCause) → body.now ≢ [] → start_at dictionary.now base last body.now ≡ Err cause
        → result ≡ Err (BodyFault.Damaged cause) }
{
    let mut room = RecordRoom::new();
    let mut records = Calls::make(alloc);
    let mut before = base;
    let mut least = last;
    let mut rest = body;
    while !rest.is_empty() {
        let (call, back) = take_record(alloc, dictionary, before, least, rest, &mut room)?;
        before = call.stamp;
        least = call.stamp;
        let Ok(()) = records.push(call) else {
            return Err(BodyFault::NoMemory);
        };
        rest = back;
    }
    Ok(records)
}
