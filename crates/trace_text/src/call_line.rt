//! Lines of calls.

ghost use Rattle.std.specs.Prelude.{◌≡◌, ◌<◌, length, sum_by, slice_get, Err, IfOk, IfErr, IsOk, OnSome};
ghost use Rattle.std.specs.Option.{option_copied, option_map};
ghost use Rattle.log_dictionary.specs.declared.dictionary.TheConstants.{MAX_MESSAGES};
ghost use Rattle.trace_text.specs.LineFields.{number_before, head_of};
ghost use Rattle.trace_text.specs.CallReading.{last_stamp, call_at};
ghost use Rattle.trace_text.specs.CallAnswers.{ReadsCall};
ghost use Rattle.trace_text.specs.CallPlaces.{head_view, begun_call};

use crate::call_fields::read_arguments;
use crate::cause::TraceCause;
use crate::trace::{MAX_CALLS, Trace};
use arg_records::{Call, Calls, MAX_FRAME_WORDS};
use log_dictionary::{Dictionary, Message, split_number};
use printf_grammar::Values;
use std::alloc::Global;

/// Why a line gave no call.
#[derive(Clone, Copy, Debug, PartialEq, Eq)]
pub(crate) enum CallFault {
    Refused(TraceCause),
    NoMemory,
}

/// What a call's line says before its arguments, and the bytes from behind its id on.
#[derive(Clone, Copy)]
struct CallLineHead<'a> {
    writer: u64,
    stamp: u64,
    id: u64,
    fields: &'a [u8],
}

/// A call whose writer, stamp and id are right, before its arguments are read.
#[derive(Clone, Copy)]
struct BegunCall<'a> {
    writer: u32,
    stamp: u64,
    id: u32,
    message: &'a Message,
    fields: &'a [u8],
}

// A number and a space, and what follows the space.
#[inline(always)]
fn number_before(bytes: &[u8]) -> Option<(u64, &[u8])>
    ensures { option_map (λ found. (found.0, found.1.now)) result ≡ number_before bytes.now }
{
    match split_number(bytes) {
        None => None,
        Some((_, [])) => None,
        Some((number, [_, rest @ ..])) => Some((number, rest)),
    }
}

// A writer, a stamp and an id, and what follows them.
fn head_of(fields: &[u8]) -> Option<CallLineHead<'_>>
    ensures { option_map head_view result ≡ head_of fields.now }
{
    let (writer, rest) = number_before(fields)?;
    let (stamp, rest) = number_before(rest)?;
    let (id, fields) = split_number(rest)?;
    Some(CallLineHead {
        writer,
        stamp,
        id,
        fields,
    })
}

fn last_stamp(least: u64, calls: &Calls) -> u64
    ensures { result ≡ last_stamp least calls.now }
{
    match calls.last() {
        Some(call) => call.stamp,
        None => least,
    }
}

fn message_at(dictionary: &Dictionary, id: u64) -> Option<&Message>
    ensures value { option_copied result ≡ slice_get dictionary.now id }
    ensures bound { OnSome result (id < MAX_MESSAGES) }
{
    if id >= u64::from(dictionary.len()) {
        return None;
    }
    dictionary.get(id as u32)
}

// All of a line but its arguments.
fn begin_call<'a>(run: &'a Trace, calls: usize, line: &'a [u8]) -> Result<BegunCall<'a>, TraceCause>
    requires { calls ≡ sum_by length run.now.writers }
    ensures ok { IfOk result (λ begun. call_at run.now line.now ≡ begun_call begun) }
    ensures err { IfErr result (λ cause. call_at run.now line.now ≡ Err cause) }
{
    let Some(fields) = line.strip_prefix(b"call ") else {
        return Err(TraceCause::CallForm);
    };
    if calls >= MAX_CALLS {
        return Err(TraceCause::TooMany);
    }
    let Some(head) = head_of(fields) else {
        return Err(TraceCause::CallForm);
    };
    let Some(made) = run.writers.get(head.writer as usize) else {
        return Err(TraceCause::Writer);
    };
    let first = run.clocks.first().tick;
    if head.stamp < first {
        return Err(TraceCause::BeforeClock);
    }
    if head.stamp < last_stamp(first, made) {
        return Err(TraceCause::StampFalls);
    }
    let Some(message) = message_at(&run.dictionary, head.id) else {
        return Err(TraceCause::Id);
    };
    Ok(BegunCall {
        writer: head.writer as u32,
        stamp: head.stamp,
        id: head.id as u32,
        message,
        fields: head.fields,
    })
}

/// The writer and the call that the line says in the run, in which so many calls were made so far.
pub(crate) fn read_call(
    alloc: Global,
    run: &Trace,
    calls: usize,
    line: &[u8],
) -> Result<(u32, Call), CallFault>
    requires { calls ≡ sum_by length run.now.writers }
    ensures read { ReadsCall run.now line.now result }

    // No memory is wanted for a line that is refused.
    ensures memory { result ≡ Err CallFault.NoMemory → IsOk (call_at run.now line.now) }
{
    let begun = match begin_call(run, calls, line) {
        Ok(begun) => begun,
        Err(cause) => return Err(CallFault::Refused(cause)),
    };
    let types = begun.message.format.types();
    let mut kept = Some(Values::make(alloc));
    let words = match read_arguments(alloc, types, begun.fields, &mut kept) {
        Ok(words) => words,
        Err(cause) => return Err(CallFault::Refused(cause)),
    };
    if words > MAX_FRAME_WORDS as u64 {
        return Err(CallFault::Refused(TraceCause::TooLong));
    }
    let Some(args) = kept else {
        return Err(CallFault::NoMemory);
    };
    let call = Call {
        stamp: begun.stamp,
        id: begun.id,
        args,
    };
    Ok((begun.writer, call))
}
