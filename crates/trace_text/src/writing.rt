//! Writing the text of a trace.

ghost use Rattle.std.specs.Prelude.{◌≡◌, ◌≤◌, ◌++◌, ◌∷◌, [], length, OnOk};
ghost use Rattle.std.specs.Option.{option_map};
ghost use Rattle.std.specs.List.{flat_map, filter_map};
ghost use Rattle.trace_text.specs.Lines.{first_line, writers_line};
ghost use Rattle.trace_text.specs.Canonical.{argument_text, call_front, call_text, clock_text, made_by, made_at, front_text, Canonical, HasText};
ghost use Rattle.trace_text.specs.Traces.{TraceText};
ghost use Rattle.trace_text.specs.declared.trace.TheConstants.{MAX_TRACE};
ghost use Rattle.trace_text.specs.Writing.{KeepsWriting, Writes};
ghost use Rattle.trace_text.specs.declared.writing.WriteTraceFault.TheVariants as faults;

use crate::order::{CallPlace, places_in_order};
use crate::trace::Trace;
use arg_records::Call;
use itoa::Buffer;
use log_dictionary::{Clock, push_text};
use nl_io::{Failed, Sink, TextWriter};
use printf_grammar::Value;
use std::alloc::{AllocError, Global};

/// Why a trace wasn't written whole.
#[derive(Clone, Copy, Debug, PartialEq, Eq)]
pub enum WriteTraceFault {
    /// The sink failed.
    Failed,
    NoMemory,
}

impl From<Failed> for WriteTraceFault {
    ghost from_gives = { λ _ fault. fault ≡ faults.Failed };

    fn from(_failed: Failed) -> WriteTraceFault {
        WriteTraceFault::Failed
    }
}

impl From<AllocError> for WriteTraceFault {
    ghost from_gives = { λ _ fault. fault ≡ faults.NoMemory };

    fn from(_error: AllocError) -> WriteTraceFault {
        WriteTraceFault::NoMemory
    }
}

// An argument behind its space. After an error a part of it may stand behind what was there, here
// and below.
fn push_argument(text: &mut Vec<u8>, arg: &Value) -> Result<(), AllocError>
    ensures { OnOk result (text.new.items ≡ text.old.items ++ argument_text arg.now) }
{
    let mut buffer = Buffer::new();
    text.push(b' ')?;
    match arg {
        Value::Signed(number) => text.extend_from_slice(buffer.format(*number).as_bytes()),
        Value::Unsigned(number) => text.extend_from_slice(buffer.format(*number).as_bytes()),
        Value::Text(bytes) => push_text(text, bytes.as_slice()),
    }
}

fn push_arguments(text: &mut Vec<u8>, args: &[Value]) -> Result<(), AllocError>
    ensures { OnOk result (text.new.items ≡ text.old.items ++ flat_map argument_text args.now) }
{
    for arg in args {
        push_argument(text, arg)?;
    }
    Ok(())
}

// The line of a call up to its arguments.
fn push_call_front(text: &mut Vec<u8>, writer: u32, call: &Call) -> Result<(), AllocError>
    ensures { OnOk result (text.new.items ≡ text.old.items
        ++ call_front (made_by writer call.now)) }
{
    let mut buffer = Buffer::new();
    text.extend_from_slice(b"call ")?;
    text.extend_from_slice(buffer.format(writer).as_bytes())?;
    text.push(b' ')?;
    text.extend_from_slice(buffer.format(call.stamp).as_bytes())?;
    text.push(b' ')?;
    text.extend_from_slice(buffer.format(call.id).as_bytes())?;
    Ok(())
}

fn push_call(text: &mut Vec<u8>, writer: u32, call: &Call) -> Result<(), AllocError>
    ensures { OnOk result (text.new.items ≡ text.old.items
        ++ call_text (made_by writer call.now)) }
{
    push_call_front(text, writer, call)?;
    push_arguments(text, call.args.as_slice())?;
    text.push(b'\n')?;
    Ok(())
}

fn push_clock(text: &mut Vec<u8>, clock: &Clock) -> Result<(), AllocError>
    ensures { OnOk result (text.new.items ≡ text.old.items ++ clock_text clock.now) }
{
    let mut buffer = Buffer::new();
    text.extend_from_slice(b"clock ")?;
    text.extend_from_slice(buffer.format(clock.tick).as_bytes())?;
    text.push(b' ')?;
    text.extend_from_slice(buffer.format(clock.nanos).as_bytes())?;
    text.push(b' ')?;
    text.extend_from_slice(buffer.format(clock.rate).as_bytes())?;
    text.push(b'\n')?;
    Ok(())
}

fn push_clocks(text: &mut Vec<u8>, clocks: &[Clock]) -> Result<(), AllocError>
    ensures { OnOk result (text.new.items ≡ text.old.items ++ flat_map clock_text clocks.now) }
{
    for clock in clocks {
        push_clock(text, clock)?;
    }
    Ok(())
}

fn push_version(text: &mut Vec<u8>, version: u8) -> Result<(), AllocError>
    ensures { OnOk result (text.new.items ≡ text.old.items ++ first_line version ++ 10 ∷ []) }
{
    let mut buffer = Buffer::new();
    text.extend_from_slice(b"nanolog-trace ")?;
    text.extend_from_slice(buffer.format(version).as_bytes())?;
    text.push(b'\n')?;
    Ok(())
}

fn push_writers(text: &mut Vec<u8>, count: usize) -> Result<(), AllocError>
    ensures { OnOk result (text.new.items ≡ text.old.items ++ writers_line count ++ 10 ∷ []) }
{
    let mut buffer = Buffer::new();
    text.extend_from_slice(b"writers ")?;
    text.extend_from_slice(buffer.format(count).as_bytes())?;
    text.push(b'\n')?;
    Ok(())
}

// The text up to the calls.
fn push_front(text: &mut Vec<u8>, trace: &Trace) -> Result<(), AllocError>
    ensures written { OnOk result (text.new.items ≡ text.old.items ++ front_text trace.now) }
    ensures has_text { HasText trace.now }
{
    push_version(text, trace.version)?;
    trace.dictionary.write_messages(text)?;
    push_clocks(text, trace.clocks.as_slice())?;
    push_writers(text, trace.writers.len())
}

// The call of a run that stands at a place, if one stands there.
fn call_at(trace: &Trace, place: CallPlace) -> Option<&Call>
    ensures { option_map (λ call. made_by place.writer call.now) result ≡ made_at trace.now place }
{
    let calls = trace.writers.get(place.writer as usize)?;
    calls.get(place.ordinal as usize)
}

// Writes the calls at the places behind the text.
fn write_calls<K: Sink>(
    alloc: Global,
    trace: &Trace,
    places: &[CallPlace],
    text: &mut TextWriter,
    sink: &mut K,
) -> Result<(), WriteTraceFault>
    ensures written { KeepsWriting (text.old ++ flat_map call_text (filter_map (made_at trace.now) places.now))
        (K.put sink.old) (K.put sink.new) (K.faults sink.old) (K.faults sink.new) text.new result }
    ensures others { K.rest sink.old sink.new }
{
    let mut line = Vec::new(alloc);
    for place in places {
        // At each place of the run a call stands.
        let Some(call) = call_at(trace, *place) else {
            continue;
        };
        line.clear();
        push_call(&mut line, place.writer, call)?;
        text.put(sink, &line)?;
    }
    Ok(())
}

/// Writes the canonical text of a run: each call once, by stamp, those of one stamp by writer, and
/// those of one writer in the order in which it made them.
///
/// # Errors
///
/// The sink failed, or there is no memory. A front of the text went out then.
#[tactic(auto, using(crate::proofs::CanonicalLaws::canonical_spells))]
pub fn write_trace<K: Sink>(
    alloc: Global,
    trace: &Trace,
    sink: &mut K,
) -> Result<(), WriteTraceFault>
    // All of the text goes out, or a front of it, and the fault says whether the count of faults rose.
    ensures written { Writes (Canonical trace.now) (K.put sink.old) (K.put sink.new)
        (K.faults sink.old) (K.faults sink.new) result }

    // Reading the text gives the run again, where the text is within the limit.
    ensures spelled { length (Canonical trace.now) ≤ MAX_TRACE → TraceText (Canonical trace.now) trace.now }
    ensures others { K.rest sink.old sink.new }
{
    let mut front = Vec::new(alloc);
    push_front(&mut front, trace)?;
    let places = places_in_order(alloc, trace)?;
    let mut text = TextWriter::make();
    text.put(sink, &front)?;
    write_calls(alloc, trace, &places, &mut text, sink)?;
    text.put(sink, b"end\n")?;
    text.flush(sink)?;
    Ok(())
}
