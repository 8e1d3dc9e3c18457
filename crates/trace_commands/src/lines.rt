//! The lines of calls.

ghost use Rattle.std.specs.Prelude.{◌≡◌, ◌≤◌, [], ◌∷◌, ◌++◌, ℕ, Some, OnOk, map};
ghost use Rattle.log_dictionary.specs.Calls.{LogCall};
ghost use Rattle.log_dictionary.specs.Clocks.{first_tick};
ghost use Rattle.direct_printf.specs.Lines.{Line, origin_text};
ghost use Rattle.arg_records.specs.Calls.{IsCall, log_call};
ghost use Rattle.trace_text.specs.Order.{call_place, places_in_order as ordered_places};
ghost use Rattle.command_base.specs.Endings.{ending_of};
ghost use Rattle.command_base.specs.Printing.{Prints};
ghost use Rattle.trace_commands.specs.Texts.{direct_text, HasCall};

use command_base::Refusal;
use direct_printf::{Origins, line};
use log_dictionary::{Clocks, Dictionary};
use nl_io::{Sink, TextWriter};
use std::alloc::{AllocError, Global};
use trace_text::{Call, CallPlace, Trace, places_in_order};

/// Appends the line of a call of a writer.
fn append_line(
    dictionary: &Dictionary,
    origins: &Origins,
    clocks: &Clocks,
    writer: u32,
    call: &Call,
    text: &mut Vec<u8>,
) -> Result<(), AllocError>
    requires named { IsCall dictionary.now call.now }
    requires later { first_tick clocks.now ≤ call.now.stamp }
    requires origins { origins.now ≡ map origin_text dictionary.now }
    ensures { OnOk result ((ordinal : ℕ) (made : LogCall)
        → log_call dictionary.now writer (ordinal, call.now) ≡ Some made →
        text.new.items ≡ text.old.items ++ Line clocks.now made) }
{
    let message = dictionary.message(call.id);
    line(
        &clocks.at(call.stamp),
        writer,
        message,
        origins.get(call.id),
        call.stamp,
        call.args.as_slice(),
        text,
    )
}

/// The call of a run that stands at a place.
fn call_at<'a>(run: &'a Trace, place: CallPlace) -> &'a Call
    requires { (call : LogCall) × HasCall run.now call × (place ≡ call_place call) }
    ensures named { IsCall run.now.dictionary result.now }
    ensures later { first_tick run.now.clocks ≤ result.now.stamp }
    ensures made { (call : LogCall) → HasCall run.now call → place ≡ call_place call →
        log_call run.now.dictionary call.writer (call.ordinal, result.now) ≡ Some call }
{
    let calls = run.writers.calls(place.writer as usize);
    calls.call(place.ordinal as usize)
}

/// Appends the line of the call at a place of a run.
fn append_call(
    run: &Trace,
    origins: &Origins,
    place: CallPlace,
    text: &mut Vec<u8>,
) -> Result<(), AllocError>
    requires there { (call : LogCall) × HasCall run.now call × (place ≡ call_place call) }
    requires origins { origins.now ≡ map origin_text run.now.dictionary }
    ensures { OnOk result ((call : LogCall) → HasCall run.now call → place ≡ call_place call →
        text.new.items ≡ text.old.items ++ Line run.now.clocks call) }
{
    let call = call_at(run, place);
    append_line(
        &run.dictionary,
        origins,
        &run.clocks,
        place.writer,
        call,
        text,
    )
}

/// Prints the lines of the calls at the places.
fn print_places<O: Sink>(
    alloc: Global,
    run: &Trace,
    origins: &Origins,
    places: &[CallPlace],
    out: &mut O,
) -> Result<(), Refusal<'static>>
    requires places { places.now ≡ ordered_places run.now }
    requires origins { origins.now ≡ map origin_text run.now.dictionary }
    ensures printed { Prints (direct_text run.now) (O.put out.old) (O.put out.new)
        (O.faults out.old) (O.faults out.new) (ending_of result) }
    ensures others { O.rest out.old out.new }
{
    let mut writer = TextWriter::make();
    let mut line = Vec::new(alloc);
    for place in places {
        line.clear();
        append_call(run, origins, *place, &mut line)?;
        match writer.put(out, &line) {
            Ok(()) => {}
            Err(_) => return Err(Refusal::WriteFault("standard output")),
        }
    }
    match writer.flush(out) {
        Ok(()) => Ok(()),
        Err(_) => Err(Refusal::WriteFault("standard output")),
    }
}

/// Prints the lines of all calls of a run. They are never in memory all at once.
pub(crate) fn print_run<O: Sink>(
    alloc: Global,
    run: &Trace,
    out: &mut O,
) -> Result<(), Refusal<'static>>
    ensures printed { Prints (direct_text run.now) (O.put out.old) (O.put out.new)
        (O.faults out.old) (O.faults out.new) (ending_of result) }
    ensures others { O.rest out.old out.new }
{
    let places = places_in_order(alloc, run)?;
    let mut origins = Origins::make(alloc);
    origins.extend(run.dictionary.as_slice())?;
    print_places(alloc, run, &origins, &places, out)
}
