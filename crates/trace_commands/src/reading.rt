//! Reading a trace from a file, or the text of a dictionary.

ghost use Rattle.std.specs.Prelude.{◌≡◌, ◌≢◌, ◌≤◌, None, IfOk, IfErr, OnOk};
ghost use Rattle.std.specs.FinMap as map;
ghost use Rattle.nl_io.specs.Content.{Told};
ghost use Rattle.nl_io.specs.Desk.{IsReading, SameButLeft};
ghost use Rattle.command_base.specs.Endings.{refusal_ending};
ghost use Rattle.trace_text.specs.Dictionaries.{DictionaryBreak};
ghost use Rattle.trace_commands.specs.Traces.{TraceRead, GivesNoTrace, SaysOfTrace, trace_fault_ending};
ghost use Rattle.trace_commands.specs.Traces.{DictionaryRead, GivesNoText};

use command_base::{Refusal, ToldCause, open, read_file};
use log_dictionary::Dictionary;
use nl_io::{FileSource, Files};
use std::alloc::Global;
use trace_text::{MAX_TRACE, Trace, TraceCause, TraceFault, read_dictionary, read_trace};

/// That a file has more bytes than a text may have.
const TOO_LARGE: TraceFault = TraceFault::Refused {
    line: 0,
    cause: TraceCause::TooLarge,
};

/// The run that the open file spells, or why there is none.
fn trace_of_open<F: Files>(alloc: Global, files: &mut F, id: u32) -> Result<Trace, TraceFault>
    requires { map.get (F.desk files.old).left id ≢ None }
    ensures says { (content : Told) → IsReading (F.desk files.old) id content →
        SaysOfTrace result content (F.desk files.old).read_faults (F.desk files.new).read_faults }
    ensures count { (F.desk files.old).read_faults ≤ (F.desk files.new).read_faults }
    ensures same { SameButLeft id (F.desk files.old) (F.desk files.new) }
    ensures others { F.rest files.old files.new }
{
    read_trace(alloc, &mut FileSource::make(files, id))
}

/// The refusal of a name that gave no trace.
fn refusal_of(name: &str, fault: TraceFault) -> Refusal<'_>
    ensures { refusal_ending result ≡ trace_fault_ending name.now fault }
{
    match fault {
        TraceFault::ReadFault => Refusal::ReadFault(name),
        TraceFault::Refused { line, cause } => Refusal::Refused {
            name,
            line: Some(line),
            cause: ToldCause {
                number: cause.number(),
                name: cause.name(),
            },
        },
        TraceFault::NoMemory => Refusal::NoMemory,
    }
}

/// The run that the name holds.
///
/// # Errors
///
/// `Absent` where there is no such name, `ReadFault` where a call failed, `Refused` where it holds no trace, and
/// `NoMemory`.
pub fn trace_of_file<'a, F: Files>(
    alloc: Global,
    files: &mut F,
    name: &'a str,
) -> Result<Trace, Refusal<'a>>
    ensures found { IfOk result (TraceRead (F.desk files.old) name.now) }
    ensures same { OnOk result (F.desk files.new ≡ F.desk files.old) }
    ensures unread { IfErr result (λ refusal. GivesNoTrace name.now (F.desk files.old) (F.desk files.new)
        (refusal_ending refusal)) }
    ensures others { F.rest files.old files.new }
{
    let id = open(files, name)?;
    let read = trace_of_open(alloc, files, id);
    files.leave(id);
    match read {
        Ok(run) => Ok(run),
        Err(fault) => Err(refusal_of(name, fault)),
    }
}

/// The dictionary whose text the name holds.
///
/// # Errors
///
/// `Absent` where there is no such name, `ReadFault` where a call failed, `Refused` where it holds no such text, and
/// `NoMemory`.
pub fn dictionary_of_file<'a, F: Files>(
    alloc: Global,
    files: &mut F,
    name: &'a str,
) -> Result<Dictionary, Refusal<'a>>
    ensures found { IfOk result (DictionaryRead (F.desk files.old) name.now) }
    ensures same { OnOk result (F.desk files.new ≡ F.desk files.old) }
    ensures unread { IfErr result (λ refusal. GivesNoText DictionaryBreak name.now (F.desk files.old)
        (F.desk files.new) (refusal_ending refusal)) }
    ensures others { F.rest files.old files.new }
{
    let Some(text) = read_file(alloc, files, name, MAX_TRACE)? else {
        return Err(refusal_of(name, TOO_LARGE));
    };
    match read_dictionary(alloc, &text) {
        Ok(dictionary) => Ok(dictionary),
        Err(fault) => Err(refusal_of(name, fault)),
    }
}
