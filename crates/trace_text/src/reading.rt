//! Reading the text of a trace.

ghost use Rattle.std.specs.Prelude.{◌≡◌, ℕ, ◌≤◌, List, [], ◌∷◌, ◌++◌, true, Ok, Err, length, sum_by, IfOk, IfErr, IfSome, OnOk, IsErrOf};
ghost use Rattle.nl_io.specs.Count.{Rose};
ghost use Rattle.nl_io.specs.Content.{IsAtEnd};
ghost use Rattle.log_dictionary.specs.declared.clock.Clock.{Clock as ClockValue};
ghost use Rattle.log_dictionary.specs.declared.message.Message.{Message};
ghost use Rattle.log_dictionary.specs.Clocks.{FitsClock, FollowsClocks};
ghost use Rattle.session_options.specs.Versions.{is_known, most_writers, MayHaveClocks};
ghost use Rattle.trace_text.specs.Recordings.{start_of};
ghost use Rattle.trace_text.specs.Reading as parts;
ghost use Rattle.trace_text.specs.Progress.{progress, Comes, ReadsToEnd, message_fault, call_fault};
ghost use Rattle.trace_text.specs.TraceReading.{IsAnswer, IsOnlyAnswer};
ghost use Rattle.trace_text.specs.Canonical.{HaveMessageLines};

use crate::call_line::{CallFault, read_call};
use crate::cause::TraceCause;
use crate::head_lines::{read_clock, read_version, read_writers};
use crate::lines::Lines;
use crate::trace::{MAX_TRACE, Trace};
use crate::writer_calls::WriterCalls;
use log_dictionary::{Clock, Clocks, Dictionary, LineFault, MAX_CLOCKS};
use nl_io::{ReadAllFault, Source, read_to_limit};
use session_options::has_clocks;
use std::alloc::{AllocError, Global};

/// The last line of a trace.
const LAST_LINE: &[u8] = b"end";

/// Why a source gave no trace.
#[derive(Clone, Copy, Debug, PartialEq, Eq)]
pub enum TraceFault {
    /// The source failed.
    ReadFault,
    /// The text is refused at a line, counted from 1. A text that is too large is refused at line 0.
    Refused { line: u64, cause: TraceCause },
    NoMemory,
}

/// A text that is too large is refused as a whole.
pub(crate) const TOO_LARGE: TraceFault = TraceFault::Refused {
    line: 0,
    cause: TraceCause::TooLarge,
};

// The version, and the lines behind the first one.
fn read_header(lines: Lines<'_>) -> Result<(u8, Lines<'_>), TraceFault>
    ensures front { Comes (progress parts.opening lines.entry)
        (λ front. progress (parts.messages front.0 []) front.1) result }
    ensures known { IfOk result (λ front. is_known front.0 ≡ true) }
{
    let Some((line, rest)) = lines.split_first() else {
        return Err(lines.refused(TraceCause::NoEnd));
    };
    let Some(version) = read_version(line) else {
        return Err(lines.refused(TraceCause::Header));
    };
    Ok((version, rest))
}

// Why a message line is refused.
pub(crate) fn message_fault(lines: Lines<'_>, fault: LineFault) -> TraceFault
    ensures { result ≡ message_fault lines.entry.number fault }
{
    match fault {
        LineFault::TooMany => lines.refused(TraceCause::TooMany),
        LineFault::BadEntry | LineFault::Order => lines.refused(TraceCause::Message),
        LineFault::NoMemory => TraceFault::NoMemory,
    }
}

// The messages and the first clock, and the lines behind it.
fn read_front(
    alloc: Global,
    mut lines: Lines<'_>,
) -> Result<(Dictionary, Clock, Lines<'_>), TraceFault>
    ensures front { (version : ℕ) → Comes (progress (parts.messages version []) lines.entry)
        (λ front. progress (parts.clocks version front.0 (front.1 ∷ [])) front.2) result }
    ensures messages { IfOk result (λ front. HaveMessageLines front.0) }
    ensures fits { IfOk result (λ front. FitsClock front.1) }
    ensures rate { IfOk result (λ front. 1 ≤ front.1.rate) }
{
    let mut dictionary = Dictionary::make(alloc);
    while let Some((line, rest)) = lines.split_first() {
        if !line.starts_with(b"message ") {
            let Some(clock) = read_clock(line) else {
                return Err(lines.refused(TraceCause::Clock));
            };
            return Ok((dictionary, clock, rest));
        }
        if let Err(fault) = dictionary.read_line(line) {
            return Err(message_fault(lines, fault));
        }
        lines = rest;
    }
    Err(lines.refused(TraceCause::NoEnd))
}

// Whether the line is to be that of a clock more.
fn is_later_clock(version: u8, line: &[u8]) -> bool
    ensures { result ≡ parts.is_later_clock version line.now }
{
    has_clocks(version) && line.starts_with(b"clock ")
}

// Adds the clock of the line to those before it.
fn add_clock(clocks: &mut Clocks, line: &[u8]) -> Result<(), TraceCause>
    ensures ok { OnOk result ((time : ClockValue) × (parts.later_clock clocks.old line.now ≡ Ok time)
        × FollowsClocks clocks.old time × FitsClock time × (clocks.new ≡ clocks.old ++ time ∷ [])) }
    ensures err { IfErr result (λ cause. parts.later_clock clocks.old line.now ≡ Err cause) }
{
    if clocks.len() == MAX_CLOCKS {
        return Err(TraceCause::TooManyClocks);
    }
    let Some(clock) = read_clock(line) else {
        return Err(TraceCause::Clock);
    };
    match clocks.add(clock) {
        Ok(()) => Ok(()),
        Err(_) => Err(TraceCause::ClockOrder),
    }
}

// The clocks, of which the first was read, and the number of writers, and the lines behind theirs.
fn read_clocks(
    version: u8,
    mut clocks: Clocks,
    mut lines: Lines<'_>,
) -> Result<(Clocks, u32, Lines<'_>), TraceFault>
    requires { MayHaveClocks version clocks }
    ensures front { (messages : List Message) → Comes (progress (parts.clocks version messages clocks) lines.entry)
        (λ front. progress (parts.calls (start_of version messages front.0 front.1)) front.2) result }
    ensures may_have { IfOk result (λ front. MayHaveClocks version front.0) }
    ensures writers { IfOk result (λ front. (1 ≤ front.1) × (front.1 ≤ most_writers version)) }
{
    while let Some((line, rest)) = lines.split_first() {
        if !is_later_clock(version, line) {
            let Some(writers) = read_writers(version, line) else {
                return Err(lines.refused(TraceCause::Writers));
            };
            return Ok((clocks, writers, rest));
        }
        if let Err(cause) = add_clock(&mut clocks, line) {
            return Err(lines.refused(cause));
        }
        lines = rest;
    }
    Err(lines.refused(TraceCause::NoEnd))
}

// A run with its version, its messages, its clocks and so many writers, before any call.
fn begin_run(
    alloc: Global,
    version: u8,
    dictionary: Dictionary,
    clocks: Clocks,
    writers: u32,
) -> Result<Trace, AllocError>
    requires known { is_known version ≡ true }
    requires messages { HaveMessageLines dictionary }
    requires may_have { MayHaveClocks version clocks }
    requires writers { (1 ≤ writers) × (writers ≤ most_writers version) }
    ensures { IfOk result (λ run. run ≡ start_of version dictionary clocks writers) }
{
    let writers = WriterCalls::without_calls(alloc, writers)?;
    Ok(Trace {
        version,
        dictionary,
        clocks,
        writers,
    })
}

// The run, where nothing follows its last line.
fn read_nothing(run: Trace, lines: Lines<'_>) -> Result<Trace, TraceFault>
    ensures { ReadsToEnd (progress (parts.ended run) lines.entry) result }
{
    if lines.is_empty() {
        Ok(run)
    } else {
        Err(lines.refused(TraceCause::AfterEnd))
    }
}

// Why a line of a call is refused.
fn call_fault(lines: Lines<'_>, fault: CallFault) -> TraceFault
    ensures { result ≡ call_fault lines.entry.number fault }
{
    match fault {
        CallFault::Refused(cause) => lines.refused(cause),
        CallFault::NoMemory => TraceFault::NoMemory,
    }
}

// The run with the calls of the lines up to the last one. Apart from what reads the front the loop has all registers.
#[inline(never)]
fn read_calls(alloc: Global, mut run: Trace, mut lines: Lines<'_>) -> Result<Trace, TraceFault>
    requires { sum_by length run.writers ≡ 0 }
    ensures { ReadsToEnd (progress (parts.calls run) lines.entry) result }
{
    let mut calls = 0;
    while let Some((line, rest)) = lines.split_first() {
        if line == LAST_LINE {
            return read_nothing(run, rest);
        }
        let (writer, call) = match read_call(alloc, &run, calls, line) {
            Ok(made) => made,
            Err(fault) => return Err(call_fault(lines, fault)),
        };
        let Ok(()) = run.push_call(writer, call) else {
            return Err(TraceFault::NoMemory);
        };
        calls += 1;
        lines = rest;
    }
    Err(lines.refused(TraceCause::NoEnd))
}

// The run of the text.
fn run_of(alloc: Global, text: &[u8]) -> Result<Trace, TraceFault>
    requires { length text.now ≤ MAX_TRACE }
    ensures answer { IsAnswer text.now result }
    ensures read { ¬ (IsErrOf result TraceFault.ReadFault) }
{
    let (version, lines) = read_header(Lines::of(text))?;
    let (dictionary, first, lines) = read_front(alloc, lines)?;
    let Ok(clocks) = Clocks::make(alloc, first) else {
        return Err(TraceFault::NoMemory);
    };
    let (clocks, writers, lines) = read_clocks(version, clocks, lines)?;
    let Ok(run) = begin_run(alloc, version, dictionary, clocks, writers) else {
        return Err(TraceFault::NoMemory);
    };
    read_calls(alloc, run, lines)
}

/// The run whose trace the text is.
pub fn read_text(alloc: Global, text: &[u8]) -> Result<Trace, TraceFault>
    // The text is the trace of the run, or is refused so.
    ensures answer { IsAnswer text.now result }
    ensures only { IsOnlyAnswer text.now result }
    ensures read { ¬ (IsErrOf result TraceFault.ReadFault) }
{
    if text.len() > MAX_TRACE {
        return Err(TOO_LARGE);
    }
    run_of(alloc, text)
}

/// The run whose trace a source has left, which is read to its end.
pub fn read_trace<S: Source>(alloc: Global, source: &mut S) -> Result<Trace, TraceFault>
    // The bytes that were left are the trace of the run, or are refused so.
    ensures answer { IfSome (S.left source.old) (λ text. IsAnswer text result) }
    ensures only { IfSome (S.left source.old) (λ text. IsOnlyAnswer text result) }
    ensures end { OnOk result (IsAtEnd (S.left source.new)) }

    // No line is judged before all of the text is there.
    ensures whole { (line : ℕ) (cause : TraceCause) → result ≡ Err (TraceFault.Refused line cause) → 1 ≤ line
        → IsAtEnd (S.left source.new) }
    ensures read_fault { IsErrOf result TraceFault.ReadFault
        → Rose (S.faults source.old) (S.faults source.new) }
    ensures counted { ¬ (IsErrOf result TraceFault.ReadFault) → S.faults source.new ≡ S.faults source.old }
    ensures count { S.faults source.old ≤ S.faults source.new }
    ensures others { S.rest source.old source.new }
{
    match read_to_limit(alloc, source, MAX_TRACE) {
        Ok(text) => run_of(alloc, &text),
        Err(ReadAllFault::Failed) => Err(TraceFault::ReadFault),
        Err(ReadAllFault::TooLarge) => Err(TOO_LARGE),
        Err(ReadAllFault::NoMemory) => Err(TraceFault::NoMemory),
    }
}
