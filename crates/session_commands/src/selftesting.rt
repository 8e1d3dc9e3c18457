//! The command `selftest`.

ghost use Rattle.std.specs.Prelude.{◌≡◌, ◌≢◌, ◌≤◌, ℕ, length, IfOk, OnErr};
ghost use Rattle.std.specs.Arc.{arc_value};
ghost use Rattle.nl_io.specs.Desk.{Desk};
ghost use Rattle.nl_io.specs.MemSinks.{sink_bytes};
ghost use Rattle.checkpoint_io.specs.declared.heads.TheConstants.{MAX_LOG};
ghost use Rattle.trace_text.specs.Recordings.{Recording, IsRecording, calls_of};
ghost use Rattle.trace_session.specs.Sessions.{IsWholeLog};
ghost use Rattle.session_options.specs.Defaults.{default_options};
ghost use Rattle.session_options.specs.declared.limits.TheConstants.{MAX_GENERATED, MAX_GENERATED_WRITERS};
ghost use Rattle.command_base.specs.Effects.{CommandEffect};
ghost use Rattle.command_base.specs.Endings.{NoMemory as WantsMemory, ending_of};
ghost use Rattle.command_base.specs.Printing.{Prints};
ghost use Rattle.command_base.specs.Scenes.{scene};
ghost use Rattle.trace_commands.specs.Texts.{direct_text};
ghost use Rattle.session_commands.specs.Selftests.{has_severity, severity_count, calls_of_severity};
ghost use Rattle.session_commands.specs.Selftests.{summary_of, summary_line, selftest_task};

use command_base::{Refusal, print_pieces};
use decompressor::{DecodeFault, decompress};
use itoa::Buffer;
use log_dictionary::{Dictionary, Severity};
use nl_io::{MemSink, MemSource, Sink};
use ring_core::Stage;
use session_options::Options;
use std::alloc::Global;
use std::sync::{Arc, Wait};
use std::thread::Threads;
use trace_generator::generate;
use trace_session::{Gate, RunFault, run};
use trace_text::{Call, Calls, Trace};

/// What is told of a session in memory.
#[derive(Clone, Copy, Debug)]
struct Summary {
    /// How many lines its log has.
    calls: u64,
    errors: u64,
    warnings: u64,
    notices: u64,
    debugs: u64,
    /// How many bytes these lines have.
    text: u64,
}

/// The log of the calls of a trace, made by a session in memory.
fn log_of<R, S, G>(
    rt: R,
    alloc: Global,
    trace: &Arc<Trace, Global>,
    gate: &Arc<G, Global>,
) -> Result<MemSink, Refusal<'static>>
where
    R: Threads + Wait + Copy + Send + 'static,
    S: Stage,
    G: Gate + 'static,
    requires recorded { IsRecording (arc_value trace.now) }
    ensures ok { IfOk result (λ sink. IsWholeLog (arc_value trace.now) default_options.batch
        (arc_value trace.now).writers (sink_bytes sink)) }
    ensures err { OnErr result (ending_of result ≡ WantsMemory) }
{
    let mut sink = MemSink::make(alloc, usize::MAX, &[])?;
    match run::<R, S, MemSink, G>(rt, alloc, trace, &Options::default(), &mut sink, gate) {
        Ok(_) => Ok(sink),
        // A sink in memory of which no call is to fail fails where memory is wanting.
        Err(RunFault::NoMemory | RunFault::SinkFault) => Err(Refusal::NoMemory),
        Err(RunFault::BadSize) => unreachable!(),
    }
}

/// How many lines a log of a trace has, and how many bytes these have.
fn read_log(alloc: Global, log: &[u8]) -> Result<(u64, u64), Refusal<'static>>
    requires whole { (run : Recording) × (batch : ℕ) × IsWholeLog run batch run.writers log.now }
    requires short { length log.now ≤ MAX_LOG }
    ensures ok { (run : Recording) (batch : ℕ) → IsWholeLog run batch run.writers log.now →
        IfOk result (λ told. (told.0 ≡ length (calls_of run)) × (told.1 ≡ length (direct_text run))) }
    ensures err { OnErr result (ending_of result ≡ WantsMemory) }
{
    let mut source = MemSource::make(alloc, log, usize::MAX, &[])?;
    let mut text = MemSink::make(alloc, usize::MAX, &[])?;
    match decompress(alloc, &mut source, &mut text) {
        Ok(report) => Ok((report.lines, text.bytes().len() as u64)),
        Err(DecodeFault::Damaged { .. }) => unreachable!(),
        // In memory nothing else can be wanting.
        Err(_) => Err(Refusal::NoMemory),
    }
}

/// Whether the call's message has this severity.
fn has_severity(dictionary: &Dictionary, severity: Severity, call: &Call) -> bool
    ensures { result ≡ has_severity dictionary.now severity call.now }
{
    match dictionary.get(call.id) {
        Some(message) => message.severity.number() == severity.number(),
        None => false,
    }
}

/// How many of the calls have this severity.
fn count_calls(dictionary: &Dictionary, severity: Severity, calls: &Calls) -> u64
    ensures count { result ≡ severity_count dictionary.now severity calls.now }
    ensures within { result ≤ length calls.now }
{
    let mut count = 0;
    for call in calls {
        if has_severity(dictionary, severity, call) {
            count += 1;
        }
    }
    count
}

/// How many calls of a trace have this severity.
fn count_severity(trace: &Trace, severity: Severity) -> u64
    ensures { result ≡ calls_of_severity trace.now severity }
{
    let mut count = 0;
    for calls in &trace.writers {
        count += count_calls(&trace.dictionary, severity, calls);
    }
    count
}

/// What is told of the session whose log this is.
fn summary_of(alloc: Global, trace: &Trace, log: &[u8]) -> Result<Summary, Refusal<'static>>
    requires log { IsWholeLog trace.now default_options.batch trace.now.writers log.now }
    requires short { length log.now ≤ MAX_LOG }
    ensures ok { IfOk result (λ summary. summary ≡ summary_of trace.now) }
    ensures err { OnErr result (ending_of result ≡ WantsMemory) }
{
    let (calls, text) = read_log(alloc, log)?;
    Ok(Summary {
        calls,
        errors: count_severity(trace, Severity::Error),
        warnings: count_severity(trace, Severity::Warning),
        notices: count_severity(trace, Severity::Notice),
        debugs: count_severity(trace, Severity::Debug),
        text,
    })
}

/// Prints the line on a session. It takes no memory.
fn print_summary<O: Sink>(out: &mut O, summary: &Summary) -> Result<(), Refusal<'static>>
    ensures printed { Prints (summary_line summary.now) (O.put out.old) (O.put out.new)
        (O.faults out.old) (O.faults out.new) (ending_of result) }
    ensures memory { ending_of result ≢ WantsMemory }
    ensures others { O.rest out.old out.new }
{
    let mut calls = Buffer::new();
    let mut errors = Buffer::new();
    let mut warnings = Buffer::new();
    let mut notices = Buffer::new();
    let mut debugs = Buffer::new();
    let mut text = Buffer::new();
    print_pieces(
        out,
        &[
            "calls ",
            calls.format(summary.calls),
            " errors ",
            errors.format(summary.errors),
            " warnings ",
            warnings.format(summary.warnings),
            " notices ",
            notices.format(summary.notices),
            " debugs ",
            debugs.format(summary.debugs),
            " text ",
            text.format(summary.text),
            "\n",
        ],
    )
}

/// Makes the calls of a generated trace in a session in memory, with the default options, decompresses its log, and
/// prints how many calls there were, how many of each severity, and how many bytes their lines have.
pub fn selftest<R, S, O, G>(
    rt: R,
    alloc: Global,
    seed: u64,
    calls: u32,
    writers: u32,
    out: &mut O,
    gate: &Arc<G, Global>,
) -> Result<(), Refusal<'static>>
where
    R: Threads + Wait + Copy + Send + 'static,
    S: Stage,
    O: Sink,
    G: Gate + 'static,
    requires few_calls { calls ≤ MAX_GENERATED }
    requires some_writer { 1 ≤ writers }
    requires few_writers { writers ≤ MAX_GENERATED_WRITERS }

    // It is given no files, so all of them stay as they are.
    ensures ends { (desk : Desk) → CommandEffect (selftest_task seed calls writers)
        (scene desk (O.put out.old) (O.faults out.old)) (scene desk (O.put out.new) (O.faults out.new))
        (ending_of result) }
    ensures others { O.rest out.old out.new }
{
    let trace = generate(alloc, seed, calls, writers)?;
    let Ok(trace) = Arc::new(alloc, trace) else {
        return Err(Refusal::NoMemory);
    };
    let log = log_of::<R, S, G>(rt, alloc, &trace, gate)?;
    let summary = summary_of(alloc, &trace, log.bytes())?;
    print_summary(out, &summary)
}
