//! The command `replay`.

ghost use Rattle.std.specs.Prelude.{◌≡◌, ◌≢◌, ◌≤◌, ◌↔◌, ℕ, List, None, IsTrue, IfOk, IfErr, OnOk, IsErrOf};
ghost use Rattle.std.specs.Arc.{arc_value};
ghost use Rattle.std.specs.FinMap as map;
ghost use Rattle.nl_io.specs.Count.{Rose};
ghost use Rattle.nl_io.specs.Content.{with_end};
ghost use Rattle.nl_io.specs.Desk.{OnlyName, SameButHeld, put_by};
ghost use Rattle.session_options.specs.Bounds.{AreInBounds};
ghost use Rattle.trace_session.specs.Sessions.{IsSession, IsCutSession};
ghost use Rattle.command_base.specs.Effects.{CommandEffect};
ghost use Rattle.command_base.specs.Endings.{ending_of, refusal_ending};
ghost use Rattle.command_base.specs.HeldFiles.{IsHeld};
ghost use Rattle.command_base.specs.Scenes.{scene};
ghost use Rattle.session_commands.specs.Replays.{FitRings, GivesNoLog, run_fault_ending, replay_task};

use crate::telling::tell;
use command_base::{Refusal, ToldCause};
use nl_io::{FileSink, Files, Sink};
use ring_core::Stage;
use session_options::{MAX_SESSION_WORDS, Options};
use std::alloc::Global;
use std::mem;
use std::sync::{Arc, Wait};
use std::thread::Threads;
use trace_commands::trace_of_file;
use trace_session::{Gate, Outcome, RunFault, run};
use trace_text::Trace;

/// Makes the calls of a run, and writes their log to the created file.
fn log_calls<R, S, F, G>(
    rt: R,
    alloc: Global,
    trace: &Arc<Trace, Global>,
    options: &Options,
    files: &mut F,
    id: u32,
    gate: &Arc<G, Global>,
) -> Result<Outcome<S::Done>, RunFault>
where
    R: Threads + Wait + Copy + Send + 'static,
    S: Stage,
    F: Files,
    G: Gate + 'static,
    requires made { map.get (F.desk files.old).made id ≢ None }
    requires bounds { AreInBounds options.now }
    ensures ok { IfOk result (λ outcome. (bytes : List ℕ)
        × (put_by (F.desk files.new) id ≡ with_end bytes (put_by (F.desk files.old) id))
        × IsSession S.Done.sent S.Done.got (arc_value trace.now) options.now outcome bytes) }
    ensures sized { ¬ (IsErrOf result RunFault.BadSize) }
    ensures unbegun { IsErrOf result RunFault.NoMemory → F.desk files.new ≡ F.desk files.old }
    ensures counted { OnOk result ((F.desk files.new).write_faults ≡ (F.desk files.old).write_faults) }
    ensures cause { IsErrOf result RunFault.SinkFault
        → Rose (F.desk files.old).write_faults (F.desk files.new).write_faults }
    ensures count { (F.desk files.old).write_faults ≤ (F.desk files.new).write_faults }
    ensures cut { IsErrOf result RunFault.SinkFault → (bytes : List ℕ)
        × (put_by (F.desk files.new) id ≡ with_end bytes (put_by (F.desk files.old) id))
        × IsCutSession (arc_value trace.now) options.now bytes }
    ensures same { SameButHeld id (F.desk files.old) (F.desk files.new) }
    ensures others { F.rest files.old files.new }
{
    run::<R, S, FileSink<'_, F>, G>(
        rt,
        alloc,
        trace,
        options,
        &mut FileSink::make(files, id),
        gate,
    )
}

/// That the rings of a trace's writers would have too many words.
const RINGS_TOO_LARGE: ToldCause = ToldCause {
    number: 19,
    name: "RingsTooLarge",
};

/// Whether the rings of the run's writers have no more words together than a session may have.
fn fit_rings(run: &Trace, options: &Options) -> bool
    requires bounds { AreInBounds options.now }
    ensures { IsTrue result ↔ FitRings run.now options.now }
{
    run.writers.len() as u64 * options.ring <= MAX_SESSION_WORDS
}

/// The refusal of a log for which a session wasn't run to its end.
fn refusal_of(log: &str, fault: RunFault) -> Refusal<'_>
    requires { fault ≢ RunFault.BadSize }
    ensures { refusal_ending result ≡ run_fault_ending log.now fault }
{
    match fault {
        RunFault::BadSize => unreachable!(),
        RunFault::NoMemory => Refusal::NoMemory,
        RunFault::SinkFault => Refusal::WriteFault(log),
    }
}

/// Makes the calls of a run, and writes their log to the name, in place of what it held.
fn write_log<'a, R, S, F, G>(
    rt: R,
    alloc: Global,
    run: &Arc<Trace, Global>,
    options: &Options,
    files: &mut F,
    log: &'a str,
    gate: &Arc<G, Global>,
) -> Result<Outcome<S::Done>, Refusal<'a>>
where
    R: Threads + Wait + Copy + Send + 'static,
    S: Stage,
    F: Files,
    G: Gate + 'static,
    requires bounds { AreInBounds options.now }
    ensures ok { IfOk result (λ outcome. (bytes : List ℕ) × IsHeld (F.desk files.new) log.now bytes
        × IsSession S.Done.sent S.Done.got (arc_value run.now) options.now outcome bytes) }
    ensures counted { OnOk result ((F.desk files.new).write_faults ≡ (F.desk files.old).write_faults) }
    ensures nothing { IfErr result (λ refusal. GivesNoLog (arc_value run.now) options.now log.now (F.desk files.old)
        (F.desk files.new) (refusal_ending refusal)) }
    ensures only { OnlyName log.now (F.desk files.old) (F.desk files.new) }
    ensures others { F.rest files.old files.new }
{
    let Ok(id) = files.create(log) else {
        return Err(Refusal::WriteFault(log));
    };
    let logged = log_calls::<R, S, F, G>(rt, alloc, run, options, files, id, gate);
    let Ok(()) = files.finish(id) else {
        return Err(Refusal::WriteFault(log));
    };
    match logged {
        Ok(outcome) => Ok(outcome),
        Err(fault) => Err(refusal_of(log, fault)),
    }
}

/// Reads the run that a name holds, makes its calls through rings, writes their log to another name, and tells which
/// calls were dropped and how many were accepted, dropped and filtered. A trace is refused at line 0 where the rings of
/// its writers would have more than 67,108,864 words together. The memory of a run whose log was written isn't
/// given back before the program ends.
pub fn replay<'a, R, S, F, O, G>(
    rt: R,
    alloc: Global,
    files: &mut F,
    trace: &'a str,
    log: &'a str,
    options: &Options,
    out: &mut O,
    gate: &Arc<G, Global>,
) -> Result<(), Refusal<'a>>
where
    R: Threads + Wait + Copy + Send + 'static,
    S: Stage,
    F: Files,
    O: Sink,
    G: Gate + 'static,
    requires bounds { AreInBounds options.now }
    ensures ends { CommandEffect (replay_task trace.now log.now options.now)
        (scene (F.desk files.old) (O.put out.old) (O.faults out.old))
        (scene (F.desk files.new) (O.put out.new) (O.faults out.new)) (ending_of result) }
    ensures files_others { F.rest files.old files.new }
    ensures out_others { O.rest out.old out.new }
{
    let run = trace_of_file(alloc, files, trace)?;
    if !fit_rings(&run, options) {
        return Err(Refusal::Refused {
            name: trace,
            line: Some(0),
            cause: RINGS_TOO_LARGE,
        });
    }
    let Ok(run) = Arc::new(alloc, run) else {
        return Err(Refusal::NoMemory);
    };
    let outcome = write_log::<R, S, F, G>(rt, alloc, &run, options, files, log, gate)?;
    // The program ends soon, and its memory with it: giving that of millions of calls back one by one takes longer.
    mem::forget(run);
    tell(out, &outcome.drops, outcome.accepted, outcome.filtered)
}
