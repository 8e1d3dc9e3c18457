//! Running a session.

ghost use Rattle.std.specs.Prelude.{◌≡◌, ◌⊎◌, ◌↔◌, ◌<◌, ◌≤◌, ◌++◌, [], ℕ, List, true, Err, IfOk, OnOk, OnErr, IsErrOf, length, map, vec_len};
ghost use Rattle.std.specs.Arc.{arc_value};
ghost use Rattle.std.specs.Vec.{vec_capacity};
ghost use Rattle.nl_io.specs.Count.{Rose};
ghost use Rattle.nl_io.specs.Content.{with_end};
ghost use Rattle.session_options.specs.declared.limits.TheConstants.{MIN_RING, MAX_RING, MAX_BATCH};
ghost use Rattle.roaming_consumer.specs.Roamers.{is_begun, RoamerStandsFor};
ghost use Rattle.trace_session.specs.Sessions.{IsSession, IsCutSession};
ghost use Rattle.trace_session.specs.Running.{AreReady};
ghost use Rattle.trace_session.specs.Rooms.{IsFree};
ghost use Rattle.trace_session.specs.Workers.{work_of};
ghost use Rattle.trace_session.specs.Workplaces.{works_at};

use crate::consuming::consume;
use crate::drops::Drops;
use crate::finishing::count_calls;
use crate::gate::Gate;
use crate::outcome::{Outcome, RunFault};
use crate::preparing::{Room, prepare};
use crate::worker::Worker;
use crate::workplace::Workplace;
use log_session::settle;
use nl_io::Sink;
use ring_core::{Stage, StageFault, StageIn};
use roaming_consumer::{Roamer, SinkFault};
use session_options::Options;
use std::alloc::Global;
use std::sync::{Arc, Wait};
use std::thread::Threads;
use trace_text::Trace;

/// Starts a thread for each worker.
fn start_all<I, G, R>(rt: R, workers: Vec<Worker<I, G>>, workplaces: &mut Vec<Workplace<I, G>>)
where
    I: StageIn + Send + Drop + 'static,
    G: Gate + 'static,
    R: Threads + Wait + Copy + Send + 'static,
    requires nobody { (workplaces.old.items ≡ []) × (vec_len workplaces.old ≡ 0) }
    requires room { length workers.items ≤ vec_capacity workplaces.old }
    ensures { works_at I.pair I.words workplaces.new.items ≡ map (work_of I.pair I.words) workers.items }
{
    for worker in workers {
        workplaces.push_reserved(Workplace::start(rt, worker));
    }
}

/// Makes the calls of a run whose header was written.
fn run_begun<R, S, K, G>(
    rt: R,
    trace: &Trace,
    options: &Options,
    workers: Vec<Worker<S::In, G>>,
    roamer: Roamer<'_, S::Out>,
    room: Room<'_, S::In, S::Done, G>,
    sink: &mut K,
    gate: &Arc<G, Global>,
) -> Result<Outcome<S::Done>, SinkFault>
where
    R: Threads + Wait + Copy + Send + 'static,
    S: Stage,
    K: Sink,
    G: Gate + 'static,
    requires ready { AreReady S.Out.pair S.Out.plan trace.now options.now
        (map (work_of S.In.pair S.In.words) workers.items) roamer }
    requires begun { is_begun roamer ≡ true }
    requires free { IsFree trace.now options.now room }
    ensures ok { IfOk result (λ outcome. (bytes : List ℕ) × (K.put sink.new ≡ with_end bytes (K.put sink.old))
        × ((wrote : List ℕ) → RoamerStandsFor S.Out.got S.Out.ended roamer.entry wrote
        → IsSession S.Done.sent S.Done.got trace.now options.now outcome (wrote ++ bytes))) }
    ensures cut { OnErr result ((bytes : List ℕ) × (K.put sink.new ≡ with_end bytes (K.put sink.old))
        × ((wrote : List ℕ) → RoamerStandsFor S.Out.got S.Out.ended roamer.entry wrote
        → IsCutSession trace.now options.now (wrote ++ bytes))) }
    ensures counted { OnOk result (K.faults sink.new ≡ K.faults sink.old) }
    ensures cause { OnErr result (Rose (K.faults sink.old) (K.faults sink.new)) }
    ensures count { K.faults sink.old ≤ K.faults sink.new }
    ensures grew { (bytes : List ℕ) × (K.put sink.new ≡ with_end bytes (K.put sink.old)) }
    ensures others { K.rest sink.old sink.new }
{
    let Room {
        mut workplaces,
        mut finished,
        mut settled,
    } = room;
    let mut roamer = roamer;
    let calls = count_calls(&trace.writers) as u64;
    start_all(rt, workers, &mut workplaces);
    consume(rt, &mut roamer, &mut workplaces, sink, gate);
    finished.add_all(rt, workplaces);
    let faulted = roamer.faulted();
    let (drops, writers) = finished.into_parts();
    let accepted = settle::<S>(writers, roamer, &mut settled);
    if faulted {
        return Err(SinkFault);
    }
    let others = calls - accepted;
    Ok(Outcome {
        filtered: others - drops.len() as u64,
        drops: Drops { items: drops },
        accepted,
        settled,
    })
}

/// Makes the calls of a run that the level keeps, those of each writer in a thread of its own, and writes their log.
/// Where a thread can't be started, this one takes the turns of its writer.
///
/// # Errors
///
/// The rings' size is none, memory was wanting before anything was written, or the log couldn't be written.
pub fn run<R, S, K, G>(
    rt: R,
    alloc: Global,
    trace: &Arc<Trace, Global>,
    options: &Options,
    sink: &mut K,
    gate: &Arc<G, Global>,
) -> Result<Outcome<S::Done>, RunFault>
where
    R: Threads + Wait + Copy + Send + 'static,
    S: Stage,
    K: Sink,
    G: Gate + 'static,
    requires batch { (1 ≤ options.now.batch) × (options.now.batch ≤ MAX_BATCH) }
    ensures ok { IfOk result (λ outcome. (bytes : List ℕ) × (K.put sink.new ≡ with_end bytes (K.put sink.old))
        × IsSession S.Done.sent S.Done.got (arc_value trace.now) options.now outcome bytes) }
    ensures bad_size { IsErrOf result RunFault.BadSize
        ↔ ((options.now.ring < MIN_RING) ⊎ (MAX_RING < options.now.ring)) }
    ensures unbegun { (result ≡ Err RunFault.BadSize) ⊎ (result ≡ Err RunFault.NoMemory) → sink.new ≡ sink.old }
    ensures counted { OnOk result (K.faults sink.new ≡ K.faults sink.old) }
    ensures sink_fault { result ≡ Err RunFault.SinkFault → Rose (K.faults sink.old) (K.faults sink.new) }
    ensures cut { IsErrOf result RunFault.SinkFault
        → (bytes : List ℕ) × (K.put sink.new ≡ with_end bytes (K.put sink.old))
        × IsCutSession (arc_value trace.now) options.now bytes }
    ensures count { K.faults sink.old ≤ K.faults sink.new }
    ensures grew { (bytes : List ℕ) × (K.put sink.new ≡ with_end bytes (K.put sink.old)) }
    ensures others { K.rest sink.old sink.new }
{
    let (workers, mut roamer) = match prepare::<S, G>(alloc, trace, options, gate) {
        Ok(both) => both,
        Err(StageFault::BadSize) => return Err(RunFault::BadSize),
        Err(StageFault::NoMemory) => return Err(RunFault::NoMemory),
    };
    let Ok(room) = Room::make(alloc, trace, options) else {
        return Err(RunFault::NoMemory);
    };
    let Ok(()) = roamer.begin(sink) else {
        return Err(RunFault::SinkFault);
    };
    match run_begun::<R, S, K, G>(rt, trace, options, workers, roamer, room, sink, gate) {
        Ok(outcome) => Ok(outcome),
        Err(SinkFault) => Err(RunFault::SinkFault),
    }
}
