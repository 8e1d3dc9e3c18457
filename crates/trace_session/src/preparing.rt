//! What a run needs before it begins.

ghost use Rattle.std.specs.Prelude.{◌≡◌, ◌⊎◌, ◌↔◌, ◌<◌, ◌≤◌, ◌++◌, ◌∷◌, [], false, All, length, map, IfOk, OnOk, IsErrOf};
ghost use Rattle.std.specs.Arc.{arc_value};
ghost use Rattle.log_dictionary.specs.Clocks.{first_tick};
ghost use Rattle.session_options.specs.declared.limits.TheConstants.{MIN_RING, MAX_RING, MAX_BATCH};
ghost use Rattle.session_options.specs.declared.version.TheConstants.{MAX_WRITERS};
ghost use Rattle.ring_core.specs.Plans.{plan_of};
ghost use Rattle.roaming_consumer.specs.Roamers.{ends_of, is_begun, RoamerStandsFor};
ghost use Rattle.trace_session.specs.Workers.{work_of};
ghost use Rattle.trace_session.specs.Finishing.{work_at, works_of};
ghost use Rattle.trace_session.specs.Running.{IsNewWriter, AreReady};

use crate::finishing::Finished;
use crate::gate::Gate;
use crate::worker::Worker;
use crate::workplace::Workplace;
use log_session::{Writer, start};
use ring_core::{Stage, StageFault, StageIn};
use roaming_consumer::Roamer;
use session_options::{MAX_RING, MIN_RING, Options};
use std::alloc::{AllocError, Global};
use std::sync::Arc;
use trace_text::Trace;

/// Adds a worker for the next writer of the run.
fn add_worker<S: StageIn + Drop, G: Gate>(
    alloc: Global,
    trace: &Arc<Trace, Global>,
    options: &Options,
    gate: &Arc<G, Global>,
    writer: Writer<S>,
    into: &mut Vec<Worker<S, G>>,
) -> Result<(), AllocError>
    requires few { length (arc_value trace.now).writers ≤ MAX_WRITERS }
    requires known { length into.old.items < length (arc_value trace.now).writers }
    requires ring { (MIN_RING ≤ options.now.ring) × (options.now.ring ≤ MAX_RING) }
    requires new { IsNewWriter options.now.ring
        (plan_of (arc_value trace.now).dictionary (first_tick (arc_value trace.now).clocks))
        S.words S.plan S.sent S.closed S.at S.seen writer }
    ensures { OnOk result (map (work_of S.pair S.words) into.new.items ≡ map (work_of S.pair S.words) into.old.items
        ++ work_at (arc_value trace.now) options.now (length into.old.items, S.pair writer.end) ∷ []) }
{
    let number = into.len() as u32;
    let worker = Worker::make(
        alloc,
        trace.clone()?,
        gate.clone()?,
        options,
        number,
        writer,
    )?;
    into.push(worker)?;
    Ok(())
}

/// Workers for the writers of the run, in their order.
fn make_workers<S: StageIn + Drop, G: Gate>(
    alloc: Global,
    trace: &Arc<Trace, Global>,
    options: &Options,
    gate: &Arc<G, Global>,
    writers: Vec<Writer<S>>,
) -> Result<Vec<Worker<S, G>>, AllocError>
    requires few { length (arc_value trace.now).writers ≤ MAX_WRITERS }
    requires count { length writers.items ≡ length (arc_value trace.now).writers }
    requires ring { (MIN_RING ≤ options.now.ring) × (options.now.ring ≤ MAX_RING) }
    requires new { All (IsNewWriter options.now.ring
        (plan_of (arc_value trace.now).dictionary (first_tick (arc_value trace.now).clocks))
        S.words S.plan S.sent S.closed S.at S.seen) writers.items }
    ensures { IfOk result (λ workers. map (work_of S.pair S.words) workers.items ≡ works_of (arc_value trace.now)
        options.now (map (λ writer. S.pair writer.end) writers.items)) }
{
    let mut workers = Vec::with_capacity(alloc, writers.len())?;
    for writer in writers {
        add_worker(alloc, trace, options, gate, writer, &mut workers)?;
    }
    Ok(workers)
}

/// The workers of the run's writers, and the roamer that takes their calls.
pub(crate) fn prepare<'d, S: Stage, G: Gate>(
    alloc: Global,
    trace: &'d Arc<Trace, Global>,
    options: &Options,
    gate: &Arc<G, Global>,
) -> Result<(Vec<Worker<S::In, G>>, Roamer<'d, S::Out>), StageFault>
    requires batch { (1 ≤ options.now.batch) × (options.now.batch ≤ MAX_BATCH) }
    ensures bad_size { IsErrOf result StageFault.BadSize
        ↔ ((options.now.ring < MIN_RING) ⊎ (MAX_RING < options.now.ring)) }
    ensures ready { IfOk result (λ both. AreReady S.Out.pair S.Out.plan (arc_value trace.now) options.now
        (map (work_of S.In.pair S.In.words) both.0.items) both.1) }
    ensures stands { IfOk result (λ both. (is_begun both.1 ≡ false) × RoamerStandsFor S.Out.got S.Out.ended both.1 []) }
    ensures fresh { IfOk result (λ both. All (λ end. S.Out.ended end ≡ false) (ends_of both.1)) }
{
    if options.ring < MIN_RING || MAX_RING < options.ring {
        return Err(StageFault::BadSize);
    }
    let writers = trace.writers.len() as u32;
    let (writers, roamer) = start::<S>(
        alloc,
        options.ring,
        writers,
        options.batch,
        trace.version,
        &trace.clocks,
        &trace.dictionary,
    )?;
    match make_workers(alloc, trace, options, gate, writers) {
        Ok(workers) => Ok((workers, roamer)),
        Err(_) => Err(StageFault::NoMemory),
    }
}

/// What a run puts where it no longer can ask for memory.
#[derive(Drop)]
pub(crate) struct Room<'d, I: StageIn, D, G> {
    pub(crate) workplaces: Vec<Workplace<I, G>>,
    pub(crate) finished: Finished<'d, I>,
    pub(crate) settled: Vec<D>,
}

impl<'d, I: StageIn + Drop, D: Drop, G: Gate> Room<'d, I, D, G> {
    ghost use Rattle.trace_session.specs.Rooms.{IsFree};

    /// Room for a run.
    pub(crate) fn make(
        alloc: Global,
        trace: &'d Trace,
        options: &Options,
    ) -> Result<Room<'d, I, D, G>, AllocError>
        ensures { IfOk result (λ room. IsFree trace.now options.now room) }
    {
        let writers = trace.writers.len();
        Ok(Room {
            workplaces: Vec::with_capacity(alloc, writers)?,
            finished: Finished::make(alloc, trace, options)?,
            settled: Vec::with_capacity(alloc, writers)?,
        })
    }
}
