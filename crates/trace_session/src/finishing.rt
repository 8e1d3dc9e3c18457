//! What workers leave when they are done.

ghost use Rattle.std.specs.Prelude.{◌≡◌, ◌≤◌, ◌++◌, ◌∷◌, [], ℕ, List, true, length, map, IfOk};
ghost use Rattle.trace_text.specs.declared.trace.TheConstants.{MAX_CALLS};
ghost use Rattle.trace_session.specs.Drops.{call_count};
ghost use Rattle.trace_session.specs.Workers.{work_of};
ghost use Rattle.trace_session.specs.Finishing.{work_at, works_of};
ghost use Rattle.trace_session.specs.Workplaces.{works_at};

use crate::drops::Dropped;
use crate::gate::Gate;
use crate::worker::Worker;
use crate::workplace::Workplace;
use log_session::Writer;
use ring_core::StageIn;
use session_options::{Options, Policy};
use std::alloc::{AllocError, Global};
use std::marker::Model;
use std::sync::Wait;
use std::thread::Threads;
use trace_text::{Trace, WriterCalls};

/// The number of all calls.
pub(crate) fn count_calls(writers: &WriterCalls) -> usize
    requires few { call_count writers.now ≤ MAX_CALLS }
    ensures { result ≡ call_count writers.now }
{
    let mut count = 0;
    for calls in writers {
        count += calls.len();
    }
    count
}

/// What the first writers of a run leave.
#[derive(Drop)]
pub(crate) struct Finished<'d, S: StageIn> {
    pub(crate) trace: &'d Trace,
    pub(crate) options: Options,
    pub(crate) drops: Vec<Dropped>,
    pub(crate) writers: Vec<Writer<S>>,
}

impl<'d, S: StageIn> Model for Finished<'d, S> {
    ghost use Rattle.trace_session.specs.Finishing.{FinishedView, AreDone};
    ghost use Rattle.trace_session.specs.FinishedInside.{finished_of, HasFinishRoom};

    ghost Value = { FinishedView S };

    ghost view = { finished_of };

    ghost invariant = { λ f. AreDone S.sent S.closed (finished_of f) × HasFinishRoom f };
}

impl<'d, S: StageIn + Drop> Finished<'d, S> {
    ghost use Rattle.trace_session.specs.Finishing.{AreDone};

    /// Nothing, with room for all writers of the run, and for all its calls where these may be dropped.
    pub(crate) fn make(
        alloc: Global,
        trace: &'d Trace,
        options: &Options,
    ) -> Result<Finished<'d, S>, AllocError>
        ensures { IfOk result (λ finished. finished ≡ record {
          run = trace.now;
          options = options.now;
          drops = [];
          writers = [];
        }) }
    {
        let writers = Vec::with_capacity(alloc, trace.writers.len())?;
        let mut drops = Vec::new(alloc);
        if options.policy == Policy::Shed {
            drops.reserve_exact(count_calls(&trace.writers))?;
        }
        Ok(Finished {
            trace,
            options: *options,
            drops,
            writers,
        })
    }

    /// Adds what the worker of the next writer leaves.
    fn add<G: Gate>(&mut self, worker: Worker<S, G>)
        requires next { (pair : List ℕ) × (work_of S.pair S.words worker
            ≡ work_at self.old.run self.old.options (length self.old.writers, pair)) }
        requires finished { worker.progress.closed ≡ true }
        ensures same { (self.new.run ≡ self.old.run) × (self.new.options ≡ self.old.options) }
        ensures one_more { map (λ writer. S.pair writer.end) self.new.writers
            ≡ map (λ writer. S.pair writer.end) self.old.writers ++ S.pair worker.writer.end ∷ [] }
    {
        let (writer, mut drops) = worker.into_parts();
        let Ok(()) = self.drops.append(&mut drops) else {
            unreachable!();
        };
        self.writers.push_reserved(writer);
    }

    /// Adds what the workers of all writers leave, when they have ended.
    pub(crate) fn add_all<G, R>(&mut self, rt: R, workplaces: Vec<Workplace<S, G>>)
    where
        S: Send + 'static,
        G: Gate + 'static,
        R: Threads + Wait + Copy,
        requires nothing { self.old.writers ≡ [] }
        requires works { works_at S.pair S.words workplaces.items
            ≡ works_of self.old.run self.old.options (map (λ work. work.pair) (works_at S.pair S.words workplaces.items)) }
        requires count { length workplaces.items ≡ length self.old.run.writers }
        ensures same { (self.new.run ≡ self.old.run) × (self.new.options ≡ self.old.options) }
        ensures all { length self.new.writers ≡ length self.new.run.writers }
        ensures rings { map (λ writer. S.pair writer.end) self.new.writers
            ≡ map (λ work. work.pair) (works_at S.pair S.words workplaces.items) }
    {
        for workplace in workplaces {
            self.add(workplace.leave(rt));
        }
    }

    /// The drops, and the writers.
    pub(crate) fn into_parts(self) -> (Vec<Dropped>, Vec<Writer<S>>)
        ensures drops { result.0.items ≡ self.entry.drops }
        ensures writers { result.1.items ≡ self.entry.writers }
        ensures done { AreDone S.sent S.closed self.entry }
    {
        let Finished {
            trace: _,
            options: _,
            drops,
            writers,
        } = self;
        (drops, writers)
    }
}
