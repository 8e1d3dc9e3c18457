//! Where workers work: each in a thread of its own, or here where no thread could be started.

ghost use Rattle.std.specs.Prelude.{◌≡◌, true};
ghost use Rattle.trace_session.specs.Workers.{IsSameWork};

use crate::gate::Gate;
use crate::worker::{Turn, Worker};
use ring_core::StageIn;
use std::snapshot::Snapshot;
use std::sync::Wait;
use std::sync::atomic::Ordering;
use std::thread::{self, Promise, PromisedHandle, Threads};

/// The worker that a thread gives back is the one that it was given, which may have gone on.
#[derive(Drop)]
pub(crate) struct Returns<S: StageIn, G>(Snapshot<Worker<S, G>>);

impl<S: StageIn, G> Promise<Worker<S, G>> for Returns<S, G> {
    ghost use Rattle.trace_session.specs.Workers.{IsSameWork};

    ghost kept_by = { λ promise worker. IsSameWork S.pair S.words promise.0.value worker };
}

/// Where a worker is.
#[derive(Drop)]
pub(crate) enum Workplace<S: StageIn, G> {
    /// It works in a thread of its own.
    Away(PromisedHandle<Worker<S, G>, Returns<S, G>>),
    /// It takes its turns here.
    Here(Worker<S, G>),
}

/// Lets the worker work, unless it stays where it was made.
fn go<S: StageIn + Drop, G: Gate, R: Wait + Copy>(rt: R, worker: Worker<S, G>) -> Worker<S, G>
    ensures { IsSameWork S.pair S.words worker result }
{
    let mut worker = worker;
    if !worker.stays.load(Ordering::SeqCst) {
        worker.work(rt);
    }
    worker
}

impl<S: StageIn + Send + Drop + 'static, G: Gate + 'static> Workplace<S, G> {
    ghost use Rattle.trace_session.specs.Workers.{IsSameWork};
    ghost use Rattle.trace_session.specs.Workplaces.{worker_of, TakesOneTurn};

    /// Starts a thread for the worker. Where none can be started, the worker stays here.
    pub(crate) fn start<R>(rt: R, worker: Worker<S, G>) -> Workplace<S, G>
    where
        R: Threads + Wait + Copy + Send + 'static,
        ensures { IsSameWork S.pair S.words worker (worker_of result) }
    {
        let Ok(stays) = worker.stays.clone() else {
            return Workplace::Here(worker);
        };
        let promise = Returns(Snapshot::of(&worker));
        match thread::spawn_with(&rt, promise, move || go(rt, worker)) {
            Ok(handle) => Workplace::Away(handle),
            Err(refused) => {
                stays.store(true, Ordering::SeqCst);
                Workplace::Here((refused.value)())
            }
        }
    }

    /// Takes a turn of the worker, if it is here, and answers whether that moved it.
    pub(crate) fn take_turn(&mut self) -> bool
        ensures same { IsSameWork S.pair S.words (worker_of self.old) (worker_of self.new) }
        ensures turn { TakesOneTurn S.at S.words S.seen S.looks S.closed self.old self.new result }
    {
        match self {
            Workplace::Away(_) => false,
            Workplace::Here(worker) => worker.turn() == Turn::Moved,
        }
    }

    /// Waits for the worker's end, and gives it back.
    pub(crate) fn leave<R: Threads + Wait + Copy>(self, rt: R) -> Worker<S, G>
        ensures same { IsSameWork S.pair S.words (worker_of self) result }
        ensures finished { result.progress.closed ≡ true }
    {
        let mut worker = match self {
            Workplace::Away(handle) => handle.join(&rt),
            Workplace::Here(worker) => worker,
        };
        worker.work(rt);
        worker
    }
}
