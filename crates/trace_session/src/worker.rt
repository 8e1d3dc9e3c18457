//! Workers.

ghost use Rattle.std.specs.Prelude.{◌≡◌, ◌+◌, ◌-◌, ◌<◌, ◌≤◌, ◌↔◌, [], true, false, length, Some, IsTrue, IfOk, vec_len};
ghost use Rattle.log_dictionary.specs.Clocks.{first_tick};
ghost use Rattle.ring_core.specs.Plans.{plan_of};
ghost use Rattle.std.specs.Arc.{arc_value};
ghost use Rattle.std.specs.Vec.{vec_capacity};
ghost use Rattle.session_options.specs.declared.limits.TheConstants.{MIN_RING, MAX_RING};

use crate::drops::Dropped;
use crate::gate::Gate;
use crate::level::is_kept;
use arg_records::{Call, Calls};
use log_dictionary::Severity;
use log_session::{LogRefusal, Writer};
use ring_core::StageIn;
use session_options::{Options, Policy};
use std::alloc::{AllocError, Global};
use std::marker::Model;
use std::sync::atomic::AtomicBool;
use std::sync::{Arc, Wait};
use std::thread;
use trace_text::Trace;

/// What came of a turn.
#[derive(Clone, Copy, Debug, PartialEq, Eq)]
pub(crate) enum Turn {
    /// A call was logged or dropped, or the end was closed.
    Moved,
    /// There was no room. The same is to be tried again.
    Stuck,
    /// There was nothing left to do.
    Finished,
}

/// Makes the calls of one writer of a run.
#[derive(Drop)]
pub(crate) struct Worker<S: StageIn, G> {
    pub(crate) trace: Arc<Trace, Global>,
    pub(crate) gate: Arc<G, Global>,
    pub(crate) level: Severity,
    pub(crate) policy: Policy,
    pub(crate) number: u32,
    pub(crate) writer: Writer<S>,
    /// The place of the next call among all calls of the writer.
    pub(crate) next: usize,
    /// Whether the gate was told of the next call.
    pub(crate) announced: bool,
    pub(crate) drops: Vec<Dropped>,
    pub(crate) closed: bool,
    /// Whether no thread could be started for it.
    pub(crate) stays: Arc<AtomicBool, Global>,
}

/// Room for so many drops, where calls may be dropped.
fn room_for(alloc: Global, policy: Policy, count: usize) -> Result<Vec<Dropped>, AllocError>
    ensures none { IfOk result (λ drops. (drops.items ≡ []) × (vec_len drops ≡ 0)) }
    ensures room { IfOk result (λ drops. policy ≡ Policy.Shed → count ≤ vec_capacity drops) }
{
    let mut drops = Vec::new(alloc);
    if policy == Policy::Shed {
        drops.reserve_exact(count)?;
    }
    Ok(drops)
}

impl<S: StageIn, G> Model for Worker<S, G> {
    ghost use Rattle.trace_session.specs.Workers.{WorkerView, HasWorked, state_of};
    ghost use Rattle.trace_session.specs.WorkerInside.{worker_task, worker_progress_of, HasDropRoom};

    ghost Value = { WorkerView S };

    ghost view = { λ w. record { task = worker_task w; writer = w.writer; progress = worker_progress_of w } };

    ghost invariant = { λ w. HasWorked (worker_task w) (worker_progress_of w)
        (state_of S.plan S.words S.sent S.at S.seen S.closed w.writer) × HasDropRoom w };
}

impl<S: StageIn + Drop, G: Gate> Worker<S, G> {
    ghost use Rattle.trace_session.specs.Workers.{HasWorked, state_of, task_calls, IsSameWork, IsNextFiltered, IsNextKept};
    ghost use Rattle.trace_session.specs.Running.{IsNewWriter};
    ghost use Rattle.trace_session.specs.Turns.{SkipsFiltered, TriesCall, ClosesWriter};

    /// A worker for a writer of the run, which has logged nothing. Where calls may be dropped, the room for all of them
    /// is taken here.
    pub(crate) fn make(
        alloc: Global,
        trace: Arc<Trace, Global>,
        gate: Arc<G, Global>,
        options: &Options,
        number: u32,
        writer: Writer<S>,
    ) -> Result<Worker<S, G>, AllocError>
        requires known { number < length (arc_value trace).writers }
        requires ring { (MIN_RING ≤ options.now.ring) × (options.now.ring ≤ MAX_RING) }
        requires new { IsNewWriter options.now.ring (plan_of (arc_value trace).dictionary (first_tick (arc_value trace).clocks))
            S.words S.plan S.sent S.closed S.at S.seen writer }
        ensures task { IfOk result (λ worker. worker.task ≡ record {
          run = arc_value trace;
          level = options.now.level;
          policy = options.now.policy;
          number = number;
        }) }
        ensures writer { IfOk result (λ worker. worker.writer ≡ writer) }
    {
        let drops = room_for(
            alloc,
            options.policy,
            trace.writers.calls(number as usize).len(),
        )?;
        let stays = Arc::new(alloc, AtomicBool::new(false))?;
        Ok(Worker {
            trace,
            gate,
            level: options.level,
            policy: options.policy,
            number,
            writer,
            next: 0,
            announced: false,
            drops,
            closed: false,
            stays,
        })
    }

    /// The writer and the drops.
    pub(crate) fn into_parts(self) -> (Writer<S>, Vec<Dropped>)
        ensures writer { result.0 ≡ self.writer }
        ensures drops { result.1.items ≡ self.progress.drops }
        ensures worked { HasWorked self.task self.progress
            (state_of S.plan S.words S.sent S.at S.seen S.closed self.writer) }
    {
        let Worker {
            trace: _,
            gate: _,
            level: _,
            policy: _,
            number: _,
            writer,
            next: _,
            announced: _,
            drops,
            closed: _,
            stays: _,
        } = self;
        (writer, drops)
    }

    /// All calls of the writer.
    fn calls(&self) -> &Calls
        ensures { result.now ≡ task_calls self.now.task }
    {
        self.trace.writers.calls(self.number as usize)
    }

    /// Whether a call is next that the level doesn't keep.
    fn is_at_filtered(&self) -> bool
        ensures { IsTrue result ↔ IsNextFiltered self.now.task self.now.progress }
    {
        match self.calls().get(self.next) {
            Some(call) => !is_kept(&self.trace.dictionary, self.level, call),
            None => false,
        }
    }

    /// Passes over the next call, which the level doesn't keep.
    fn pass(&mut self)
        requires filtered { IsNextFiltered self.old.task self.old.progress }
        requires unfinished { self.old.progress.closed ≡ false }
        ensures passes { SkipsFiltered self.old self.new }
        ensures next { self.new.progress.next ≡ self.old.progress.next + 1 }
    {
        self.next += 1;
    }

    /// Passes over the next calls that the level doesn't keep.
    fn pass_filtered(&mut self)
        requires unfinished { self.old.progress.closed ≡ false }
        ensures passes { SkipsFiltered self.old self.new }
        ensures passed { ¬ (IsNextFiltered self.new.task self.new.progress) }
    {
        while self.is_at_filtered() {
            self.pass();
        }
    }

    /// Tries the next call, once: logs it, or drops it where there is no room and that is the policy. It answers
    /// whether the call was answered.
    fn log_or_shed(&mut self) -> bool
        requires unfinished { self.old.progress.closed ≡ false }
        requires next { IsNextKept self.old.task self.old.progress }
        ensures same { IsSameWork S.pair S.words self.old self.new }
        ensures tried { TriesCall S.at S.words S.seen S.looks self.old self.new result }
    {
        let call = self
            .trace
            .writers
            .calls(self.number as usize)
            .call(self.next);
        match self.writer.log(call.stamp, call.id, call.args.as_slice()) {
            Ok(()) => {
                self.next += 1;
                true
            }
            Err(LogRefusal::Full(full)) => {
                if self.policy == Policy::Wait {
                    return false;
                }
                let drop = Dropped {
                    writer: self.number,
                    ordinal: self.next as u64,
                    need: full.need,
                    room: full.room,
                };
                self.drops.push_reserved(drop);
                self.next += 1;
                true
            }
            Err(LogRefusal::TooLong) => unreachable!(),
        }
    }

    /// Closes the writer.
    fn close(&mut self)
        requires unfinished { self.old.progress.closed ≡ false }
        requires all { self.old.progress.next ≡ length (task_calls self.old.task) }
        ensures same { IsSameWork S.pair S.words self.old self.new }
        ensures closes { ClosesWriter S.closed self.old self.new }
    {
        self.writer.close();
        self.closed = true;
    }
}

impl<S: StageIn + Drop, G: Gate> Worker<S, G> {
    ghost use Rattle.trace_session.specs.Workers.{IsSameWork, IsNextFiltered, IsNextKept};
    ghost use Rattle.trace_session.specs.Turns.{TriesCall, TriesNext, IsTurn};

    /// Tells the gate that the next call is going to be tried, if it wasn't told.
    fn announce(&mut self)
        ensures { self.new ≡ self.old }
    {
        if self.announced {
            return;
        }
        self.announced = true;
        self.gate.before(self.number, self.next as u64);
    }

    /// Tells the gate that the call with this ordinal was answered.
    fn tell(&mut self, ordinal: u64)
        ensures { self.new ≡ self.old }
    {
        self.announced = false;
        self.gate.after(self.number, ordinal);
    }

    /// Tries the next call, once, and tells the gate. It answers whether the call was answered.
    fn try_call(&mut self) -> bool
        requires unfinished { self.old.progress.closed ≡ false }
        requires next { IsNextKept self.old.task self.old.progress }
        ensures same { IsSameWork S.pair S.words self.old self.new }
        ensures tried { TriesCall S.at S.words S.seen S.looks self.old self.new result }
    {
        let ordinal = self.next as u64;
        self.announce();
        let answered = self.log_or_shed();
        if answered {
            self.tell(ordinal);
        }
        answered
    }

    /// Tries the next call, which the level keeps, or closes the writer where there is none. It answers whether that
    /// moved it.
    fn try_next(&mut self) -> bool
        requires unfinished { self.old.progress.closed ≡ false }
        requires passed { ¬ (IsNextFiltered self.old.task self.old.progress) }
        ensures same { IsSameWork S.pair S.words self.old self.new }
        ensures tried { TriesNext S.at S.words S.seen S.looks S.closed self.old self.new result }
    {
        if self.next < self.calls().len() {
            return self.try_call();
        }
        self.close();
        true
    }

    /// Takes a turn: tries the next call that the level keeps, or closes the writer where there is none.
    pub(crate) fn turn(&mut self) -> Turn
        ensures same { IsSameWork S.pair S.words self.old self.new }
        ensures turn { IsTurn S.at S.words S.seen S.looks S.closed result self.old self.new }
    {
        if self.closed {
            return Turn::Finished;
        }
        self.pass_filtered();
        if self.try_next() {
            Turn::Moved
        } else {
            Turn::Stuck
        }
    }

    /// Takes turns until all is done. Where there is no room it leaves the processor to others.
    pub(crate) fn work<R: Wait + Copy>(&mut self, rt: R)
        ensures same { IsSameWork S.pair S.words self.old self.new }
        ensures finished { self.new.progress.closed ≡ true }
    {
        for _ in rt.forever() {
            match self.turn() {
                Turn::Moved => {}
                Turn::Stuck => thread::yield_now(),
                Turn::Finished => return,
            }
        }
        unreachable!()
    }
}
