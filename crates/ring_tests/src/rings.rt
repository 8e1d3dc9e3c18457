//! Sessions that are started by hand: a writer that logs, and a roamer that visits it.

ghost use Rattle.std.specs.Prelude.{◌≡◌, ◌≤◌, ◌∷◌, [], ℕ, List, true, IfOk, length, map};
ghost use Rattle.roaming_consumer.specs.Roamers.{ends_of, is_begun, ArePlanned};

use crate::expecting::expect;
use crate::feed::{Feed, TICK, one_clock, one_ring, one_session, three_messages};
use aggregation::aggregate;
use log_session::{LogRefusal, settle, start};
use nl_io::{MemSink, MemSource};
use printf_grammar::Arg;
use ring_core::{Full, Stage, StageDone, StageFault, StageIn};
use roaming_consumer::{Roamer, SinkFault, Visit};
use session_options::{MAX_BATCH, MAX_RING};
use std::alloc::Global;
use std::marker::Model;
use std::process::Abort;
use std::sync::Wait;
use std::test::Fail;
use std::thread::{self, Threads};
use word_ring::{WordOut, WordRing};

/// How many calls go from one thread to the other.
const MANY: u64 = 100_000;

/// Both ways to make a ring judge its size.
#[test]
fn sizes(rt: HostRuntime) -> Result<(), Fail> {
    let dictionary = three_messages(rt.alloc())?;
    let clocks = one_clock(rt.alloc())?;
    for (words, want) in [
        (0, Some(StageFault::BadSize)),
        (1_023, Some(StageFault::BadSize)),
        (1_024, None),
        (1_048_576, None),
        (1_048_577, Some(StageFault::BadSize)),
        (u64::MAX, Some(StageFault::BadSize)),
    ] {
        let made = WordRing::make(rt.alloc(), words, dictionary.as_slice(), TICK);
        expect(&rt, &(words, made.err()), &(words, want));
        let started = start::<WordRing>(rt.alloc(), words, 2, 1, 2, &clocks, &dictionary);
        expect(&rt, &(words, started.err()), &(words, want));
    }
    Ok(())
}

/// The ends of a ring meet again before anything was put.
#[test]
fn unused_rings_are_settled(rt: HostRuntime) -> Result<(), Fail> {
    let dictionary = three_messages(rt.alloc())?;
    let (writer, roamer) = WordRing::make(rt.alloc(), 1_024, dictionary.as_slice(), TICK)?;
    expect(&rt, &(writer.at(), writer.words()), &(0, 1_024));
    expect(&rt, &WordRing::settle(writer, roamer).frames(), &0);
    Ok(())
}

/// A writer takes a message that it knows, with arguments that fit, and not before its last call. Once it is closed it
/// takes nothing.
#[test]
fn calls_that_a_writer_takes(rt: HostRuntime) -> Result<(), Fail> {
    let (mut feed, _) = one_ring(rt.alloc())?;
    let text = [b'x'; 4_000];
    let texts = [Arg::Text(&text), Arg::Text(&text)];
    let too_long = Some(Err(LogRefusal::TooLong));
    expect(&rt, &feed.log_number(1_003, 7), &Some(Ok(())));
    expect(&rt, &feed.log_number(1_002, 7), &None);
    expect(&rt, &feed.log_args(1_003, 3, &[]), &None);
    expect(&rt, &feed.log_args(1_003, 1, &[]), &None);
    expect(&rt, &feed.log_args(1_003, 2, &texts), &too_long);
    assert!(rt; feed.close());
    expect(&rt, &feed.log_number(1_003, 7), &None);
    Ok(())
}

/// Visits the writer of a session over one ring, whose log is begun.
#[derive(Drop)]
struct Visitor {
    roamer: Roamer<'static, WordOut>,
}

/// Contracts see which ring it is.
impl Model for Visitor {
    ghost Value = { List (List ℕ) };

    ghost view = { λ visitor. map (λ end. end.pair) (ends_of visitor.roamer) };

    ghost invariant = { λ visitor. (length (ends_of visitor.roamer) ≡ 1)
        × ArePlanned (λ end. end.plan) visitor.roamer × (is_begun visitor.roamer ≡ true) };
}

/// A session over one ring of so many words, whose log is begun.
fn begun_session(
    alloc: Global,
    ring: u64,
    batch: u32,
    sink: &mut MemSink,
) -> Result<(Feed, Visitor), Fail>
    requires { (1 ≤ batch) × (batch ≤ MAX_BATCH) }
    ensures { IfOk result (λ session. session.1 ≡ session.0.writer.end.pair ∷ []) }
{
    let (feed, mut roamer) = one_session(alloc, ring, batch)?;
    match roamer.begin(sink) {
        Ok(()) => Ok((feed, Visitor { roamer })),
        Err(SinkFault) => Err("the header can't be written".into()),
    }
}

impl Visitor {
    fn visit(&mut self, sink: &mut MemSink) -> Result<Visit, SinkFault>
        ensures { self.new ≡ self.old }
    {
        self.roamer.visit(0, sink)
    }

    fn into_roamer(self) -> Roamer<'static, WordOut>
        ensures { map (λ end. end.pair) (ends_of result) ≡ self }
    {
        let Visitor { roamer } = self;
        roamer
    }
}

/// Brings the ends of the ring together. It answers how many calls were logged, how many of them were taken, and how
/// many frames the ring tells of.
fn settled(alloc: Global, feed: Feed, visitor: Visitor) -> Result<(u64, u64, u64), Fail>
    requires { visitor ≡ feed.writer.end.pair ∷ [] }
{
    let Feed {
        writer,
        dictionary: _,
    } = feed;
    let logged = writer.accepted();
    let mut writers = Vec::new(alloc);
    writers.push(writer)?;
    let mut left = Vec::new(alloc);
    left.reserve(1)?;
    let taken = settle::<WordRing>(writers, visitor.into_roamer(), &mut left);
    Ok((logged, taken, left[0].frames()))
}

/// Logs calls until the ring has no room for a further one.
fn fill(rt: &impl Abort, feed: &mut Feed)
    ensures { feed.new.writer.end.pair ≡ feed.old.writer.end.pair }
{
    for stamp in TICK..TICK + 341 {
        expect(rt, &feed.log_number(stamp, 7), &Some(Ok(())));
    }
    let full = LogRefusal::Full(Full { need: 4, room: 1 });
    expect(rt, &feed.log_number(TICK + 341, 7), &Some(Err(full)));
}

/// A ring of 1,024 words has room for 341 frames of three words: the next would cross its end. Once a frame was taken
/// there is room again.
#[test]
fn a_full_ring_has_room_again(rt: HostRuntime) -> Result<(), Fail> {
    let mut sink = MemSink::make(rt.alloc(), 65_536, &[])?;
    let (mut feed, mut visitor) = begun_session(rt.alloc(), 1_024, 1, &mut sink)?;
    expect(&rt, &visitor.visit(&mut sink), &Ok(Visit::Idle));
    fill(&rt, &mut feed);
    expect(
        &rt,
        &(feed.writer.last_stamp(), feed.writer.asked()),
        &(1_340, 342),
    );
    expect(&rt, &visitor.visit(&mut sink), &Ok(Visit::Wrote(1)));
    expect(&rt, &feed.log_number(1_341, 7), &Some(Ok(())));
    expect(&rt, &settled(rt.alloc(), feed, visitor)?, &(342, 1, 1));
    Ok(())
}

/// Logs the numbers from 0 on, each once, and closes the writer.
fn log_all(mut feed: Feed) -> Feed
    ensures { result.writer.end.pair ≡ feed.writer.end.pair }
{
    for number in 0..MANY {
        feed.log_number(TICK + number, number as i64);
    }
    feed.close();
    feed
}

/// Visits the writer until it has ended, or a write has failed.
fn visit_all<R: Wait + Copy>(rt: R, mut visitor: Visitor, sink: &mut MemSink) -> Visitor
    ensures { result ≡ visitor }
{
    for _visit in rt.forever() {
        match visitor.visit(sink) {
            Ok(Visit::Idle) => thread::yield_now(),
            Ok(Visit::Ended) | Err(SinkFault) => break,
            Ok(Visit::Wrote(_) | Visit::Discarded(_)) => {}
        }
    }
    visitor
}

/// Logs in one thread and visits in another, and answers as [`settled`].
fn both<R: Threads + Wait + Sync>(
    rt: &R,
    alloc: Global,
    feed: Feed,
    visitor: Visitor,
    sink: &mut MemSink,
) -> Result<(u64, u64, u64), Fail>
    requires { visitor ≡ feed.writer.end.pair ∷ [] }
{
    let (feed, visitor) = thread::join(
        rt,
        move || log_all(feed),
        move || visit_all(rt, visitor, sink),
    );
    settled(alloc, feed, visitor)
}

/// One thread logs, with nothing but its writer, into a ring that has room for all calls. Another visits it. Each call
/// is taken, and the log has it once.
#[test]
fn calls_between_two_threads(rt: HostRuntime) -> Result<(), Fail> {
    let mut sink = MemSink::make(rt.alloc(), 65_536, &[])?;
    let (feed, visitor) = begun_session(rt.alloc(), MAX_RING, 4_096, &mut sink)?;
    let counts = both(&rt, rt.alloc(), feed, visitor, &mut sink)?;
    expect(&rt, &counts, &(MANY, MANY, MANY));
    let mut source = MemSource::make(rt.alloc(), sink.bytes(), 65_536, &[])?;
    let Ok(totals) = aggregate(rt.alloc(), &mut source, 1, 0) else {
        return Err("the log is damaged".into());
    };
    expect(
        &rt,
        &(totals.count, totals.range, totals.sum),
        &(MANY, Some((0, 99_999)), 4_999_950_000),
    );
    Ok(())
}
