//! Whole sessions, with gates that say what comes first.

ghost use Rattle.std.specs.Prelude.{◌≡◌};

use crate::expecting::expect;
use crate::late::LateStage;
use log_dictionary::Severity;
use nl_io::{MemSink, Sink};
use ring_core::{Stage, StageDone};
use session_options::{Options, Policy};
use std::alloc::Global;
use std::hint::spin_loop;
use std::process::Abort;
use std::sync::atomic::{AtomicU64, Ordering};
use std::sync::{Arc, Wait};
use std::test::Fail;
use std::thread::Threads;
use trace_session::{Dropped, FreeGate, Gate, Outcome, RunFault, run};
use trace_text::{Trace, read_text};
use word_ring::WordRing;

/// What a session needs of the machine that it runs on.
trait Machine: Abort + Threads + Wait + Copy + Send + 'static {}

impl<R: Abort + Threads + Wait + Copy + Send + 'static> Machine for R {}

/// How many turns a gate waits at most. Then it lets go and leaves a mark.
const TURNS: u64 = 200_000_000;

/// How many bytes one call of a sink takes at most.
const PIECE: usize = 65_536;

/// How many writes the log of [`MEETING`] takes, where no round begins before all calls were answered.
const WRITES: u64 = 8;

/// How a log of two writers begins, at the clock of the traces.
const HEADER: &[u8] =
    b"NLOG\x01\x02\xe8\x03\0\0\0\0\0\0\0\0\x44\x5e\x8f\x86\x05\x15\0\x94\x35\x77\0\0\0\0";

/// Two calls of each of two writers.
const MEETING: &str = "nanolog-trace 1
message 0 NOTICE 12 \"srv.cc\" \"x=%d\"
clock 1000 1514764800000000000 2000000000
writers 2
call 0 1003 0 1
call 0 1003 0 2
call 1 1003 0 3
call 1 1003 0 4
end
";

/// Calls of each severity, by each of two writers. Three of each writer's are graver than DEBUG.
const LEVELS: &str = "nanolog-trace 1
message 0 ERROR 1 \"f\" \"e%d\"
message 1 WARNING 2 \"f\" \"w%s\"
message 2 NOTICE 3 \"f\" \"n%6d\"
message 3 DEBUG 4 \"f\" \"d\"
clock 1000 1514764800000000000 2000000000
writers 2
call 0 1003 3
call 0 1003 0 1
call 1 1003 2 2
call 0 1004 1 \"a\"
call 1 1004 3
call 1 1004 3
call 0 1005 2 -3
call 1 1006 0 4
call 1 1006 1 \"\"
end
";

/// The run that a text in memory records.
fn trace_of(alloc: Global, text: &str) -> Result<Arc<Trace, Global>, Fail> {
    let trace = read_text(alloc, text.as_bytes())
        .ok()
        .ok_or("the text is a trace")?;
    Ok(Arc::new(alloc, trace)?)
}

/// Waits until the number is as large as that; else it leaves a mark.
fn wait_for(number: &AtomicU64, least: u64, late: &AtomicU64) {
    for _ in 0..TURNS {
        if number.load(Ordering::SeqCst) >= least {
            return;
        }
        spin_loop();
    }
    late.store(1, Ordering::SeqCst);
}

/// Holds the second call of each of two writers until the other's was come to.
#[derive(Drop)]
struct Meeting {
    first: AtomicU64,
    second: AtomicU64,
    late: AtomicU64,
}

impl Gate for Meeting {
    fn before(&self, writer: u32, ordinal: u64) {
        if ordinal != 1 {
            return;
        }
        let (own, other) = if writer == 0 {
            (&self.first, &self.second)
        } else {
            (&self.second, &self.first)
        };
        own.store(1, Ordering::SeqCst);
        wait_for(other, 1, &self.late);
    }

    fn after(&self, _writer: u32, _ordinal: u64) {}

    fn round(&self, _number: u64) {}
}

/// Holds the first round until so many calls were answered.
#[derive(Drop)]
struct HeldRound {
    answered: AtomicU64,
    least: u64,
    late: AtomicU64,
}

impl HeldRound {
    fn make(least: u64) -> HeldRound {
        HeldRound {
            answered: AtomicU64::new(0),
            least,
            late: AtomicU64::new(0),
        }
    }
}

impl Gate for HeldRound {
    fn before(&self, _writer: u32, _ordinal: u64) {}

    fn after(&self, _writer: u32, _ordinal: u64) {
        self.answered.fetch_add(1, Ordering::SeqCst);
    }

    fn round(&self, number: u64) {
        if number == 0 {
            wait_for(&self.answered, self.least, &self.late);
        }
    }
}

/// A session with rings of this size.
fn options(ring: u64, policy: Policy, level: Severity) -> Options
    ensures { result.batch ≡ 4_096 }
{
    Options {
        ring,
        batch: 4_096,
        policy,
        level,
    }
}

/// What a session over rings of this kind came to.
fn run_over<S: Stage, R: Machine, G: Gate + 'static>(
    rt: &R,
    alloc: Global,
    trace: &Arc<Trace, Global>,
    options: &Options,
    sink: &mut MemSink,
    gate: &Arc<G, Global>,
) -> Result<Outcome<S::Done>, RunFault>
    requires { options.now.batch ≡ 4_096 }
{
    let ran = run::<R, S, MemSink, G>(*rt, alloc, trace, options, sink, gate);
    expect(rt, &sink.starved(), &0);
    ran
}

/// How many calls were accepted, dropped and passed over, and how many rings are left.
fn counts<D>(outcome: &Outcome<D>) -> (u64, usize, u64, usize) {
    (
        outcome.accepted,
        outcome.drops.len(),
        outcome.filtered,
        outcome.settled.len(),
    )
}

/// Asserts these counts of a session, and that each ring that is left tells of so many frames.
fn expect_counts<S: Stage>(
    rt: &impl Abort,
    outcome: &Outcome<S::Done>,
    want: (u64, usize, u64, usize),
    frames: u64,
) {
    expect(rt, &counts(outcome), &want);
    for left in &outcome.settled {
        expect(rt, &left.frames(), &frames);
    }
}

/// Each writer has a thread of its own: the second call of each waits for the other's.
#[test]
fn writers_meet(rt: HostRuntime) -> Result<(), Fail> {
    let trace = trace_of(rt.alloc(), MEETING)?;
    let meeting = Meeting {
        first: AtomicU64::new(0),
        second: AtomicU64::new(0),
        late: AtomicU64::new(0),
    };
    let gate = Arc::new(rt.alloc(), meeting)?;
    let mut sink = MemSink::make(rt.alloc(), PIECE, &[])?;
    let given = options(1_024, Policy::Wait, Severity::Debug);
    let ran = run_over::<WordRing, _, _>(&rt, rt.alloc(), &trace, &given, &mut sink, &gate);
    expect(&rt, &counts(&ran?), &(4, 0, 0, 2));
    expect(&rt, &gate.late.load(Ordering::SeqCst), &0);
    Ok(())
}

/// Asserts which calls are kept at the level NOTICE with this policy.
fn expect_level(
    rt: &impl Machine,
    alloc: Global,
    trace: &Arc<Trace, Global>,
    policy: Policy,
) -> Result<(), Fail> {
    let gate = Arc::new(alloc, FreeGate)?;
    let mut sink = MemSink::make(alloc, PIECE, &[])?;
    let given = options(1_024, policy, Severity::Notice);
    let outcome = run_over::<WordRing, _, _>(rt, alloc, trace, &given, &mut sink, &gate)?;
    expect_counts::<WordRing>(rt, &outcome, (6, 0, 3, 2), 3);
    assert!(rt; sink.bytes().starts_with(HEADER));
    Ok(())
}

/// A level keeps the calls of its severity and of graver ones, whatever the policy is.
#[test]
fn a_level_keeps_graver_calls(rt: HostRuntime) -> Result<(), Fail> {
    let trace = trace_of(rt.alloc(), LEVELS)?;
    expect_level(&rt, rt.alloc(), &trace, Policy::Wait)?;
    expect_level(&rt, rt.alloc(), &trace, Policy::Shed)
}

/// Asserts that no session runs over rings of so many words, and that the first call of the sink is still to come.
fn expect_no_size(
    rt: &impl Machine,
    alloc: Global,
    trace: &Arc<Trace, Global>,
    ring: u64,
) -> Result<(), Fail> {
    let gate = Arc::new(alloc, FreeGate)?;
    let mut sink = MemSink::make(alloc, PIECE, &[0])?;
    let given = options(ring, Policy::Wait, Severity::Debug);
    let ran = run_over::<WordRing, _, _>(rt, alloc, trace, &given, &mut sink, &gate);
    expect(rt, &(ring, ran.err()), &(ring, Some(RunFault::BadSize)));
    assert!(rt; sink.bytes().is_empty());
    assert!(rt; sink.write(b"x").is_err());
    Ok(())
}

/// Where a ring can't have the size, the sink is as it was: the first call is still to come, and fails.
#[test]
fn rings_of_no_size(rt: HostRuntime) -> Result<(), Fail> {
    let trace = trace_of(rt.alloc(), MEETING)?;
    expect_no_size(&rt, rt.alloc(), &trace, 1_023)?;
    expect_no_size(&rt, rt.alloc(), &trace, 1_048_577)
}

/// Asserts that a session fails whose writes of this number and of the next fail, that so many calls were answered, and
/// that the second of these writes is still to come.
fn expect_failure(
    rt: &impl Machine,
    alloc: Global,
    trace: &Arc<Trace, Global>,
    failing: [u64; 2],
    answered: u64,
) -> Result<(), Fail> {
    let gate = Arc::new(alloc, HeldRound::make(4))?;
    let mut sink = MemSink::make(alloc, PIECE, &failing)?;
    let given = options(1_024, Policy::Wait, Severity::Debug);
    let ran = run_over::<WordRing, _, _>(rt, alloc, trace, &given, &mut sink, &gate);
    expect(
        rt,
        &(failing[0], ran.err()),
        &(failing[0], Some(RunFault::SinkFault)),
    );
    expect(rt, &gate.late.load(Ordering::SeqCst), &0);
    expect(rt, &gate.answered.load(Ordering::SeqCst), &answered);
    assert!(rt; sink.write(b"x").is_err());
    assert!(rt; sink.write(b"x").is_ok());
    Ok(())
}

/// Whichever write fails, all writers end, and nothing is written behind it: of two calls that fail, which stand one
/// behind the other, the second is still to come.
#[test]
fn writes_that_fail(rt: HostRuntime) -> Result<(), Fail> {
    let trace = trace_of(rt.alloc(), MEETING)?;
    for failing in 0..WRITES {
        let answered = if failing == 0 { 0 } else { 4 };
        expect_failure(&rt, rt.alloc(), &trace, [failing, failing + 1], answered)?;
    }
    Ok(())
}

/// The session of [`writes_that_fail`] has no more writes than those that fail there.
#[test]
fn all_writes(rt: HostRuntime) -> Result<(), Fail> {
    let trace = trace_of(rt.alloc(), MEETING)?;
    let gate = Arc::new(rt.alloc(), HeldRound::make(4))?;
    let mut sink = MemSink::make(rt.alloc(), PIECE, &[WRITES])?;
    let given = options(1_024, Policy::Wait, Severity::Debug);
    let ran = run_over::<WordRing, _, _>(&rt, rt.alloc(), &trace, &given, &mut sink, &gate);
    expect(&rt, &counts(&ran?), &(4, 0, 0, 2));
    expect(&rt, &gate.late.load(Ordering::SeqCst), &0);
    assert!(rt; sink.write(b"x").is_err());
    Ok(())
}

/// Holds the third call of a writer until two more rounds have begun.
#[derive(Drop)]
struct HeldCall {
    rounds: AtomicU64,
    late: AtomicU64,
}

impl Gate for HeldCall {
    fn before(&self, _writer: u32, ordinal: u64) {
        if ordinal == 2 {
            let begun = self.rounds.load(Ordering::SeqCst);
            wait_for(&self.rounds, begun.saturating_add(2), &self.late);
        }
    }

    fn after(&self, _writer: u32, _ordinal: u64) {}

    fn round(&self, _number: u64) {
        self.rounds.fetch_add(1, Ordering::SeqCst);
    }
}

/// Two calls whose frames have 512 words where `@` is 2,032 characters, and one whose frame has 3.
const LONG_CALLS: &str = "nanolog-trace 1
message 0 NOTICE 1 \"f\" \"%s%s\"
message 1 NOTICE 2 \"f\" \"%d\"
clock 1000 1514764800000000000 2000000000
writers 1
call 0 1003 0 \"@\" \"@\"
call 0 1003 0 \"@\" \"@\"
call 0 1003 1 7
end
";

/// The run of these calls.
fn long_trace(alloc: Global) -> Result<Arc<Trace, Global>, Fail> {
    let long = "a".repeat(alloc, 2_032)?;
    let text = LONG_CALLS.replace(alloc, "@", long.as_str())?;
    trace_of(alloc, text.as_str())
}

/// A call for which its writer knows of no room is dropped, although there would be room.
#[test]
fn a_writer_that_knows_of_no_room(rt: HostRuntime) -> Result<(), Fail> {
    let trace = long_trace(rt.alloc())?;
    let held = HeldCall {
        rounds: AtomicU64::new(0),
        late: AtomicU64::new(0),
    };
    let gate = Arc::new(rt.alloc(), held)?;
    let mut sink = MemSink::make(rt.alloc(), PIECE, &[])?;
    let given = options(1_024, Policy::Shed, Severity::Debug);
    let outcome = run_over::<LateStage, _, _>(&rt, rt.alloc(), &trace, &given, &mut sink, &gate)?;
    expect(&rt, &gate.late.load(Ordering::SeqCst), &0);
    expect_counts::<LateStage>(&rt, &outcome, (2, 1, 0, 1), 2);
    let dropped = Dropped {
        writer: 0,
        ordinal: 2,
        need: 3,
        room: 0,
    };
    expect(&rt, &outcome.drops.get(0), &Some(&dropped));
    Ok(())
}
