//! Replays with gates that say what comes first.

use crate::runs::{LINE, TRACE, expect, expect_lines, expect_ran, run_gated};
use nanolog_cli::Status;
use std::alloc::Global;
use std::hint::spin_loop;
use std::sync::Arc;
use std::sync::atomic::{AtomicU64, Ordering};
use std::test::Fail;
use trace_session::Gate;

/// How many turns a gate waits at most. Then it lets go and leaves a mark.
const TURNS: u64 = 200_000_000;

/// Waits until the number is as large as that; else it leaves a mark.
fn wait_for(number: &AtomicU64, least: u64, late: &AtomicU64) {
    for _ in 0..TURNS {
        if number.load(Ordering::SeqCst) >= least {
            return;
        }
        spin_loop();
    }
    late.store(1, Ordering::SeqCst);
}

/// Holds the consumer's first round until so many calls were answered.
#[derive(Drop)]
struct HeldRound {
    answered: AtomicU64,
    least: u64,
    late: AtomicU64,
}

impl HeldRound {
    fn make(least: u64) -> HeldRound {
        HeldRound {
            answered: AtomicU64::new(0),
            least,
            late: AtomicU64::new(0),
        }
    }
}

impl Gate for HeldRound {
    fn before(&self, _writer: u32, _ordinal: u64) {}

    fn after(&self, _writer: u32, _ordinal: u64) {
        self.answered.fetch_add(1, Ordering::SeqCst);
    }

    fn round(&self, number: u64) {
        if number == 0 {
            wait_for(&self.answered, self.least, &self.late);
        }
    }
}

/// Holds the second call of each of two writers until the other's was come to.
#[derive(Drop)]
struct Meeting {
    first: AtomicU64,
    second: AtomicU64,
    late: AtomicU64,
}

impl Gate for Meeting {
    fn before(&self, writer: u32, ordinal: u64) {
        if ordinal != 1 {
            return;
        }
        let (own, other) = if writer == 0 {
            (&self.first, &self.second)
        } else {
            (&self.second, &self.first)
        };
        own.store(1, Ordering::SeqCst);
        wait_for(other, 1, &self.late);
    }

    fn after(&self, _writer: u32, _ordinal: u64) {}

    fn round(&self, _number: u64) {}
}

/// A ring of 1,024 words has room for 341 frames of 3 words where none of them is taken: the next would cross its end.
#[test]
fn a_full_ring_drops_calls(rt: HostRuntime) -> Result<(), Fail> {
    let alloc = rt.alloc();
    let calls = "call 0 1003 0 7\n".repeat(alloc, 343)?;
    let text = TRACE.replacen(alloc, "call 0 1003 0 7\n", calls.as_str(), 1)?;
    let gate = Arc::new(alloc, HeldRound::make(343))?;
    let line = "replay t l --ring 1024 --full drop";
    let file = ("t", text.as_bytes());
    let ran = run_gated(&rt, alloc, line, file, &gate)?;
    let told = "drop 0 341 need 4 room 1
drop 0 342 need 4 room 1
accepted 341 dropped 2 filtered 0
";
    expect_ran(&rt, &ran, Status::Done, told, "");
    expect(&rt, &gate.late.load(Ordering::SeqCst), &0);
    let lines = LINE.repeat(alloc, 341)?;
    expect_lines(&rt, alloc, &ran, lines.as_str())
}

/// Each writer has a thread of its own: the second call of each waits for the other's.
#[test]
fn writers_meet(rt: HostRuntime) -> Result<(), Fail> {
    let alloc = rt.alloc();
    let calls = "writers 2
call 0 1003 0 1
call 0 1003 0 2
call 1 1003 0 3
call 1 1003 0 4
";
    let text = TRACE.replacen(alloc, "writers 1\ncall 0 1003 0 7\n", calls, 1)?;
    let meeting = Meeting {
        first: AtomicU64::new(0),
        second: AtomicU64::new(0),
        late: AtomicU64::new(0),
    };
    let gate = Arc::new(alloc, meeting)?;
    let file = ("t", text.as_bytes());
    let ran = run_gated(&rt, alloc, "replay t l", file, &gate)?;
    let told = "accepted 4 dropped 0 filtered 0\n";
    expect_ran(&rt, &ran, Status::Done, told, "");
    expect(&rt, &gate.late.load(Ordering::SeqCst), &0);
    Ok(())
}
