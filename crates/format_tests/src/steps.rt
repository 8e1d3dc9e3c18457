//! Lines of logs that go out step by step.

use crate::tables::{Told, bytes_of, check_rows, cut};
use decompressor::{DecodeFault, Decompressor, Report, Step, decompress};
use nl_io::{MemSink, MemSource, Source};
use std::alloc::{AllocError, Global};
use std::fmt::Write;
use std::test::Fail;

/// What a log has in front of its number of writers.
const MAGIC: &str = "4e 4c 4f 47 01";

/// What it has behind it, up to its first block.
const CLOCK: &str = "e8 03 00 00 00 00 00 00 00 00 44 5e 8f 86 05 15 00 94 35 77 00 00 00 00";

/// The fragment with its one message.
const MESSAGE: &str =
    "01 00 00 00 00 01 00 03 0c 00 00 00 06 00 73 72 76 2e 63 63 04 00 78 3d 25 64";

/// Appends a block: the fragment with the message for `f`, an extent with one record for `e`, its writer and what its
/// stamp is above the one before, as `e0103`, and a close mark for `c` and its writer. Else it is that byte.
fn push_block(text: &mut String, word: &str) -> Result<(), AllocError> {
    let writer = word.get(1..3).unwrap_or("");
    let stamp = word.get(3..5).unwrap_or("");
    match word.get(0..1).unwrap_or("") {
        "f" => write!(text, " {MESSAGE}"),
        "e" => write!(text, " 02 {writer} 04 00 00 00 10 {stamp} 01 07"),
        "c" => write!(text, " 04 {writer}"),
        _ => write!(text, " {word}"),
    }
}

/// The words of a log of so many writers with these blocks.
fn log_words(alloc: Global, writers: &str, blocks: &str) -> Result<String, AllocError> {
    let mut text = format!(in alloc; "{MAGIC} {writers} {CLOCK}")?;
    for word in blocks.split_ascii_whitespace() {
        push_block(&mut text, word)?;
    }
    Ok(text)
}

/// The log of so many writers with these blocks.
fn log_of(alloc: Global, row: &str) -> Result<Vec<u8>, Fail> {
    let (writers, blocks) = cut(row)?;
    let text = log_words(alloc, writers, blocks)?;
    bytes_of(alloc, &text)
}

/// How many lines went out.
fn lines_of(sink: &MemSink) -> usize {
    sink.bytes().iter().filter(|byte| **byte == b'\n').count()
}

/// Makes a step, if one is left, and tells how many lines are out behind it.
fn push_step(
    told: &mut String,
    steps: &mut Decompressor,
    source: &mut MemSource,
    out: &mut MemSink,
) -> Result<(), AllocError> {
    if steps.ended() {
        return Ok(());
    }
    let step = steps.step(source, out);
    let lines = lines_of(out);
    match step {
        Ok(Step::More) => write!(told, "{lines} "),
        Ok(Step::End(report)) => push_report(told, lines, &report),
        Err(fault) => write!(told, "{lines} {fault:?}"),
    }
}

/// Tells how many lines are out at the end, and of how many a report tells, with the writers that are still open.
fn push_report(told: &mut String, lines: usize, report: &Report) -> Result<(), AllocError> {
    let open = report.unclosed.len();
    write!(told, "{lines} of {} {open} open", report.lines)
}

/// What is told of all steps.
fn all_steps(
    alloc: Global,
    steps: &mut Decompressor,
    source: &mut MemSource,
    out: &mut MemSink,
) -> Result<String, AllocError> {
    let mut told = String::new(alloc);
    for _ in 0..100 {
        push_step(&mut told, steps, source, out)?;
    }
    Ok(told)
}

/// What is told of a log's steps.
fn log_told(alloc: Global, log: &[u8]) -> Result<String, Fail> {
    let mut source = MemSource::make(alloc, log, 7, &[])?;
    let mut out = MemSink::make(alloc, 65_536, &[])?;
    match Decompressor::make(alloc, &mut source) {
        Ok(mut steps) => Ok(all_steps(alloc, &mut steps, &mut source, &mut out)?),
        Err(_) => Err("the log has no header".into()),
    }
}

struct StepsTold;

impl Told for StepsTold {
    fn told(alloc: Global, row: &str) -> Result<String, Fail> {
        let log = log_of(alloc, row)?;
        log_told(alloc, &log)
    }
}

/// Writers and blocks, and how many lines are out behind each step. At the end it is told how many lines the last step
/// tells of, and how many writers are still open.
const STEPS: &str = "\
02|f e0003 e0103 c00 c01|0 0 1 2 2 2 of 2 0 open
02|f e0103 e0003 c00 c01|0 0 1 2 2 2 of 2 0 open
02|f e0003 c01 c00|0 0 1 1 1 of 1 0 open
02|f e0003 e0004|0 0 0 2 of 2 2 open
03|c00 c01 f e0203 e0205 c02|0 0 0 1 2 2 2 of 2 0 open
02|f e0005 e0103 e0104|0 0 1 2 3 of 3 2 open
02|f e0005 e0103 07|0 0 1 2 Damaged { offset: 76, cause: BadBlock }
01||0 of 0 1 open";

#[test]
fn lines_go_out_once_none_can_come_before_them(rt: HostRuntime) -> Result<(), Fail> {
    check_rows::<StepsTold, _>(&rt, STEPS)
}

/// How much of the source is left.
fn left_of(source: &mut MemSource) -> u64 {
    let mut piece = [0; 64];
    let mut left = 0u64;
    for _ in 0..100_000 {
        let Ok(count) = source.read(&mut piece) else {
            break;
        };
        if count == 0 {
            break;
        }
        left = left.saturating_add(count as u64);
    }
    left
}

/// Whether a write failed, how many lines are out, and whether bytes of the log are left.
fn ending_told(
    alloc: Global,
    source: &mut MemSource,
    out: &mut MemSink,
) -> Result<String, AllocError> {
    let ended = decompress(alloc, source, out);
    let failed = matches!(ended, Err(DecodeFault::WriteFault));
    let lines = lines_of(out);
    format!(in alloc; "{failed} {lines} {}", left_of(source) > 0)
}

/// How a log ends whose first line can't be written.
struct CutOffTold;

impl Told for CutOffTold {
    fn told(alloc: Global, row: &str) -> Result<String, Fail> {
        let log = log_of(alloc, row)?;
        let mut source = MemSource::make(alloc, &log, 16, &[])?;
        let mut out = MemSink::make(alloc, 65_536, &[0])?;
        Ok(ending_told(alloc, &mut source, &mut out)?)
    }
}

/// Writers and blocks, whether a write failed, how many lines are out, and whether bytes are left.
const CUT_OFF: &str = "\
02|f e0003 e0103 e0003 e0103 e0003 e0103 e0003 e0103 e0003 e0103 e0003 e0103 c00 c01|true 0 true
02|f e0003 e0003|true 0 false
02|f c00 c01|false 0 false";

#[test]
fn no_more_is_read_once_a_write_failed(rt: HostRuntime) -> Result<(), Fail> {
    check_rows::<CutOffTold, _>(&rt, CUT_OFF)
}
