//! Visits over stored calls, and the logs that they write.

ghost use Rattle.std.specs.Prelude.{◌≡◌, ◌≤◌, [], OnOk};
ghost use Rattle.ring_core.specs.Plans.{plan_of};

use crate::expecting::expect;
use log_dictionary::{Clock, Clocks, Dictionary};
use nl_io::MemSink;
use printf_grammar::Arg;
use ring_core::{StoreFault, StoredOut};
use roaming_consumer::Roamer;
use session_options::MAX_BATCH;
use std::alloc::{AllocError, Global};
use std::fmt::Write;
use std::process::Abort;
use std::test::Fail;

pub(crate) const CLOCK: Clock = Clock {
    tick: 1000,
    nanos: 1_514_764_800_000_000_000,
    rate: 2_000_000_000,
};

/// The message of the calls that carry a number.
pub(crate) const NUMBER: &[u8] = b"message 0 NOTICE 12 \"srv.cc\" \"x=%d\"";

/// The header and the fragment in front of their log, in hexadecimal.
const FRONT: &str = "4e 4c 4f 47 01 01 e8 03 00 00 00 00 00 00 00 00 44 5e 8f 86 05 15 \
    00 94 35 77 00 00 00 00 01 00 00 00 00 01 00 03 0c 00 00 00 06 00 73 72 76 2e 63 63 \
    04 00 78 3d 25 64 ";

/// What is behind it where each of the calls has an extent of its own, and where both have one.
const ALONE: &str = "02 00 04 00 00 00 10 03 01 07 02 00 04 00 00 00 10 03 01 08 04 00 ";

const TOGETHER: &str = "02 00 07 00 00 00 10 03 01 07 00 01 08 04 00 ";

/// What the beginning of a log and the visits of its one writer answered, and where the bytes went.
#[derive(Drop)]
struct Visited {
    answers: String,
    sink: MemSink,
    faulted: bool,
}

/// A dictionary of one message.
pub(crate) fn one_message(alloc: Global, line: &[u8]) -> Result<Dictionary, Fail> {
    let mut dictionary = Dictionary::make(alloc);
    dictionary.read_line(line)?;
    Ok(dictionary)
}

/// Begins a log over one end, and visits that so many times.
fn make_visits(
    end: StoredOut<'_>,
    dictionary: &Dictionary,
    batch: u32,
    mut sink: MemSink,
    visits: u32,
    alloc: Global,
) -> Result<Visited, Fail>
    requires some_batch { 1 ≤ batch }
    requires few_in_batch { batch ≤ MAX_BATCH }
    requires untaken { end.got ≡ [] }
    requires planned { end.plan ≡ plan_of dictionary.now 1000 }
{
    let mut ends = Vec::new(alloc);
    ends.push(end)?;
    let clocks = Clocks::make(alloc, CLOCK)?;
    let mut roamer = Roamer::make(alloc, ends, dictionary, 1, &clocks, batch)?;
    let begun = roamer.begin(&mut sink);
    let mut answers = format!(in alloc; "{begun:?}")?;
    for _visit in 0..visits {
        let answer = roamer.visit(0, &mut sink);
        write!(answers, " {answer:?}")?;
    }
    Ok(Visited {
        answers,
        sink,
        faulted: roamer.faulted(),
    })
}

/// The bytes in hexadecimal, a space behind each.
pub(crate) fn hexadecimal(alloc: Global, bytes: &[u8]) -> Result<String, AllocError> {
    let mut text = String::new(alloc);
    for byte in bytes {
        write!(text, "{byte:02x} ")?;
    }
    Ok(text)
}

/// Stores two calls with the numbers 7 and 8, and closes the end.
fn push_two(end: &mut StoredOut<'_>) -> Result<(), StoreFault>
    ensures kept { OnOk result ((end.new.got ≡ end.old.got) × (end.new.plan ≡ end.old.plan)) }
{
    end.push(1003, 0, &[Arg::Signed(7)])?;
    end.push(1003, 0, &[Arg::Signed(8)])?;
    end.close();
    Ok(())
}

/// Visits of those calls, over a sink of which these calls fail.
fn two_calls(alloc: Global, batch: u32, failing: &[u64], visits: u32) -> Result<Visited, Fail>
    requires some_batch { 1 ≤ batch }
    requires few_in_batch { batch ≤ MAX_BATCH }
{
    let dictionary = one_message(alloc, NUMBER)?;
    let sink = MemSink::make(alloc, 100, failing)?;
    let mut end = StoredOut::make(alloc, &dictionary, 1000);
    push_two(&mut end)?;
    make_visits(end, &dictionary, batch, sink, visits, alloc)
}

/// Asserts what the visits answer, and what stands behind the front of the log.
fn expect_log(
    rt: &impl Abort,
    alloc: Global,
    batch: u32,
    visits: u32,
    answers: &str,
    behind: &str,
) -> Result<(), Fail>
    requires { (1 ≤ batch) × (batch ≤ MAX_BATCH) }
{
    let got = two_calls(alloc, batch, &[], visits)?;
    let log = hexadecimal(alloc, got.sink.bytes())?;
    expect(rt, &got.answers.as_str(), &answers);
    expect(rt, &log.as_str().strip_prefix(FRONT), &Some(behind));
    assert!(rt; !got.faulted);
    Ok(())
}

#[test]
fn logs(rt: HostRuntime) -> Result<(), Fail> {
    let alone = "Ok(()) Ok(Wrote(1)) Ok(Wrote(1)) Ok(Ended) Ok(Ended)";
    expect_log(&rt, rt.alloc(), 1, 4, alone, ALONE)?;
    let together = "Ok(()) Ok(Wrote(2)) Ok(Ended) Ok(Ended)";
    expect_log(&rt, rt.alloc(), 65_536, 3, together, TOGETHER)
}

/// Asserts what the visits answer where this write fails, and that so many bytes of a log go out.
fn expect_fault(
    rt: &impl Abort,
    alloc: Global,
    write: u64,
    answers: &str,
    len: usize,
    want: &str,
) -> Result<(), Fail> {
    let got = two_calls(alloc, 1, &[write], 4)?;
    let log = hexadecimal(alloc, got.sink.bytes())?;
    assert!(rt; got.answers.as_str() == answers, "write {write}");
    expect(rt, &got.sink.bytes().len(), &len);
    assert!(rt; want.starts_with(log.as_str()));
    expect(rt, &got.faulted, &(write < 7));
    Ok(())
}

/// Asserts what a row says: the number of the write, the answers, and how many bytes go out.
fn expect_row(rt: &impl Abort, alloc: Global, row: &str, want: &str) -> Result<(), Fail> {
    let (write, row) = row.split_once('|').ok_or("a row without answers")?;
    let (answers, len) = row.split_once('|').ok_or("a row without a length")?;
    let write = write.parse::<u64>()?;
    expect_fault(rt, alloc, write, answers, len.parse::<usize>()?, want)
}

/// What went out in front of a failed write stays, and what comes behind it is thrown away. Each row has the number of
/// the write, what the log's beginning and four visits answer, and how many bytes went out.
#[test]
fn faults(rt: HostRuntime) -> Result<(), Fail> {
    let want = format!(in rt.alloc(); "{FRONT}{ALONE}")?;
    for row in "0|Err(SinkFault) Ok(Discarded(1)) Ok(Discarded(1)) Ok(Ended) Ok(Ended)|0
1|Ok(()) Err(SinkFault) Ok(Discarded(1)) Ok(Ended) Ok(Ended)|30
2|Ok(()) Err(SinkFault) Ok(Discarded(1)) Ok(Ended) Ok(Ended)|56
3|Ok(()) Err(SinkFault) Ok(Discarded(1)) Ok(Ended) Ok(Ended)|62
4|Ok(()) Ok(Wrote(1)) Err(SinkFault) Ok(Ended) Ok(Ended)|66
5|Ok(()) Ok(Wrote(1)) Err(SinkFault) Ok(Ended) Ok(Ended)|72
6|Ok(()) Ok(Wrote(1)) Ok(Wrote(1)) Err(SinkFault) Ok(Ended)|76
7|Ok(()) Ok(Wrote(1)) Ok(Wrote(1)) Ok(Ended) Ok(Ended)|78"
        .lines()
    {
        expect_row(&rt, rt.alloc(), row, &want)?;
    }
    Ok(())
}

/// Stores as many calls of 512 words as are asked for, and closes the end.
fn push_long(end: &mut StoredOut<'_>, calls: u32) -> Result<(), StoreFault>
    ensures kept { OnOk result ((end.new.got ≡ end.old.got) × (end.new.plan ≡ end.old.plan)) }
{
    let text = [97; 4000];
    let args = [Arg::Text(&text), Arg::Text(&text[..64])];
    for _call in 0..calls {
        end.push(1003, 0, &args)?;
    }
    end.close();
    Ok(())
}

/// Visits of so many such calls.
fn long_calls(alloc: Global, calls: u32, visits: u32) -> Result<Visited, Fail> {
    let dictionary = one_message(alloc, b"message 0 NOTICE 12 \"srv.cc\" \"%s%s\"")?;
    let sink = MemSink::make(alloc, 100_000, &[])?;
    let mut end = StoredOut::make(alloc, &dictionary, 1000);
    push_long(&mut end, calls)?;
    make_visits(end, &dictionary, MAX_BATCH, sink, visits, alloc)
}

/// Asserts what the visits of so many long calls answer, and how many bytes their log has.
fn expect_long(
    rt: &impl Abort,
    alloc: Global,
    calls: u32,
    visits: u32,
    answers: &str,
    len: usize,
) -> Result<(), Fail> {
    let got = long_calls(alloc, calls, visits)?;
    expect(rt, &got.answers.as_str(), &answers);
    expect(rt, &got.sink.bytes().len(), &len);
    Ok(())
}

/// Behind 15 records of 512 words fewer than 8,192 bytes of a body are free. The first record of an extent has 4,070
/// bytes, and each other one 4,069.
#[test]
fn full_bodies(rt: HostRuntime) -> Result<(), Fail> {
    let once = "Ok(()) Ok(Wrote(15)) Ok(Ended)";
    expect_long(&rt, rt.alloc(), 15, 2, once, 61_100)?;
    let twice = "Ok(()) Ok(Wrote(15)) Ok(Wrote(5)) Ok(Ended)";
    expect_long(&rt, rt.alloc(), 20, 3, twice, 81_452)
}

/// Stores a call of two words between two pauses, and closes the end.
fn push_pauses(end: &mut StoredOut<'_>) -> Result<(), StoreFault>
    ensures kept { OnOk result ((end.new.got ≡ end.old.got) × (end.new.plan ≡ end.old.plan)) }
{
    end.pause()?;
    end.push(1000, 0, &[])?;
    end.pause()?;
    end.close();
    Ok(())
}

/// Visits of that call.
fn paused_call(alloc: Global) -> Result<Visited, Fail> {
    let dictionary = one_message(alloc, b"message 0 NOTICE 12 \"srv.cc\" \"up\"")?;
    let sink = MemSink::make(alloc, 100, &[])?;
    let mut end = StoredOut::make(alloc, &dictionary, 1000);
    push_pauses(&mut end)?;
    make_visits(end, &dictionary, 4, sink, 4, alloc)
}

/// A writer that has nothing at first, and whose call has two words.
#[test]
fn pauses(rt: HostRuntime) -> Result<(), Fail> {
    let got = paused_call(rt.alloc())?;
    let answers = "Ok(()) Ok(Idle) Ok(Wrote(1)) Ok(Ended) Ok(Ended)";
    expect(&rt, &got.answers.as_str(), &answers);
    expect(&rt, &got.sink.bytes().len(), &63);
    Ok(())
}

/// Reads the line of a message whose number is its line, with an entry of 11 bytes.
fn read_number(alloc: Global, dictionary: &mut Dictionary, id: u32) -> Result<(), Fail> {
    let line = format!(in alloc; "message {id} NOTICE {id} \"f\" \"x\"")?;
    Ok(dictionary.read_line(line.as_bytes())?)
}

/// A dictionary of as many such messages as there can be.
fn full_dictionary(alloc: Global) -> Result<Dictionary, Fail> {
    let mut dictionary = Dictionary::make(alloc);
    for id in 0..65_536 {
        read_number(alloc, &mut dictionary, id)?;
    }
    Ok(dictionary)
}

/// Stores a call of the last message, and closes the end.
fn push_last(end: &mut StoredOut<'_>) -> Result<(), StoreFault>
    ensures kept { OnOk result ((end.new.got ≡ end.old.got) × (end.new.plan ≡ end.old.plan)) }
{
    end.push(1003, 65_535, &[])?;
    end.close();
    Ok(())
}

/// Visits of a call of the last of all messages.
fn last_call(alloc: Global) -> Result<Visited, Fail> {
    let dictionary = full_dictionary(alloc)?;
    let sink = MemSink::make(alloc, 100_000, &[])?;
    let mut end = StoredOut::make(alloc, &dictionary, 1000);
    push_last(&mut end)?;
    make_visits(end, &dictionary, 1, sink, 2, alloc)
}

/// What stands at a place in a log, of so many bytes, in hexadecimal.
fn bytes_at(alloc: Global, log: &[u8], place: usize, len: usize) -> Result<String, Fail> {
    let front = log.get(place..).ok_or("the log is longer")?;
    Ok(hexadecimal(alloc, &front[..front.len().min(len)])?)
}

/// Asserts what a row says: a place in the log, and what stands there.
fn expect_place(rt: &impl Abort, alloc: Global, log: &[u8], row: &str) -> Result<(), Fail> {
    let (place, want) = row.split_once('|').ok_or("a row without bytes")?;
    let told = bytes_at(alloc, log, place.parse::<usize>()?, want.len() / 3)?;
    expect(rt, &told.as_str(), &want);
    Ok(())
}

/// Where the last of all messages is used first, 4,096 fragments of 16 messages and of 183 bytes stand in front of the
/// extent. Each row has a place in the log and what stands there.
#[test]
fn all_messages_at_once(rt: HostRuntime) -> Result<(), Fail> {
    let got = last_call(rt.alloc())?;
    expect(&rt, &got.answers.as_str(), &"Ok(()) Ok(Wrote(1)) Ok(Ended)");
    expect(&rt, &got.sink.bytes().len(), &749_610);
    for row in "30|01 00 00 00 00 10 00 03 00 00 00 00 01 00 66 01 00 78 
202|03 0f 00 00 00 01 00 66 01 00 78 01 10 00 00 00 10 00 
749415|01 f0 ff 00 00 10 00 03 f0 ff 00 00 01 00 66 01 00 78 
749587|03 ff ff 00 00 01 00 66 01 00 78 02 00 04 00 00 00 12 
749604|12 ff ff 03 04 00 "
        .lines()
    {
        expect_place(&rt, rt.alloc(), got.sink.bytes(), row)?;
    }
    Ok(())
}
