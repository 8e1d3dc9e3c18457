//! Runs of words over files and outputs in memory.

use nanolog_cli::{Status, nanolog};
use nl_io::{MemFiles, MemSink};
use std::alloc::{AllocError, Global};
use std::fmt::Debug;
use std::process::Abort;
use std::sync::{Arc, Wait};
use std::test::Fail;
use std::thread::Threads;
use trace_session::{FreeGate, Gate};

/// What a run needs of the machine that it runs on.
pub(crate) trait Machine: Abort + Threads + Wait + Copy + Send + 'static {}

impl<R: Abort + Threads + Wait + Copy + Send + 'static> Machine for R {}

/// A trace of one call, and its line.
pub(crate) const TRACE: &str = "nanolog-trace 1
message 0 NOTICE 12 \"srv.cc\" \"x=%d\"
clock 1000 1514764800000000000 2000000000
writers 1
call 0 1003 0 7
end
";

pub(crate) const LINE: &str = "1514764800.000000001 srv.cc:12 NOTICE[0]: x=7\n";

/// How many bytes one call of the files and the outputs moves at most.
pub(crate) const PIECE: usize = 1 << 20;

/// The same, where a test counts the calls.
const SMALL_PIECE: usize = 16;

/// How a run ended, what it printed and said, and what the file `l` holds afterwards, if it is there.
#[derive(Drop)]
pub(crate) struct Ran {
    pub(crate) status: Status,
    pub(crate) out: String,
    err: String,
    pub(crate) log: Option<Vec<u8>>,
}

impl Ran {
    pub(crate) fn shown(&self) -> (Status, &str, &str) {
        (self.status, self.out.as_str(), self.err.as_str())
    }
}

/// Ends the test where the two differ, and shows them.
pub(crate) fn expect<T: PartialEq + Debug>(rt: &impl Abort, got: &T, wanted: &T) {
    assert_eq!(rt; got, wanted);
}

/// Asserts how a run ended, what it printed and what it said.
pub(crate) fn expect_ran(rt: &impl Abort, ran: &Ran, status: Status, out: &str, err: &str) {
    expect(rt, &ran.shown(), &(status, out, err));
}

/// The words of a line, which one space each stands between.
pub(crate) fn words_of(alloc: Global, line: &str) -> Result<Vec<String>, AllocError> {
    let mut words = Vec::new(alloc);
    for word in line.split(' ') {
        words.push(String::from_str(alloc, word)?)?;
    }
    Ok(words)
}

fn text_of(alloc: Global, bytes: &[u8]) -> Result<String, Fail> {
    Ok(String::from_utf8(bytes.to_vec(alloc)?)?)
}

/// Runs the words of a line over these files, with this gate.
fn run_in<G: Gate + 'static>(
    rt: &impl Machine,
    alloc: Global,
    line: &str,
    mut files: MemFiles,
    gate: &Arc<G, Global>,
) -> Result<Ran, Fail> {
    let mut out = MemSink::make(alloc, PIECE, &[])?;
    let mut err = MemSink::make(alloc, PIECE, &[])?;
    let words = words_of(alloc, line)?;
    let status = nanolog(*rt, alloc, &words, &mut files, &mut out, &mut err, gate);
    let starved = (files.starved(), out.starved(), err.starved());
    expect(rt, &starved, &(0, 0, 0));
    let log = match files.get_file("l") {
        Some(bytes) => Some(bytes.to_vec(alloc)?),
        None => None,
    };
    Ok(Ran {
        status,
        out: text_of(alloc, out.bytes())?,
        err: text_of(alloc, err.bytes())?,
        log,
    })
}

/// Runs the words of a line where one file holds these bytes, with this gate.
pub(crate) fn run_gated<G: Gate + 'static>(
    rt: &impl Machine,
    alloc: Global,
    line: &str,
    file: (&str, &[u8]),
    gate: &Arc<G, Global>,
) -> Result<Ran, Fail> {
    let mut files = MemFiles::make(alloc, PIECE, &[])?;
    files.put_file(file.0, file.1)?;
    run_in(rt, alloc, line, files, gate)
}

/// Runs the words of a line where one file holds these bytes. One call of the files moves few bytes, and the one with
/// this number, counted from 0, fails.
pub(crate) fn run_failing(
    rt: &impl Machine,
    alloc: Global,
    line: &str,
    file: (&str, &[u8]),
    number: u64,
) -> Result<Ran, Fail> {
    let gate = Arc::new(alloc, FreeGate)?;
    let mut files = MemFiles::make(alloc, SMALL_PIECE, &[number])?;
    files.put_file(file.0, file.1)?;
    run_in(rt, alloc, line, files, &gate)
}

/// Runs the words of a line where one file holds these bytes.
pub(crate) fn run_over(
    rt: &impl Machine,
    alloc: Global,
    line: &str,
    file: (&str, &[u8]),
) -> Result<Ran, Fail> {
    let gate = Arc::new(alloc, FreeGate)?;
    run_gated(rt, alloc, line, file, &gate)
}

/// Asserts that `decompress` of the log that a run left prints these lines, and that no writer of it is open.
pub(crate) fn expect_lines(
    rt: &impl Machine,
    alloc: Global,
    ran: &Ran,
    lines: &str,
) -> Result<(), Fail> {
    let log = ran.log.as_deref().unwrap_or(&[]);
    let read = run_over(rt, alloc, "decompress l", ("l", log))?;
    expect_ran(rt, &read, Status::Done, lines, "");
    Ok(())
}
