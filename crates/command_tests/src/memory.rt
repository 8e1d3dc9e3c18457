//! What is told of refused memory. With memory enough each command is done: these tests have their point in runs that
//! refuse memory, in which what they set up may fail.

use crate::runs::{LINE, Machine, PIECE, TRACE, expect, words_of};
use nanolog_cli::{Status, nanolog};
use nl_io::{MemFiles, MemSink};
use std::alloc::Global;
use std::sync::Arc;
use std::test::Fail;
use trace_session::FreeGate;

/// The log of [`TRACE`].
const LOG: &[u8] =
    b"NLOG\x01\x01\xe8\x03\0\0\0\0\0\0\0\0\x44\x5e\x8f\x86\x05\x15\0\x94\x35\x77\0\0\0\0\
    \x01\0\0\0\0\x01\0\x03\x0c\0\0\0\x06\0srv.cc\x04\0x=%d\x02\0\x04\0\0\0\x10\x03\x01\x07\x04\0";

/// Runs the words of a line where the file `t` holds [`TRACE`] and `l` holds the log. Where memory is wanting that is
/// told, and else the text is printed.
fn expect_told_or_done(
    rt: &impl Machine,
    alloc: Global,
    line: &str,
    text: &str,
) -> Result<(), Fail> {
    let mut files = MemFiles::make(alloc, PIECE, &[])?;
    let mut out = MemSink::make(alloc, PIECE, &[])?;
    let mut err = MemSink::make(alloc, PIECE, &[])?;
    let words = words_of(alloc, line)?;
    files.put_file("t", TRACE.as_bytes())?;
    files.put_file("l", LOG)?;
    let gate = Arc::new(alloc, FreeGate)?;
    let status = nanolog(*rt, alloc, &words, &mut files, &mut out, &mut err, &gate);
    if err.starved() > 0 {
        return Ok(());
    }
    match status {
        Status::NoMemory => {
            let told = b"nanolog: want of memory\n".as_slice();
            expect(rt, &err.bytes(), &told);
        }
        Status::ReadFault => expect(rt, &files.starved(), &1),
        Status::WriteFault => assert!(rt; files.starved() == 1 || out.starved() == 1),
        _ => expect(rt, &(status, out.bytes()), &(Status::Done, text.as_bytes())),
    }
    Ok(())
}

#[test]
fn direct_tells_of_refused_memory(rt: HostRuntime) -> Result<(), Fail> {
    expect_told_or_done(&rt, rt.alloc(), "direct t", LINE)
}

#[test]
fn replay_tells_of_refused_memory(rt: HostRuntime) -> Result<(), Fail> {
    let text = "accepted 1 dropped 0 filtered 0\n";
    expect_told_or_done(&rt, rt.alloc(), "replay t l", text)
}

#[test]
fn decompress_tells_of_refused_memory(rt: HostRuntime) -> Result<(), Fail> {
    expect_told_or_done(&rt, rt.alloc(), "decompress l", LINE)
}
