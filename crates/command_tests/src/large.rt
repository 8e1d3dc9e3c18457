//! Inputs as large as they can be, and larger.

use crate::runs::{PIECE, TRACE, expect, expect_ran, run_over, words_of};
use nanolog_cli::{Status, quick};
use nl_io::{MemFiles, MemSink};
use std::alloc::{AllocError, Global};
use std::fmt::Write;
use std::process::Abort;
use std::test::Fail;

/// A trace of so many messages, and of no calls.
fn counted_trace(alloc: Global, messages: u32) -> Result<String, AllocError> {
    let mut text = String::from_str(alloc, "nanolog-trace 1\n")?;
    for id in 0..messages {
        writeln!(text, "message {id} NOTICE {id} \"srv.cc\" \"x=%d\"")?;
    }
    text.push_str("clock 1000 1514764800000000000 2000000000\nwriters 1\nend\n")?;
    Ok(text)
}

/// One message more than there can be is told, also where its line is wrong. A dictionary is read as a trace is.
#[test]
fn too_many_messages_are_told(rt: HostRuntime) -> Result<(), Fail> {
    let alloc = rt.alloc();
    let text = counted_trace(alloc, 65_537)?;
    let (right, wrong) = ("NOTICE 65536", "Notice 65536");
    let wrong = text.as_str().replacen(alloc, right, wrong, 1)?;
    let told = "nanolog: t:65538: refused: 15 TooMany\n";
    for text in [text.as_str(), wrong.as_str()] {
        for line in ["direct t", "header t l"] {
            let ran = run_over(&rt, alloc, line, ("t", text.as_bytes()))?;
            expect_ran(&rt, &ran, Status::Refused, "", told);
            assert!(rt; ran.log.is_none());
        }
    }
    Ok(())
}

/// A trace of version 2 of so many clocks, one a tick, with a call of the last of 1,024 writers at tick 255.
fn timed_trace(alloc: Global, clocks: u32) -> Result<String, AllocError> {
    let mut text = String::from_str(alloc, "nanolog-trace 2\n")?;
    text.push_str("message 0 NOTICE 12 \"srv.cc\" \"x=%d\"\n")?;
    for tick in 0..clocks {
        writeln!(text, "clock {tick} 1{tick:03} 1")?;
    }
    text.push_str("writers 1024\ncall 1023 255 0 7\nend\n")?;
    Ok(text)
}

/// As many clocks and writers as there can be are taken, also into a log and out of it. One clock more is told.
#[test]
fn all_clocks_and_writers_are_taken(rt: HostRuntime) -> Result<(), Fail> {
    let alloc = rt.alloc();
    let text = timed_trace(alloc, 256)?;
    let line = "0.000001255 srv.cc:12 NOTICE[1023]: x=7\n";
    let ran = run_over(&rt, alloc, "direct t", ("t", text.as_bytes()))?;
    expect_ran(&rt, &ran, Status::Done, line, "");
    let replay = "replay t l --ring 1024";
    let ran = run_over(&rt, alloc, replay, ("t", text.as_bytes()))?;
    let told = "accepted 1 dropped 0 filtered 0\n";
    expect_ran(&rt, &ran, Status::Done, told, "");
    let log = ran.log.as_deref().unwrap_or(&[]);
    let ran = run_over(&rt, alloc, "decompress l", ("l", log))?;
    expect_ran(&rt, &ran, Status::Done, line, "");
    let text = timed_trace(alloc, 257)?;
    let ran = run_over(&rt, alloc, replay, ("t", text.as_bytes()))?;
    let told = "nanolog: t:259: refused: 20 TooManyClocks\n";
    expect_ran(&rt, &ran, Status::Refused, "", told);
    assert!(rt; ran.log.is_none());
    Ok(())
}

/// One byte more than a trace has is told, and so it is of a dictionary.
#[test]
fn too_large_a_trace_is_told(rt: HostRuntime) -> Result<(), Fail> {
    let bytes = Vec::from_elem(rt.alloc(), b'\n', 67_108_865)?;
    let file = ("t", bytes.as_slice());
    let told = "nanolog: t:0: refused: 18 TooLarge\n";
    for line in ["direct t", "header t l", "inject t none l"] {
        let ran = run_over(&rt, rt.alloc(), line, file)?;
        expect_ran(&rt, &ran, Status::Refused, "", told);
        assert!(rt; ran.log.is_none());
    }
    Ok(())
}

/// As many bytes as a source has are taken, and one more is told.
#[test]
fn too_large_a_source_is_told(rt: HostRuntime) -> Result<(), Fail> {
    let alloc = rt.alloc();
    let mut files = MemFiles::make(alloc, PIECE, &[])?;
    files.put_file("d", b"nanolog-trace 1\n")?;
    let mut out = MemSink::make(alloc, PIECE, &[])?;
    let mut err = MemSink::make(alloc, PIECE, &[])?;
    let words = words_of(alloc, "inject d m.cc l")?;
    let mut source = Vec::from_elem(alloc, b'\n', 16_777_217)?;
    files.put_file("m.cc", &source)?;
    let status = quick(alloc, &words, &mut files, &mut out, &mut err);
    expect(&rt, &status, &Status::Refused);
    let told = b"nanolog: m.cc:0: refused: 7 TooLarge\n".as_slice();
    expect(&rt, &err.bytes(), &told);
    assert!(rt; out.bytes().is_empty() && files.get_file("l").is_none());
    source.truncate(16_777_216);
    files.put_file("m.cc", &source)?;
    let status = quick(alloc, &words, &mut files, &mut out, &mut err);
    expect(&rt, &status, &Status::Done);
    expect(&rt, &out.bytes(), &b"injected 0\n".as_slice());
    assert!(rt; files.get_file("l") == Some(source.as_slice()));
    Ok(())
}

/// A trace of as many messages as there can be, whose files' names are made to fall together in a table of hashes: eight
/// bytes that differ, and eight that undo what they add.
fn made_names(alloc: Global) -> Result<String, AllocError> {
    let mut text = String::from_str(alloc, "nanolog-trace 1\n")?;
    for id in 0..65_536 {
        writeln!(
            text,
            "message {id} NOTICE 1 \"{id:08}\\x15\\x7c\\x4a\\x7f\\xb9\\x79\\x37\\x9e\" \"x\""
        )?;
    }
    text.push_str("clock 0 0 1\nwriters 1\ncall 0 0 65535\nend\n")?;
    Ok(text)
}

/// Neither the reader of traces nor that of logs takes long for them; a test has 60 seconds.
#[test]
fn made_names_take_no_time(rt: HostRuntime) -> Result<(), Fail> {
    let alloc = rt.alloc();
    let text = made_names(alloc)?;
    let ran = run_over(&rt, alloc, "replay t l", ("t", text.as_bytes()))?;
    let told = "accepted 1 dropped 0 filtered 0\n";
    expect_ran(&rt, &ran, Status::Done, told, "");
    let log = ran.log.as_deref().unwrap_or(&[]);
    let ran = run_over(&rt, alloc, "aggregate l 65535 0", ("l", log))?;
    let told = "nanolog: l: refused: 2 NoSuchArgument\n";
    expect_ran(&rt, &ran, Status::Refused, "", told);
    Ok(())
}

/// Asserts how [`quick`] ends where the file `t` holds [`TRACE`].
fn expect_quick(rt: &impl Abort, alloc: Global, line: &str, want: Status) -> Result<(), Fail> {
    let mut files = MemFiles::make(alloc, PIECE, &[])?;
    files.put_file("t", TRACE.as_bytes())?;
    let mut out = MemSink::make(alloc, PIECE, &[])?;
    let mut err = MemSink::make(alloc, PIECE, &[])?;
    let words = words_of(alloc, line)?;
    let status = quick(alloc, &words, &mut files, &mut out, &mut err);
    expect(rt, &status, &want);
    expect(rt, &out.bytes().is_empty(), &(want != Status::Done));
    let is_usage = err.bytes().starts_with(b"usage:\n");
    expect(rt, &is_usage, &(want == Status::Usage));
    assert!(rt; files.get_file("l").is_none());
    Ok(())
}

/// What waits for nobody does all but `replay` and `selftest`, which it answers as words that are no command.
#[test]
fn quick_does_what_waits_for_nobody(rt: HostRuntime) -> Result<(), Fail> {
    expect_quick(&rt, rt.alloc(), "direct t", Status::Done)?;
    expect_quick(&rt, rt.alloc(), "replay t l", Status::Usage)?;
    expect_quick(&rt, rt.alloc(), "selftest 1 2 1", Status::Usage)
}
