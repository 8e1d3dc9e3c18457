//! Sources, sinks and files of the system.

ghost use Rattle.std.specs.Prelude.{◌≢◌, ◌≤◌, None, IfOk};
ghost use Rattle.std.specs.FinMap as map;
ghost use Rattle.nl_io.specs.Desk.{SameButHeld};

use crate::tables::{Told, check_rows, cut};
use nl_io::{
    Failed, FileSink, FileSource, Files, Sink, Source, StdFiles, StdSink, StdSource, read_to_limit,
    write_all,
};
use std::alloc::{AllocError, Global};
use std::fs;
use std::io::{self, ErrorKind, Read, Write};
use std::test::Fail;

/// The name, opened, as a source.
fn source<'f, F: Files>(files: &'f mut F, name: &str) -> Option<FileSource<'f, F>> {
    match files.open_read(name) {
        Ok(Some(id)) => Some(FileSource::make(files, id)),
        _ => None,
    }
}

/// What is left of a source, or why it isn't read.
fn rest_of<S: Source>(alloc: Global, source: &mut S, limit: usize) -> Result<String, Fail> {
    match read_to_limit(alloc, source, limit) {
        Ok(bytes) => Ok(String::from_utf8(bytes)?),
        Err(fault) => Ok(format!(in alloc; "{fault:?}")?),
    }
}

/// Writes the bytes to a created file, by a sink.
fn put_all<F: Files>(files: &mut F, id: u32, bytes: &[u8]) -> Result<(), Failed>
    requires { map.get (F.desk files.old).made id ≢ None }
    ensures { SameButHeld id (F.desk files.old) (F.desk files.new) }
{
    write_all(&mut FileSink::make(files, id), bytes)
}

/// Writes a file by a sink.
fn write_file<F: Files>(files: &mut F, name: &str, bytes: &[u8]) -> Result<(), Failed> {
    let id = files.create(name)?;
    let wrote = put_all(files, id, bytes);
    let finished = files.finish(id);
    wrote?;
    finished
}

/// The bytes of a file, or why it isn't read.
fn read_file<F: Files>(alloc: Global, files: &mut F, name: &str) -> Result<String, Fail> {
    match source(files, name) {
        Some(mut source) => rest_of(alloc, &mut source, 300_000),
        None => Ok(String::from_str(alloc, "none")?),
    }
}

/// The id of a name, if it is opened.
fn opened_once<F: Files>(files: &mut F, name: &str) -> Option<u32> {
    match files.open_read(name) {
        Ok(id) => id,
        Err(_) => None,
    }
}

/// Puts an id behind those, if it is none of them.
fn note(ids: &mut Vec<u32>, id: u32) -> Result<(), AllocError> {
    if ids.contains(&id) {
        return Ok(());
    }
    ids.push(id)?;
    Ok(())
}

/// Opens a name so many times, and tells how many of the ids are new.
fn opened<F: Files>(
    alloc: Global,
    files: &mut F,
    name: &str,
    times: usize,
) -> Result<usize, AllocError> {
    let mut ids = Vec::new(alloc);
    for _ in 0..times {
        if let Some(id) = opened_once(files, name) {
            note(&mut ids, id)?;
        }
    }
    Ok(ids.len())
}

/// A reader and writer that is interrupted some times, and then moves some bytes or fails.
#[derive(Drop)]
struct Fake {
    interruptions: u32,
    most: Option<usize>,
}

impl Fake {
    fn answer(&mut self, len: usize) -> io::Result<usize>
        ensures { IfOk result (λ count. count ≤ len) }
    {
        if self.interruptions > 0 {
            self.interruptions -= 1;
            return Err(io::Error::from(ErrorKind::Interrupted));
        }
        match self.most {
            Some(most) => Ok(most.min(len)),
            None => Err(io::Error::from(ErrorKind::BrokenPipe)),
        }
    }
}

impl Write for Fake {
    fn write(&mut self, bytes: &[u8]) -> io::Result<usize> {
        self.answer(bytes.len())
    }

    fn flush(&mut self) -> io::Result<()> {
        Ok(())
    }
}

impl Read for Fake {
    fn read(&mut self, into: &mut [u8]) -> io::Result<usize> {
        self.answer(into.len())
    }
}

/// How often a call is interrupted, and how many bytes it moves then: what is answered to a write and to a read.
const FAKES: &str = "\
0|3|Ok(3) Ok(3);;2|3|Ok(3) Ok(3);;64|3|Ok(3) Ok(3);;65|3|Err(Failed) Err(Failed);;0|0|Err(Failed) Ok(0)
0|none|Err(Failed) Err(Failed)";

fn fakes_shown(alloc: Global, interruptions: u32, most: Option<usize>) -> Result<String, Fail> {
    let wrote = StdSink::make(Fake {
        interruptions,
        most,
    })
    .write(b"hello");
    let mut into = [0; 5];
    let read = StdSource::make(Fake {
        interruptions,
        most,
    })
    .read(&mut into);
    Ok(format!(in alloc; "{wrote:?} {read:?}")?)
}

struct FakesTold;

impl Told for FakesTold {
    fn told(alloc: Global, row: &str) -> Result<String, Fail> {
        let (interruptions, most) = cut(row)?;
        let interruptions = interruptions.parse::<u32>()?;
        fakes_shown(alloc, interruptions, most.parse::<usize>().ok())
    }
}

/// What goes through a slice and a vector of std.
struct ThroughStd;

impl Told for ThroughStd {
    fn told(alloc: Global, text: &str) -> Result<String, Fail> {
        let mut out = Vec::new(alloc);
        let wrote = write_all(&mut StdSink::make(&mut out), text.as_bytes());
        let read = rest_of(alloc, &mut StdSource::make(out.as_slice()), 5)?;
        Ok(format!(in alloc; "{wrote:?} {read}")?)
    }
}

#[test]
fn streams_of_the_system_are_tried_again(rt: HostRuntime) -> Result<(), Fail> {
    check_rows::<FakesTold, _>(&rt, FAKES)?;
    check_rows::<ThroughStd, _>(&rt, "hello|Ok(()) hello")
}

/// What is answered where there is no file, no folder, no file but a folder, and no room.
fn refusals_told<F: Files>(alloc: Global, files: &mut F) -> Result<String, Fail> {
    let absent = files.open_read("no_such_file");
    let created = files.create("no_such_folder/file");
    let folder = read_file(alloc, files, ".")?;
    let full = write_file(files, "/dev/full", b"hello");
    Ok(format!(in alloc; "{absent:?} {created:?} {folder} {full:?}")?)
}

/// The answer to writing a file, what is read of it, and how many of 40 ids are new.
fn file_told<F: Files>(alloc: Global, files: &mut F, name: &str) -> Result<String, Fail> {
    let wrote = write_file(files, name, b"hello");
    let read = read_file(alloc, files, name)?;
    Ok(format!(in alloc; "{wrote:?} {read} {}", opened(alloc, files, name, 40)?)?)
}

/// The same, and the answer to opening the file once it was removed again.
fn removed_file_told<F: Files>(rt: &HostRuntime, files: &mut F) -> Result<String, Fail> {
    let told = file_told(rt.alloc(), files, "written_by_a_test")?;
    fs::remove_file(rt, "written_by_a_test")?;
    let removed = files.open_read("written_by_a_test");
    Ok(format!(in rt.alloc(); "{told}, {removed:?}")?)
}

/// What is told of refusals, and of a file that is written and removed.
fn files_of_system_told<F: Files>(rt: &HostRuntime, files: &mut F) -> Result<String, Fail> {
    let refusals = refusals_told(rt.alloc(), files)?;
    let told = removed_file_told(rt, files)?;
    Ok(format!(in rt.alloc(); "{refusals}, {told}")?)
}

/// What is told of files of the system.
fn system_told(rt: &HostRuntime) -> Result<String, Fail> {
    let mut files = StdFiles::make(rt, rt.alloc());
    files_of_system_told(rt, &mut files)
}

#[test]
fn files_of_the_system(rt: HostRuntime) -> Result<(), Fail> {
    let told = system_told(&rt)?;
    assert_eq!(rt;
        told.as_str(),
        "Ok(None) Err(Failed) Failed Err(Failed), Ok(()) hello 40, Ok(None)"
    );
    Ok(())
}
