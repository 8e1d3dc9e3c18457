//! Calls of std, each with the count that rises where it fails. An interrupted call is tried again.

ghost use Rattle.std.specs.Prelude.{◌≡◌, ◌<◌, ◌≤◌, length, IfOk};
ghost use Rattle.nl_io.specs.Count.{counted, Counts};

use crate::failed::Failed;
use std::io::{ErrorKind, Read, Write};
use std::{fs, rt};

/// How often an interrupted call is tried again.
const RETRIES: u32 = 64;

/// Counts a failed call, unless the count stands at its greatest value.
pub(crate) fn fail(faults: &mut u64) -> Failed
    ensures counted { faults.new ≡ counted faults.old }
    ensures more { faults.old ≤ faults.new }
{
    *faults = faults.saturating_add(1);
    Failed
}

/// Reads once, and again where the call was interrupted.
pub(crate) fn read_some<R: Read>(
    reader: &mut R,
    into: &mut [u8],
    faults: &mut u64,
) -> Result<usize, Failed>
    ensures within { IfOk result (λ n. n ≤ length into.old) }
    ensures counted { Counts result faults.old faults.new }
{
    for _ in 0..=RETRIES {
        match reader.read(into) {
            Ok(count) => return Ok(count),
            Err(e) if e.kind() == ErrorKind::Interrupted => {}
            Err(_) => break,
        }
    }
    Err(fail(faults))
}

/// Writes once, and again where the call was interrupted. That nothing is taken of some bytes is a failure.
pub(crate) fn write_some<W: Write>(
    writer: &mut W,
    bytes: &[u8],
    faults: &mut u64,
) -> Result<usize, Failed>
    ensures within { IfOk result (λ n. n ≤ length bytes.now) }
    ensures some { IfOk result (λ n. 0 < length bytes.now → 0 < n) }
    ensures counted { Counts result faults.old faults.new }
{
    for _ in 0..=RETRIES {
        match writer.write(bytes) {
            Ok(0) if !bytes.is_empty() => break,
            Ok(count) => return Ok(count),
            Err(e) if e.kind() == ErrorKind::Interrupted => {}
            Err(_) => break,
        }
    }
    Err(fail(faults))
}

/// Hands on what a writer holds back, and again where the call was interrupted.
pub(crate) fn flush<W: Write>(writer: &mut W, faults: &mut u64) -> Result<(), Failed>
    ensures { Counts result faults.old faults.new }
{
    for _ in 0..=RETRIES {
        match writer.flush() {
            Ok(()) => return Ok(()),
            Err(e) if e.kind() == ErrorKind::Interrupted => {}
            Err(_) => break,
        }
    }
    Err(fail(faults))
}

/// Opens a file for reading, and again where the call was interrupted. `None` is the answer where
/// there is no such name.
pub(crate) fn open<R: rt::Files>(
    rt: &R,
    name: &str,
    faults: &mut u64,
) -> Result<Option<R::File>, Failed>
    ensures { Counts result faults.old faults.new }
{
    for _ in 0..=RETRIES {
        match fs::open(rt, name) {
            Ok(file) => return Ok(Some(file)),
            Err(e) if e.kind() == ErrorKind::NotFound => return Ok(None),
            Err(e) if e.kind() == ErrorKind::Interrupted => {}
            Err(_) => break,
        }
    }
    Err(fail(faults))
}

/// Creates a file of no bytes, and again where the call was interrupted.
pub(crate) fn create<R: rt::Files>(rt: &R, name: &str, faults: &mut u64) -> Result<R::File, Failed>
    ensures { Counts result faults.old faults.new }
{
    for _ in 0..=RETRIES {
        match fs::create(rt, name) {
            Ok(file) => return Ok(file),
            Err(e) if e.kind() == ErrorKind::Interrupted => {}
            Err(_) => break,
        }
    }
    Err(fail(faults))
}
