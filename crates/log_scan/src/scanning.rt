//! Reading a log to its end.

ghost use Rattle.std.specs.Prelude.{◌≡◌, ◌≤◌, ℕ, List, ◌++◌, false, Some, None, IfOk, IsOkAnd, OnErr};
ghost use Rattle.nl_io.specs.Count.{Rose};
ghost use Rattle.nl_io.specs.Content.{IsAtEnd};
ghost use Rattle.checkpoint_io.specs.Places.{with_front};
ghost use Rattle.checkpoint_io.specs.Readers.{StandsFor};
ghost use Rattle.log_scan.specs.Parts.{log_part};
ghost use Rattle.log_scan.specs.Scans.{scan_of, Scans, EndsAtHeader};

use crate::fold::BlockFold;
use crate::scan::{Scan, ScanEnd};
use checkpoint_io::{BlockFault, Reader};
use nl_io::Source;
use std::alloc::{AllocError, Global};

/// Reads the rest of a log, of which the reader has the front and the fold what that gives, and folds its blocks, up to
/// its end or to a fault.
///
/// # Errors
///
/// There is no memory. Damage and a failed read are no errors here, but ends of the scan.
pub fn scan_rest<S: Source, F: BlockFold>(
    reader: &mut Reader,
    source: &mut S,
    fold: &mut F,
) -> Result<ScanEnd, AllocError>
    requires right { reader.old.failed ≡ false }
    requires begun { (taken : List ℕ) × (read : StandsFor reader.old taken)
        × F.has fold.old (Some (log_part reader.old read.blocks)) }
    ensures scanned { (taken : List ℕ) (read : StandsFor reader.old taken)
        → F.has fold.old (Some (log_part reader.old read.blocks))
        → IfOk result (λ end. Scans F.has (with_front (taken ++ reader.old.waiting.bytes) (S.left source.old))
        (S.left source.new) fold.new (scan_of end reader.new)) }
    ensures header { reader.new.header ≡ reader.old.header }
    ensures end { IsOkAnd result (λ end. end ≡ ScanEnd.Whole) → IsAtEnd (S.left source.new) }
    ensures read_fault { IsOkAnd result (λ end. end ≡ ScanEnd.ReadFault)
        → Rose (S.faults source.old) (S.faults source.new) }
    ensures counted { ¬ (IsOkAnd result (λ end. end ≡ ScanEnd.ReadFault))
        → S.faults source.new ≡ S.faults source.old }
    ensures count { S.faults source.old ≤ S.faults source.new }
    ensures others { S.rest source.old source.new }
    ensures fold_others { F.rest fold.old fold.new }
{
    loop {
        match reader.next_block(source) {
            Ok(Some(block)) => fold.add(reader, block)?,
            Ok(None) => return Ok(ScanEnd::Whole),
            Err(BlockFault::Damaged(cause)) => {
                return Ok(ScanEnd::Damaged {
                    offset: reader.offset(),
                    cause,
                });
            }
            Err(BlockFault::ReadFault) => return Ok(ScanEnd::ReadFault),
            Err(BlockFault::NoMemory) => return Err(AllocError),
        }
    }
}

// What is known of a file without a header.
fn no_header(fault: BlockFault) -> Result<Scan, AllocError>
    ensures ok { IfOk result (λ scan. (scan.reader ≡ None) × EndsAtHeader fault scan.end) }
    ensures err { OnErr result (fault ≡ BlockFault.NoMemory) }
{
    let end = match fault {
        BlockFault::Damaged(cause) => ScanEnd::Damaged { offset: 0, cause },
        BlockFault::ReadFault => ScanEnd::ReadFault,
        BlockFault::NoMemory => return Err(AllocError),
    };
    Ok(Scan { end, reader: None })
}

/// Reads the log that is all that the source has left, and folds its blocks, up to its end or to a fault.
///
/// # Errors
///
/// There is no memory. Damage and a failed read are no errors here, but ends of the scan.
pub fn scan_log<S: Source, F: BlockFold>(
    alloc: Global,
    source: &mut S,
    fold: &mut F,
) -> Result<Scan, AllocError>
    requires { F.has fold.old None }
    // What was read of the bytes that the source had left, which is what the fold has, and how that ended.
    ensures scanned { IfOk result (Scans F.has (S.left source.old) (S.left source.new) fold.new) }

    // Where the file is whole nothing of it is left.
    ensures end { IsOkAnd result (λ scan. scan.end ≡ ScanEnd.Whole) → IsAtEnd (S.left source.new) }

    // A read fault is one of this call, and no other answer hides one.
    ensures read_fault { IsOkAnd result (λ scan. scan.end ≡ ScanEnd.ReadFault)
        → Rose (S.faults source.old) (S.faults source.new) }
    ensures counted { ¬ (IsOkAnd result (λ scan. scan.end ≡ ScanEnd.ReadFault))
        → S.faults source.new ≡ S.faults source.old }
    ensures count { S.faults source.old ≤ S.faults source.new }

    // All else is as it was.
    ensures others { S.rest source.old source.new }
    ensures fold_others { F.rest fold.old fold.new }
{
    let mut reader = match Reader::start(alloc, source) {
        Ok(reader) => reader,
        Err(fault) => return no_header(fault),
    };
    fold.begin(reader.header())?;
    let end = scan_rest(&mut reader, source, fold)?;
    Ok(Scan {
        end,
        reader: Some(reader),
    })
}
