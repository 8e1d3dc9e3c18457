//! A log of version 1 as one of version 2.

ghost use Rattle.std.specs.Prelude.{◌≡◌, ◌≤◌, IfSome, IsErrOf, OnOk, OnErr};
ghost use Rattle.nl_io.specs.Content.{Told, IsAtEnd};
ghost use Rattle.nl_io.specs.Count.{Rose};
ghost use Rattle.log_migration.specs.Migrating.{AnswersMigration};
ghost use Rattle.log_migration.specs.Migrations.{IsWholeMigration, fault_of};

use crate::fault::MigrateFault;
use crate::migration::Migration;
use checkpoint_io::{BlockFault, Reader};
use log_scan::{BlockFold, ScanEnd, scan_rest};
use nl_io::Source;
use std::alloc::Global;

/// The version of the logs that are migrated.
const OLD_VERSION: u8 = 1;

// Why there is no log where a file begins with no header.
fn no_header(fault: BlockFault) -> MigrateFault
    ensures { result ≡ fault_of fault }
{
    match fault {
        BlockFault::Damaged(cause) => MigrateFault::Damaged { offset: 0, cause },
        BlockFault::ReadFault => MigrateFault::ReadFault,
        BlockFault::NoMemory => MigrateFault::NoMemory,
    }
}

// Puts the new log of a whole one behind the other bytes, and answers how many blocks it has.
fn hand_over(migration: &Migration, into: &mut Vec<u8>) -> Result<u64, MigrateFault>
    ensures answer { (left behind : Told) → IfSome left (λ bytes. IsWholeMigration bytes migration.now)
        → AnswersMigration left behind into.old.items into.new.items result }
    ensures no_read_fault { ¬ (IsErrOf result MigrateFault.ReadFault) }
    ensures kept { OnErr result (into.new.items ≡ into.old.items) }
{
    if migration.log.large {
        return Err(MigrateFault::TooLarge);
    }
    into.extend_from_slice(migration.log.bytes.as_slice())?;
    Ok(migration.blocks)
}

/// Puts behind the bytes the log of version 2 that has the numbers and the blocks of a log of version 1, which is all
/// that the source has left, and answers how many blocks it has. The source is read once.
///
/// # Errors
///
/// A read failed. Or the file is damaged. Or its header is of version 2: no block is read then. Or the file is whole,
/// and the log of version 2 would have more than `MAX_LOG` bytes. Or there is no memory. The bytes are as they were.
pub fn migrate<S: Source>(
    alloc: Global,
    source: &mut S,
    into: &mut Vec<u8>,
) -> Result<u64, MigrateFault>
    // What the answer says of the bytes that the source had left, or, where a read failed, of those that were taken.
    ensures answer { AnswersMigration (S.left source.old) (S.left source.new) into.old.items into.new.items result }

    // Where the file is whole nothing of it is left.
    ensures end { OnOk result (IsAtEnd (S.left source.new)) }
    ensures end_too_large { IsErrOf result MigrateFault.TooLarge → IsAtEnd (S.left source.new) }

    // Without a log of version 2 nothing is put.
    ensures kept { OnErr result (into.new.items ≡ into.old.items) }

    // A read fault is one of this call, and no other answer hides one.
    ensures read_fault { IsErrOf result MigrateFault.ReadFault → Rose (S.faults source.old) (S.faults source.new) }
    ensures counted { ¬ (IsErrOf result MigrateFault.ReadFault) → S.faults source.new ≡ S.faults source.old }
    ensures count { S.faults source.old ≤ S.faults source.new }

    // All else is as it was.
    ensures others { S.rest source.old source.new }
{
    let mut reader = match Reader::start(alloc, source) {
        Ok(reader) => reader,
        Err(fault) => return Err(no_header(fault)),
    };
    if reader.header().version != OLD_VERSION {
        return Err(MigrateFault::NotOne);
    }
    let mut migration = Migration::none(alloc);
    migration.begin(reader.header())?;
    match scan_rest(&mut reader, source, &mut migration)? {
        ScanEnd::Whole => hand_over(&migration, into),
        ScanEnd::Damaged { offset, cause } => Err(MigrateFault::Damaged { offset, cause }),
        ScanEnd::ReadFault => Err(MigrateFault::ReadFault),
    }
}
