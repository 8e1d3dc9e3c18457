//! The command `migrate`.

ghost use Rattle.std.specs.Prelude.{◌≡◌, ◌≢◌, ◌≤◌, None, Err, IfOk, IfErr, IsErrOf};
ghost use Rattle.std.specs.FinMap as map;
ghost use Rattle.nl_io.specs.Count.{Rose};
ghost use Rattle.nl_io.specs.Content.{Told};
ghost use Rattle.nl_io.specs.Desk.{IsReading, SameButLeft};
ghost use Rattle.log_migration.specs.Migrating.{AnswersMigration};
ghost use Rattle.command_base.specs.Endings.{Done, ending_of, refusal_ending, NoMemory as WantsMemory};
ghost use Rattle.command_base.specs.Effects.{CommandEffect};
ghost use Rattle.command_base.specs.Printing.{Prints};
ghost use Rattle.command_base.specs.Scenes.{scene};
ghost use Rattle.command_base.specs.Tasks.{nothing};
ghost use Rattle.log_commands.specs.Logs.{left_by};
ghost use Rattle.log_commands.specs.Migrating.{migrated_text, made_log, migration_ending, ReadsLog, migrate_task};

use crate::damage::{damaged, refused};
use command_base::{Refusal, open, print_pieces, save};
use itoa::Buffer;
use log_migration::MigrateFault;
use nl_io::{FileSource, Files, Sink};
use std::alloc::Global;

/// Puts behind the bytes the log of version 2 that has what the log has which the open file has left.
fn migrate_open<F: Files>(
    alloc: Global,
    files: &mut F,
    file: u32,
    into: &mut Vec<u8>,
) -> Result<u64, MigrateFault>
    requires { map.get (F.desk files.old).left file ≢ None }
    ensures answer { (content : Told) → IsReading (F.desk files.old) file content → AnswersMigration content
        (left_by (F.desk files.new) file) into.old.items into.new.items result }
    ensures read_fault { IsErrOf result MigrateFault.ReadFault
        → Rose (F.desk files.old).read_faults (F.desk files.new).read_faults }
    ensures counted { ¬ (IsErrOf result MigrateFault.ReadFault)
        → (F.desk files.new).read_faults ≡ (F.desk files.old).read_faults }
    ensures count { (F.desk files.old).read_faults ≤ (F.desk files.new).read_faults }
    ensures same { SameButLeft file (F.desk files.old) (F.desk files.new) }
    ensures others { F.rest files.old files.new }
{
    log_migration::migrate(alloc, &mut FileSource::make(files, file), into)
}

/// The refusal of a log of which no log of version 2 is made.
fn refusal_of(log: &str, fault: MigrateFault) -> Refusal<'_>
    ensures { refusal_ending result ≡ migration_ending log.now (Err fault) }
{
    match fault {
        MigrateFault::ReadFault => Refusal::ReadFault(log),
        MigrateFault::Damaged { offset, cause } => damaged(log, offset, cause),
        MigrateFault::NotOne => refused(log, 1, "NotOne"),
        MigrateFault::TooLarge => refused(log, 2, "TooLarge"),
        MigrateFault::NoMemory => Refusal::NoMemory,
    }
}

/// The log of version 2 that has what the log has which the name holds, and how many blocks it has.
fn read_migrated<'a, F: Files>(
    alloc: Global,
    files: &mut F,
    log: &'a str,
) -> Result<(Vec<u8>, u64), Refusal<'a>>
    ensures made { IfOk result (λ made. ReadsLog log.now (F.desk files.old) (F.desk files.new)
        (made_log made.0.items made.1) Done) }
    ensures unmade { IfErr result (λ refusal. ReadsLog log.now (F.desk files.old) (F.desk files.new)
        nothing (refusal_ending refusal)) }
    ensures others { F.rest files.old files.new }
{
    let file = open(files, log)?;
    let mut bytes = Vec::new(alloc);
    let answer = migrate_open(alloc, files, file, &mut bytes);
    files.leave(file);
    match answer {
        Ok(count) => Ok((bytes, count)),
        Err(fault) => Err(refusal_of(log, fault)),
    }
}

/// Prints the line on a new log of so many blocks. It takes no memory.
fn print_migrated<O: Sink>(out: &mut O, count: u64) -> Result<(), Refusal<'static>>
    ensures printed { Prints (migrated_text count) (O.put out.old) (O.put out.new)
        (O.faults out.old) (O.faults out.new) (ending_of result) }
    ensures memory { ending_of result ≢ WantsMemory }
    ensures others { O.rest out.old out.new }
{
    let mut digits = Buffer::new();
    print_pieces(out, &["migrated ", digits.format(count), "\n"])
}

/// Writes the log of version 2 that has the numbers and the blocks of the log of version 1 which a name holds, and prints
/// how many blocks these are. Where there is no such log the output isn't created.
///
/// # Errors
///
/// `Absent` where there is no such name, and `ReadFault` where a call failed. `Damaged`. A log of version 2 is `Refused`,
/// and so is one whose log of version 2 would have more bytes than are read. `WriteFault` with the name of the output,
/// which then is as it was or holds a front of the log, or with that of the standard output; and `NoMemory`.
pub fn migrate<'a, F: Files, O: Sink>(
    alloc: Global,
    files: &mut F,
    log: &'a str,
    output: &'a str,
    out: &mut O,
) -> Result<(), Refusal<'a>>
    ensures ends { CommandEffect (migrate_task log.now output.now)
        (scene (F.desk files.old) (O.put out.old) (O.faults out.old))
        (scene (F.desk files.new) (O.put out.new) (O.faults out.new)) (ending_of result) }
    ensures files_others { F.rest files.old files.new }
    ensures out_others { O.rest out.old out.new }
{
    let (bytes, count) = read_migrated(alloc, files, log)?;
    match save(files, output, &bytes) {
        Ok(()) => print_migrated(out, count),
        Err(_) => Err(Refusal::WriteFault(output)),
    }
}
