//! Opening files, and reading them whole.

ghost use Rattle.std.specs.Prelude.{◌≡◌, ◌≢◌, ◌<◌, ◌≤◌, length, None, IfOk, IfErr, IfSome, IfNone, OnOk, IsErrOf, vec_len};
ghost use Rattle.std.specs.FinMap as map;
ghost use Rattle.nl_io.specs.Count.{Rose};
ghost use Rattle.nl_io.specs.Content.{Told};
ghost use Rattle.nl_io.specs.Desk.{IsReading, Opens, SameButLeft};
ghost use Rattle.command_base.specs.Endings.{refusal_ending};
ghost use Rattle.command_base.specs.HeldFiles.{IsHeld, HoldsSuch};
ghost use Rattle.command_base.specs.Readings.{GivesNoBytes};

use crate::refusal::Refusal;
use nl_io::{FileSource, Files, ReadAllFault, read_to_limit};
use std::alloc::Global;

/// What the open file has left, where that is at most `limit` bytes.
fn read_open<F: Files>(
    alloc: Global,
    files: &mut F,
    id: u32,
    limit: usize,
) -> Result<Vec<u8>, ReadAllFault>
    requires { map.get (F.desk files.old).left id ≢ None }
    ensures all { IfOk result (λ bytes. (content : Told) → IsReading (F.desk files.old) id content →
        IfSome content (λ left. bytes.items ≡ left)) }
    ensures within { IfOk result (λ bytes. vec_len bytes ≤ limit) }
    ensures failed { IsErrOf result ReadAllFault.Failed
        → Rose (F.desk files.old).read_faults (F.desk files.new).read_faults }
    ensures too_large { IsErrOf result ReadAllFault.TooLarge → (content : Told)
        → IsReading (F.desk files.old) id content →
        IfSome content (λ left. limit < length left) }
    ensures counted { ¬ (IsErrOf result ReadAllFault.Failed) →
        (F.desk files.new).read_faults ≡ (F.desk files.old).read_faults }
    ensures count { (F.desk files.old).read_faults ≤ (F.desk files.new).read_faults }
    ensures same { SameButLeft id (F.desk files.old) (F.desk files.new) }
    ensures others { F.rest files.old files.new }
{
    read_to_limit(alloc, &mut FileSource::make(files, id), limit)
}

/// The id under which the name is opened.
///
/// # Errors
///
/// `Absent` where there is no such name, and `ReadFault` where a call failed.
pub fn open<'a, F: Files>(files: &mut F, name: &'a str) -> Result<u32, Refusal<'a>>
    ensures opened { IfOk result (λ id. Opens (F.desk files.old) name.now id (F.desk files.new)) }
    ensures unread { IfErr result (λ refusal. GivesNoBytes name.now (F.desk files.old) (F.desk files.new)
        (refusal_ending refusal)) }
    ensures others { F.rest files.old files.new }
{
    match files.open_read(name) {
        Ok(Some(id)) => Ok(id),
        Ok(None) => Err(Refusal::Absent(name)),
        Err(_) => Err(Refusal::ReadFault(name)),
    }
}

/// What the name holds, or nothing where that is more than `limit` bytes.
///
/// # Errors
///
/// `Absent` where there is no such name, `ReadFault` where a call failed, and `NoMemory`.
pub fn read_file<'a, F: Files>(
    alloc: Global,
    files: &mut F,
    name: &'a str,
    limit: usize,
) -> Result<Option<Vec<u8>>, Refusal<'a>>
    ensures all { IfOk result (λ read. IfSome read (λ bytes. IsHeld (F.desk files.old) name.now bytes.items)) }
    ensures within { IfOk result (λ read. IfSome read (λ bytes. vec_len bytes ≤ limit)) }
    ensures longer { IfOk result (λ read. IfNone read
        (HoldsSuch (F.desk files.old) name.now (λ bytes. limit < length bytes))) }
    ensures same { OnOk result (F.desk files.new ≡ F.desk files.old) }
    ensures unread { IfErr result (λ refusal. GivesNoBytes name.now (F.desk files.old) (F.desk files.new)
        (refusal_ending refusal)) }
    ensures others { F.rest files.old files.new }
{
    let id = open(files, name)?;
    let read = read_open(alloc, files, id, limit);
    files.leave(id);
    match read {
        Ok(bytes) => Ok(Some(bytes)),
        Err(ReadAllFault::TooLarge) => Ok(None),
        Err(ReadAllFault::Failed) => Err(Refusal::ReadFault(name)),
        Err(ReadAllFault::NoMemory) => Err(Refusal::NoMemory),
    }
}
