//! Reading the first bytes of a file.

ghost use Rattle.std.specs.Prelude.{◌≡◌, ◌≢◌, ◌≤◌, take, None, IfOk, IfErr, IfSome, OnOk, IsErrOf};
ghost use Rattle.std.specs.FinMap as map;
ghost use Rattle.nl_io.specs.Count.{Rose};
ghost use Rattle.nl_io.specs.Content.{Told};
ghost use Rattle.nl_io.specs.Desk.{IsReading, SameButLeft};
ghost use Rattle.command_base.specs.Endings.{refusal_ending};
ghost use Rattle.command_base.specs.HeldFiles.{HoldsSuch};
ghost use Rattle.command_base.specs.Readings.{GivesNoBytes};

use command_base::{Refusal, open};
use nl_io::{FileSource, Files, Source};
use std::alloc::Global;

/// How many bytes one call of a source is asked for.
const PIECE: usize = 65_536;

/// Why the first bytes weren't read.
enum FrontFault {
    Failed,
    NoMemory,
}

/// The first bytes that a source has left, at most so many. Where it has more, at most one piece more is taken.
fn read_front<S: Source>(alloc: Global, source: &mut S, limit: usize) -> Result<Vec<u8>, FrontFault>
    ensures front { IfOk result (λ bytes. IfSome (S.left source.old) (λ left. bytes.items ≡ take limit left)) }
    ensures failed { IsErrOf result FrontFault.Failed → Rose (S.faults source.old) (S.faults source.new) }
    ensures counted { ¬ (IsErrOf result FrontFault.Failed) → S.faults source.new ≡ S.faults source.old }
    ensures count { S.faults source.old ≤ S.faults source.new }
    ensures others { S.rest source.old source.new }
{
    let mut bytes = Vec::new(alloc);
    let mut piece = [0u8; PIECE];
    while bytes.len() < limit {
        let count = match source.read(&mut piece) {
            Ok(count) => count,
            Err(_) => return Err(FrontFault::Failed),
        };
        if count == 0 {
            return Ok(bytes);
        }
        if bytes.extend_from_slice(&piece[..count]).is_err() {
            return Err(FrontFault::NoMemory);
        }
    }
    bytes.truncate(limit);
    Ok(bytes)
}

/// The first bytes that the open file has left, at most so many.
fn read_open<F: Files>(
    alloc: Global,
    files: &mut F,
    id: u32,
    limit: usize,
) -> Result<Vec<u8>, FrontFault>
    requires { map.get (F.desk files.old).left id ≢ None }
    ensures front { IfOk result (λ bytes. (content : Told) → IsReading (F.desk files.old) id content →
        IfSome content (λ left. bytes.items ≡ take limit left)) }
    ensures failed { IsErrOf result FrontFault.Failed
        → Rose (F.desk files.old).read_faults (F.desk files.new).read_faults }
    ensures counted { ¬ (IsErrOf result FrontFault.Failed) →
        (F.desk files.new).read_faults ≡ (F.desk files.old).read_faults }
    ensures count { (F.desk files.old).read_faults ≤ (F.desk files.new).read_faults }
    ensures same { SameButLeft id (F.desk files.old) (F.desk files.new) }
    ensures others { F.rest files.old files.new }
{
    read_front(alloc, &mut FileSource::make(files, id), limit)
}

/// The first bytes that the name holds, at most so many.
///
/// # Errors
///
/// `Absent` where there is no such name, `ReadFault` where a call failed, and `NoMemory`.
pub(crate) fn read_file_front<'a, F: Files>(
    alloc: Global,
    files: &mut F,
    name: &'a str,
    limit: usize,
) -> Result<Vec<u8>, Refusal<'a>>
    ensures front { IfOk result (λ bytes. HoldsSuch (F.desk files.old) name.now
        (λ held. bytes.items ≡ take limit held)) }
    ensures same { OnOk result (F.desk files.new ≡ F.desk files.old) }
    ensures unread { IfErr result (λ refusal. GivesNoBytes name.now (F.desk files.old) (F.desk files.new)
        (refusal_ending refusal)) }
    ensures others { F.rest files.old files.new }
{
    let id = open(files, name)?;
    let read = read_open(alloc, files, id, limit);
    files.leave(id);
    match read {
        Ok(bytes) => Ok(bytes),
        Err(FrontFault::Failed) => Err(Refusal::ReadFault(name)),
        Err(FrontFault::NoMemory) => Err(Refusal::NoMemory),
    }
}
