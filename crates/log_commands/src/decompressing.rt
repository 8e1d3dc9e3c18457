//! The command `decompress`.

ghost use Rattle.std.specs.Prelude.{◌≡◌, ◌≢◌, ◌≤◌, None, Err, IfOk, IsErrOf};
ghost use Rattle.std.specs.FinMap as map;
ghost use Rattle.std.specs.String.{string_bytes};
ghost use Rattle.nl_io.specs.Count.{Rose};
ghost use Rattle.nl_io.specs.Content.{Told};
ghost use Rattle.nl_io.specs.Desk.{IsReading, SameButLeft};
ghost use Rattle.decompressor.specs.Decompressing.{Decompresses};
ghost use Rattle.command_base.specs.Endings.{answer_ending, note_ending, refusal_ending};
ghost use Rattle.command_base.specs.Effects.{CommandEffect};
ghost use Rattle.command_base.specs.Scenes.{scene};
ghost use Rattle.log_commands.specs.Logs.{left_by};
ghost use Rattle.log_commands.specs.Decompressing.{writers_text, whole_ending, log_ending, decompress_task};

use crate::damage::damaged;
use command_base::{Note, Refusal, open};
use decompressor::{DecodeFault, Numbers, Report};
use itoa::Buffer;
use nl_io::{FileSource, Files, Sink};
use std::alloc::{AllocError, Global};

/// Prints the lines of the log that the open file has left, and answers what there is to tell of it.
fn decompress_open<F: Files, O: Sink>(
    alloc: Global,
    files: &mut F,
    id: u32,
    out: &mut O,
) -> Result<Report, DecodeFault>
    requires { map.get (F.desk files.old).left id ≢ None }
    ensures text { (content : Told) → IsReading (F.desk files.old) id content →
        Decompresses content (left_by (F.desk files.new) id)
        (F.desk files.old).read_faults (F.desk files.new).read_faults
        (O.put out.old) (O.put out.new) result }
    ensures write_fault { IsErrOf result DecodeFault.WriteFault → Rose (O.faults out.old) (O.faults out.new) }
    ensures written { ¬ (IsErrOf result DecodeFault.WriteFault) → O.faults out.new ≡ O.faults out.old }
    ensures count { (F.desk files.old).read_faults ≤ (F.desk files.new).read_faults }
    ensures same { SameButLeft id (F.desk files.old) (F.desk files.new) }
    ensures files_others { F.rest files.old files.new }
    ensures out_others { O.rest out.old out.new }
{
    decompressor::decompress(alloc, &mut FileSource::make(files, id), out)
}

/// The numbers, each behind a space.
fn text_of_numbers(alloc: Global, numbers: &Numbers) -> Result<String, AllocError>
    ensures { IfOk result (λ text. string_bytes text ≡ writers_text numbers.now) }
{
    let mut digits = Buffer::new();
    let mut text = String::new(alloc);
    for number in numbers {
        text.push_str(" ")?;
        text.push_str(digits.format(*number))?;
    }
    Ok(text)
}

/// What there is to tell of a whole log: its writers that are still open.
fn note_of<'a>(alloc: Global, log: &'a str, unclosed: &Numbers) -> Result<Note<'a>, AllocError>
    ensures { IfOk result (λ note. note_ending note ≡ whole_ending log.now unclosed.now) }
{
    if unclosed.is_empty() {
        return Ok(Note::Nothing);
    }
    let numbers = text_of_numbers(alloc, unclosed)?;
    Ok(Note::StillOpen { log, numbers })
}

/// The refusal of a log that wasn't decompressed whole.
fn refusal_of(log: &str, fault: DecodeFault) -> Refusal<'_>
    ensures { refusal_ending result ≡ log_ending log.now (Err fault) }
{
    match fault {
        DecodeFault::WriteFault => Refusal::WriteFault("standard output"),
        DecodeFault::Damaged { offset, cause } => damaged(log, offset, cause),
        DecodeFault::ReadFault => Refusal::ReadFault(log),
        DecodeFault::NoMemory => Refusal::NoMemory,
    }
}

/// Prints the lines of the records of the log that the name holds, and tells which of its writers are still open.
///
/// # Errors
///
/// `Absent` where there is no such name. `Damaged` comes behind the lines of what stands whole in front of the damage,
/// and `ReadFault` behind those of what was read. `WriteFault`, where a front of the lines went out, as it may with
/// `NoMemory`.
pub fn decompress<'a, F: Files, O: Sink>(
    alloc: Global,
    files: &mut F,
    log: &'a str,
    out: &mut O,
) -> Result<Note<'a>, Refusal<'a>>
    ensures ends { CommandEffect (decompress_task log.now) (scene (F.desk files.old) (O.put out.old) (O.faults out.old))
        (scene (F.desk files.new) (O.put out.new) (O.faults out.new)) (answer_ending result) }
    ensures files_others { F.rest files.old files.new }
    ensures out_others { O.rest out.old out.new }
{
    let id = open(files, log)?;
    let decompressed = decompress_open(alloc, files, id, out);
    files.leave(id);
    match decompressed {
        Ok(report) => Ok(note_of(alloc, log, &report.unclosed)?),
        Err(fault) => Err(refusal_of(log, fault)),
    }
}
