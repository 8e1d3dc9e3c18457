//! The command `inject`.

ghost use Rattle.std.specs.Prelude.{◌≡◌, ◌≤◌, length, IfOk, IfErr, OnOk};
ghost use Rattle.source_scan.specs.declared.statement.TheConstants.{MAX_SOURCE};
ghost use Rattle.code_inject.specs.Injected.{InjectsSource};
ghost use Rattle.command_base.specs.Endings.{ending_of, refusal_ending};
ghost use Rattle.command_base.specs.Effects.{CommandEffect};
ghost use Rattle.command_base.specs.Scenes.{scene};
ghost use Rattle.dictionary_commands.specs.Injecting.{IsSource, GivesNoSource, IsRefusedSource, inject_task};

use crate::counting::print_count;
use code_inject::InjectFault;
use command_base::{Refusal, ToldCause, read_file, save};
use log_dictionary::Dictionary;
use nl_io::{Files, Sink};
use preprocessor::{MAX_SOURCE, RefusalCause, refusal_lines};
use std::alloc::Global;
use trace_commands::dictionary_of_file;

/// The bytes of the source that the name holds.
fn source_of_file<'a, F: Files>(
    alloc: Global,
    files: &mut F,
    name: &'a str,
) -> Result<Vec<u8>, Refusal<'a>>
    ensures found { IfOk result (λ bytes. IsSource (F.desk files.old) name.now bytes.items) }
    ensures same { OnOk result (F.desk files.new ≡ F.desk files.old) }
    ensures unread { IfErr result (λ refusal. GivesNoSource name.now (F.desk files.old) (F.desk files.new)
        (refusal_ending refusal)) }
    ensures others { F.rest files.old files.new }
{
    match read_file(alloc, files, name, MAX_SOURCE)? {
        Some(source) => Ok(source),
        None => Err(Refusal::Refused {
            name,
            line: Some(0),
            cause: ToldCause {
                number: RefusalCause::TooLarge.number(),
                name: RefusalCause::TooLarge.name(),
            },
        }),
    }
}

/// The source with calls by number, and how many of them there are. At first the file has this name.
fn injected(
    alloc: Global,
    name: &str,
    source: &[u8],
    dictionary: &Dictionary,
) -> Result<(Vec<u8>, u32), Refusal<'static>>
    requires { length source.now ≤ MAX_SOURCE }
    ensures text { IfOk result (λ made. InjectsSource name.now source.now dictionary.now made.0.items made.1) }
    ensures refused { IfErr result (λ refusal. IsRefusedSource name.now source.now dictionary.now
        (refusal_ending refusal)) }
{
    let mut text = Vec::new(alloc);
    match code_inject::inject(alloc, name.as_bytes(), source, dictionary, &mut text) {
        Ok(count) => Ok((text, count)),
        Err(InjectFault::Bad(refusals)) => Err(Refusal::RefusedSources {
            lines: refusal_lines(alloc, &refusals)?,
        }),
        Err(InjectFault::NoMemory) => Err(Refusal::NoMemory),
    }
}

/// Writes the source that a name holds with calls by number in place of its statements, and prints how many these are.
/// The numbers are those of the dictionary whose text another name holds. Where a statement is bad, or its message isn't
/// in the dictionary, the output isn't created.
///
/// # Errors
///
/// Those of [`dictionary_of_file`]; then `Absent`, `ReadFault` and `Refused` of the source, and `RefusedSources` with what
/// is refused in it; and `WriteFault` with the name of the output, which then is as it was or holds a front of the text,
/// or with that of the standard output.
pub fn inject<'a, F: Files, O: Sink>(
    alloc: Global,
    files: &mut F,
    dictionary: &'a str,
    source: &'a str,
    output: &'a str,
    out: &mut O,
) -> Result<(), Refusal<'a>>
    ensures ends { CommandEffect (inject_task dictionary.now source.now output.now)
        (scene (F.desk files.old) (O.put out.old) (O.faults out.old))
        (scene (F.desk files.new) (O.put out.new) (O.faults out.new)) (ending_of result) }
    ensures files_others { F.rest files.old files.new }
    ensures out_others { O.rest out.old out.new }
{
    let messages = dictionary_of_file(alloc, files, dictionary)?;
    let bytes = source_of_file(alloc, files, source)?;
    let (text, count) = injected(alloc, source, &bytes, &messages)?;
    match save(files, output, &text) {
        Ok(()) => print_count(out, "injected", count),
        Err(_) => Err(Refusal::WriteFault(output)),
    }
}
