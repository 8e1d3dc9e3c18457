//! The command `header`.

ghost use Rattle.std.specs.Prelude.{◌≡◌, IfOk};
ghost use Rattle.code_inject.specs.Headers.{header_text};
ghost use Rattle.command_base.specs.Endings.{ending_of};
ghost use Rattle.command_base.specs.Effects.{CommandEffect};
ghost use Rattle.command_base.specs.Scenes.{scene};
ghost use Rattle.dictionary_commands.specs.Heading.{header_task};

use crate::counting::print_count;
use command_base::{Refusal, save};
use log_dictionary::Dictionary;
use nl_io::{Files, Sink};
use std::alloc::{AllocError, Global};
use trace_commands::dictionary_of_file;

/// The header of the dictionary.
fn made_header(alloc: Global, dictionary: &Dictionary) -> Result<Vec<u8>, AllocError>
    ensures { IfOk result (λ text. text.items ≡ header_text dictionary.now) }
{
    let mut text = Vec::new(alloc);
    code_inject::header(dictionary, &mut text)?;
    Ok(text)
}

/// Writes the header of the dictionary whose text a name holds, and prints how many messages it has.
///
/// # Errors
///
/// Those of [`dictionary_of_file`], and `WriteFault` with the name of the output, which then is as it was or holds a
/// front of the header, or with that of the standard output.
pub fn header<'a, F: Files, O: Sink>(
    alloc: Global,
    files: &mut F,
    dictionary: &'a str,
    output: &'a str,
    out: &mut O,
) -> Result<(), Refusal<'a>>
    ensures ends { CommandEffect (header_task dictionary.now output.now)
        (scene (F.desk files.old) (O.put out.old) (O.faults out.old))
        (scene (F.desk files.new) (O.put out.new) (O.faults out.new)) (ending_of result) }
    ensures files_others { F.rest files.old files.new }
    ensures out_others { O.rest out.old out.new }
{
    let messages = dictionary_of_file(alloc, files, dictionary)?;
    let text = made_header(alloc, &messages)?;
    match save(files, output, &text) {
        Ok(()) => print_count(out, "messages", messages.len()),
        Err(_) => Err(Refusal::WriteFault(output)),
    }
}
