//! The command `preprocess`.

ghost use Rattle.std.specs.Prelude.{◌≡◌, ◌≢◌, IfOk};
ghost use Rattle.log_dictionary.specs.Canonical.{dictionary_text};
ghost use Rattle.command_base.specs.Endings.{ending_of, NoMemory as WantsMemory};
ghost use Rattle.command_base.specs.Effects.{CommandEffect};
ghost use Rattle.command_base.specs.Printing.{Prints};
ghost use Rattle.command_base.specs.Scenes.{scene};
ghost use Rattle.command_base.specs.Words.{contents};
ghost use Rattle.source_commands.specs.Preprocessing.{counts_text, preprocess_task};

use crate::sources::number_sources;
use command_base::{Refusal, print_pieces, save};
use itoa::Buffer;
use log_dictionary::Dictionary;
use nl_io::{Files, Sink};
use preprocessor::refusal_lines;
use std::alloc::{AllocError, Global};

/// The text of the dictionary.
fn text_of(alloc: Global, dictionary: &Dictionary) -> Result<Vec<u8>, AllocError>
    ensures { IfOk result (λ text. text.items ≡ dictionary_text dictionary.now) }
{
    let mut text = Vec::new(alloc);
    dictionary.write_text(&mut text)?;
    Ok(text)
}

/// Prints how many messages were written, and of how many statements. It takes no memory.
fn print_numbers<O: Sink>(
    out: &mut O,
    messages: u32,
    statements: u64,
) -> Result<(), Refusal<'static>>
    ensures printed { Prints (counts_text messages statements) (O.put out.old) (O.put out.new)
        (O.faults out.old) (O.faults out.new) (ending_of result) }
    ensures memory { ending_of result ≢ WantsMemory }
    ensures others { O.rest out.old out.new }
{
    let mut messages_digits = Buffer::new();
    let mut statements_digits = Buffer::new();
    let messages = messages_digits.format(messages);
    let statements = statements_digits.format(statements);
    print_pieces(
        out,
        &["messages ", messages, " statements ", statements, "\n"],
    )
}

/// Writes the messages of the sources to the dictionary, and prints how many they are, and how many statements. Where
/// something of the sources is refused, the dictionary isn't created.
pub fn preprocess<'a, F: Files, O: Sink>(
    alloc: Global,
    files: &mut F,
    dictionary: &'a str,
    sources: &[&'a str],
    out: &mut O,
) -> Result<(), Refusal<'a>>
    ensures ends { CommandEffect (preprocess_task dictionary.now (contents sources.now))
        (scene (F.desk files.old) (O.put out.old) (O.faults out.old))
        (scene (F.desk files.new) (O.put out.new) (O.faults out.new)) (ending_of result) }
    ensures files_others { F.rest files.old files.new }
    ensures out_others { O.rest out.old out.new }
{
    let numbering = number_sources(alloc, files, sources)?;
    if !numbering.refusals.is_empty() {
        let lines = refusal_lines(alloc, &numbering.refusals)?;
        return Err(Refusal::RefusedSources { lines });
    }
    let messages = &numbering.dictionary;
    let text = text_of(alloc, messages)?;
    match save(files, dictionary, &text) {
        Ok(()) => print_numbers(out, messages.len(), numbering.statements),
        Err(_) => Err(Refusal::WriteFault(dictionary)),
    }
}
