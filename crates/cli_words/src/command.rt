//! The commands of the program, and which one a command line asks for.

ghost use Rattle.std.specs.Prelude.{◌≡◌, IfOk, IfSome, option_map, map};
ghost use Rattle.cli_words.specs.Commands.{command_of, texts_of, made};
ghost use Rattle.cli_words.specs.declared.table.CommandForm.TheVariants as forms;
ghost use Rattle.session_options.specs.declared.options.Options.{Options};
ghost use Rattle.cli_words.specs.CommandViews.{command_is, value_is};
ghost use Rattle.cli_words.specs.Rows.{IsLawful};
ghost use Rattle.cli_words.specs.TableViews.{row_is};
ghost use Rattle.cli_words.specs.Uses.{found_command, found_values};

use crate::operands::{OperandValue, read_operands};
use crate::options::options_in;
use crate::reading::{NAMES, found_values, read_words};
use crate::table::{CommandForm, CommandRow, row_named};
use clap::ArgMatches;
use session_options::Options;
use std::alloc::{AllocError, Global};

/// What the program is asked to do.
#[derive(Debug, Drop, PartialEq, Eq)]
pub enum Command<'a> {
    /// To write the dictionary of the messages of sources. A source may be named twice.
    Preprocess {
        dictionary: &'a str,
        sources: Vec<&'a str>,
    },
    /// To print the lines of a trace.
    Direct {
        trace: &'a str,
    },
    /// To write the log of a trace, by a session with these options.
    Replay {
        trace: &'a str,
        log: &'a str,
        options: Options,
    },
    /// To print the lines of a log.
    Decompress {
        log: &'a str,
    },
    /// To print the totals of an argument of a message, by the id and the place of both.
    Aggregate {
        log: &'a str,
        id: u32,
        nth: u32,
    },
    /// To print a generated trace.
    Generate {
        seed: u64,
        calls: u32,
        writers: u32,
    },
    /// To make the calls of a generated trace, and to read their log.
    Selftest {
        seed: u64,
        calls: u32,
        writers: u32,
    },
    /// To make the steps of a schedule, and to print a line for each.
    Schedule {
        file: &'a str,
    },
    /// To write the log of version 2 that has what a log of version 1 has.
    Migrate {
        old: &'a str,
        new: &'a str,
    },
    /// To write a source with calls by number in place of its log statements.
    Inject {
        dictionary: &'a str,
        source: &'a str,
        output: &'a str,
    },
    /// To write the header that goes with the messages of a dictionary.
    Header {
        dictionary: &'a str,
        output: &'a str,
    },
}

/// The command `preprocess`, if these are its operands.
fn preprocess_of<'a>(
    alloc: Global,
    values: &[OperandValue<'_, 'a>],
) -> Result<Option<Command<'a>>, AllocError>
    ensures { IfOk result (λ command. (options : Options) →
        option_map command_is command ≡ made forms.Preprocess (map value_is values.now) options) }
{
    match values {
        [
            OperandValue::File(dictionary),
            OperandValue::Sources(sources),
        ] => Ok(Some(Command::Preprocess {
            dictionary,
            sources: Vec::from_slice(alloc, sources)?,
        })),
        _ => Ok(None),
    }
}

/// The command `replay`, if these are its operands.
fn replay_of<'a>(values: &[OperandValue<'_, 'a>], options: Options) -> Option<Command<'a>>
    ensures { option_map command_is result ≡ made forms.Replay (map value_is values.now) options }
{
    match values {
        [OperandValue::File(trace), OperandValue::File(log)] => Some(Command::Replay {
            trace,
            log,
            options,
        }),
        _ => None,
    }
}

/// The command `decompress`, if these are its operands.
fn decompress_of<'a>(values: &[OperandValue<'_, 'a>]) -> Option<Command<'a>>
    ensures { (options : Options) →
        option_map command_is result ≡ made forms.Decompress (map value_is values.now) options }
{
    match values {
        [OperandValue::File(log)] => Some(Command::Decompress { log }),
        _ => None,
    }
}

/// The command `aggregate`, if these are its operands.
fn aggregate_of<'a>(values: &[OperandValue<'_, 'a>]) -> Option<Command<'a>>
    ensures { (options : Options) →
        option_map command_is result ≡ made forms.Aggregate (map value_is values.now) options }
{
    match values {
        [
            OperandValue::File(log),
            OperandValue::Number(id),
            OperandValue::Number(nth),
        ] => Some(Command::Aggregate {
            log,
            id: *id,
            nth: *nth,
        }),
        _ => None,
    }
}

/// The command `direct`, if these are its operands.
fn direct_of<'a>(values: &[OperandValue<'_, 'a>]) -> Option<Command<'a>>
    ensures { (options : Options) →
        option_map command_is result ≡ made forms.Direct (map value_is values.now) options }
{
    match values {
        [OperandValue::File(trace)] => Some(Command::Direct { trace }),
        _ => None,
    }
}

/// The command `generate`, if these are its operands.
fn generate_of<'a>(values: &[OperandValue<'_, 'a>]) -> Option<Command<'a>>
    ensures { (options : Options) →
        option_map command_is result ≡ made forms.Generate (map value_is values.now) options }
{
    match values {
        [
            OperandValue::Seed(seed),
            OperandValue::Number(calls),
            OperandValue::Number(writers),
        ] => Some(Command::Generate {
            seed: *seed,
            calls: *calls,
            writers: *writers,
        }),
        _ => None,
    }
}

/// The command `selftest`, if these are its operands.
fn selftest_of<'a>(values: &[OperandValue<'_, 'a>]) -> Option<Command<'a>>
    ensures { (options : Options) →
        option_map command_is result ≡ made forms.Selftest (map value_is values.now) options }
{
    match values {
        [
            OperandValue::Seed(seed),
            OperandValue::Number(calls),
            OperandValue::Number(writers),
        ] => Some(Command::Selftest {
            seed: *seed,
            calls: *calls,
            writers: *writers,
        }),
        _ => None,
    }
}

/// The command `schedule`, if these are its operands.
fn schedule_of<'a>(values: &[OperandValue<'_, 'a>]) -> Option<Command<'a>>
    ensures { (options : Options) →
        option_map command_is result ≡ made forms.Schedule (map value_is values.now) options }
{
    match values {
        [OperandValue::File(file)] => Some(Command::Schedule { file }),
        _ => None,
    }
}

/// The command `migrate`, if these are its operands.
fn migrate_of<'a>(values: &[OperandValue<'_, 'a>]) -> Option<Command<'a>>
    ensures { (options : Options) →
        option_map command_is result ≡ made forms.Migrate (map value_is values.now) options }
{
    match values {
        [OperandValue::File(old), OperandValue::File(new)] => Some(Command::Migrate { old, new }),
        _ => None,
    }
}

/// The command `inject`, if these are its operands.
fn inject_of<'a>(values: &[OperandValue<'_, 'a>]) -> Option<Command<'a>>
    ensures { (options : Options) →
        option_map command_is result ≡ made forms.Inject (map value_is values.now) options }
{
    match values {
        [
            OperandValue::File(dictionary),
            OperandValue::File(source),
            OperandValue::File(output),
        ] => Some(Command::Inject {
            dictionary,
            source,
            output,
        }),
        _ => None,
    }
}

/// The command `header`, if these are its operands.
fn header_of<'a>(values: &[OperandValue<'_, 'a>]) -> Option<Command<'a>>
    ensures { (options : Options) →
        option_map command_is result ≡ made forms.Header (map value_is values.now) options }
{
    match values {
        [OperandValue::File(dictionary), OperandValue::File(output)] => Some(Command::Header {
            dictionary,
            output,
        }),
        _ => None,
    }
}

/// The command of this form with what its operands are given.
fn made<'a>(
    alloc: Global,
    form: CommandForm,
    values: &[OperandValue<'_, 'a>],
    options: Options,
) -> Result<Option<Command<'a>>, AllocError>
    ensures { IfOk result (λ command. option_map command_is command ≡ made form (map value_is values.now) options) }
{
    match form {
        CommandForm::Preprocess => preprocess_of(alloc, values),
        CommandForm::Replay => Ok(replay_of(values, options)),
        CommandForm::Decompress => Ok(decompress_of(values)),
        CommandForm::Aggregate => Ok(aggregate_of(values)),
        CommandForm::Direct => Ok(direct_of(values)),
        CommandForm::Generate => Ok(generate_of(values)),
        CommandForm::Selftest => Ok(selftest_of(values)),
        CommandForm::Schedule => Ok(schedule_of(values)),
        CommandForm::Migrate => Ok(migrate_of(values)),
        CommandForm::Inject => Ok(inject_of(values)),
        CommandForm::Header => Ok(header_of(values)),
    }
}

/// The command of a row with what was found.
fn found_command<'a>(
    alloc: Global,
    row: &CommandRow,
    found: &ArgMatches<'a>,
) -> Result<Option<Command<'a>>, AllocError>
    ensures { IfOk result (λ command.
        option_map command_is command ≡ found_command (row_is row.now) (found_values found.now)) }
{
    let Some(options) = options_in(row, found) else {
        return Ok(None);
    };
    match read_operands(alloc, row.operands, found_values(found, NAMES))? {
        Some(values) => made(alloc, row.form, values.as_slice(), options),
        None => Ok(None),
    }
}

/// The command that the words after the program's name ask for, or None where the line is faulty.
///
/// The first word is the command, and behind it stand its operands, as the usage text has them ([`usage`](crate::usage)).
/// Options stand anywhere behind the command, as `--level S` or `--level=S`, until a word `--`, after which every word is
/// a name or a number.
pub fn command_of(alloc: Global, words: &[String]) -> Result<Option<Command<'_>>, AllocError>
    ensures asked { IfOk result (λ command. option_map command_is command ≡ command_of (texts_of words.now)) }
    ensures lawful { IfOk result (λ command. IfSome command (λ command. IsLawful (command_is command))) }
{
    let Some((word, rest)) = words.split_first() else {
        return Ok(None);
    };
    let Some(row) = row_named(word.as_str()) else {
        return Ok(None);
    };
    match read_words(alloc, row, rest)? {
        Some(found) => found_command(alloc, row, &found),
        None => Ok(None),
    }
}
