//! The words after a command, as `clap` reads them: names, and options with their values.

ghost use Rattle.std.specs.Prelude.{◌≡◌, IfOk, map};
ghost use Rattle.clap.specs.Words.{app_of};
ghost use Rattle.cli_words.specs.Commands.{texts_of};
ghost use Rattle.cli_words.specs.Table.{options_taken};
ghost use Rattle.cli_words.specs.TableViews.{row_is};
ghost use Rattle.cli_words.specs.Uses.{found_values, IsParsed};
ghost use Rattle.cli_words.specs.Apps.{app};

use crate::table::{CommandRow, row_options};
use clap::error::ErrorKind;
use clap::{Arg, ArgAction, ArgMatches, Command};
use std::alloc::{AllocError, Global};

/// What `clap` calls the names.
pub(crate) const NAMES: &str = "names";

/// What `clap` is told of the words after the command. How many names there are, and what they and the values of the
/// options are, is judged once they are read.
fn reader<'a>(alloc: Global, row: &CommandRow) -> Result<Command<'a>, AllocError>
    ensures { IfOk result (λ command. app_of command ≡ app (options_taken (row_is row.now))) }
{
    let names = Arg::new(alloc, NAMES).action(ArgAction::Append);
    let mut command = Command::new(alloc, "nanolog")
        .no_binary_name(true)
        .disable_help_flag(true)
        .arg(names)?;
    for option in row_options(row) {
        let name: &'a str = option.name;
        let argument = Arg::new(alloc, name).long(name).action(ArgAction::Append);
        command = command.arg(argument)?;
    }
    Ok(command)
}

/// What the words after the command hold, if they are right. The texts of `clap` for those that aren't are dropped.
pub(crate) fn read_words<'a>(
    alloc: Global,
    row: &CommandRow,
    words: &'a [String],
) -> Result<Option<ArgMatches<'a>>, AllocError>
    ensures { IfOk result (λ found. IsParsed (options_taken (row_is row.now)) (texts_of words.now) found) }
{
    match reader(alloc, row)?.try_get_matches_from(words) {
        Ok(matches) => Ok(Some(matches)),
        Err(error) => match error.kind() {
            ErrorKind::OutOfMemory => Err(AllocError),
            _ => Ok(None),
        },
    }
}

/// The values that were found of an id, in order: none where it wasn't used.
pub(crate) fn found_values<'w, 'a>(found: &'w ArgMatches<'a>, id: &str) -> &'w [&'a str]
    ensures { map (λ value. value.now) result.now ≡ found_values found.now id.now }
{
    found.get_strs(id).unwrap_or_default()
}
