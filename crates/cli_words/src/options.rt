//! The options of a session, and what their values say.

ghost use Rattle.std.specs.Prelude.{◌≡◌, map};
ghost use Rattle.cli_words.specs.Commands.{severity_named, policy_named};
ghost use Rattle.cli_words.specs.Commands.{ring_by, batch_by, policy_by, level_by, options_with, options_by};
ghost use Rattle.cli_words.specs.Uses.{found_values, options_in};

use crate::numbers::{number_within, small_within};
use crate::reading::found_values;
use crate::table::{BATCH, CommandRow, FULL, LEVEL, RING};
use clap::ArgMatches;
use log_dictionary::Severity;
use session_options::{MAX_BATCH, MAX_RING, MIN_RING, Options, Policy};

/// The severity of this name.
fn severity_named(name: &str) -> Option<Severity>
    ensures { result ≡ severity_named name.now }
{
    log_dictionary::severity_named(name.as_bytes())
}

/// What becomes of calls for which there is no room, by its name.
fn policy_named(name: &str) -> Option<Policy>
    ensures { result ≡ policy_named name.now }
{
    match name {
        "wait" => Some(Policy::Wait),
        "drop" => Some(Policy::Shed),
        _ => None,
    }
}

/// The words of a ring, by the values of `--ring`.
fn ring_by(values: &[&str]) -> Option<u64>
    ensures { result ≡ ring_by (map (λ value. value.now) values.now) }
{
    match values {
        [] => Some(Options::default().ring),
        [digits] => number_within(digits, MIN_RING, MAX_RING),
        _ => None,
    }
}

/// The most records of an extent, by the values of `--batch`.
fn batch_by(values: &[&str]) -> Option<u32>
    ensures { result ≡ batch_by (map (λ value. value.now) values.now) }
{
    match values {
        [] => Some(Options::default().batch),
        [digits] => small_within(digits, 1, MAX_BATCH),
        _ => None,
    }
}

/// The policy, by the values of `--full`.
fn policy_by(values: &[&str]) -> Option<Policy>
    ensures { result ≡ policy_by (map (λ value. value.now) values.now) }
{
    match values {
        [] => Some(Options::default().policy),
        [name] => policy_named(name),
        _ => None,
    }
}

/// The level, by the values of `--level`.
fn level_by(values: &[&str]) -> Option<Severity>
    ensures { result ≡ level_by (map (λ value. value.now) values.now) }
{
    match values {
        [] => Some(Options::default().level),
        [name] => severity_named(name),
        _ => None,
    }
}

/// The options together, where each is right.
fn options_with(
    ring: Option<u64>,
    batch: Option<u32>,
    policy: Option<Policy>,
    level: Option<Severity>,
) -> Option<Options>
    ensures { result ≡ options_with ring batch policy level }
{
    Some(Options {
        ring: ring?,
        batch: batch?,
        policy: policy?,
        level: level?,
    })
}

/// The options by what was found of each, where all their values are right.
fn options_by(found: &ArgMatches<'_>) -> Option<Options>
    ensures { result ≡ options_by (found_values found.now) }
{
    options_with(
        ring_by(found_values(found, RING)),
        batch_by(found_values(found, BATCH)),
        policy_by(found_values(found, FULL)),
        level_by(found_values(found, LEVEL)),
    )
}

/// The options of the command by what was found of each, or the usual ones where it takes none.
pub(crate) fn options_in(row: &CommandRow, found: &ArgMatches<'_>) -> Option<Options>
    ensures { result ≡ options_in row.now.has_options (found_values found.now) }
{
    if row.has_options {
        options_by(found)
    } else {
        Some(Options::default())
    }
}
