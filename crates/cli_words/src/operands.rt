//! What the operands of a command are given.

ghost use Rattle.std.specs.Prelude.{◌≡◌, IfOk, map, option_map};
ghost use Rattle.cli_words.specs.Commands.{is_name, is_file, is_other, are_sources, value_at, words_behind, operand_values};
ghost use Rattle.cli_words.specs.CommandViews.{value_is};
ghost use Rattle.cli_words.specs.TableViews.{operand_is};

use crate::numbers::{MAX_SEED, number_within, small_within};
use crate::table::{Operand, OperandKind};
use std::alloc::{AllocError, Global};

/// The most sources of one dictionary.
pub const MAX_SOURCES: usize = 1_024;

/// What an operand is given.
#[derive(Clone, Copy, Debug, PartialEq, Eq)]
pub(crate) enum OperandValue<'w, 'a> {
    File(&'a str),
    Sources(&'w [&'a str]),
    Number(u32),
    Seed(u64),
}

/// Whether a word that isn't an option can be a name: it isn't empty.
fn is_name(word: &str) -> bool
    ensures { result ≡ is_name word.now }
{
    !word.is_empty()
}

/// Whether the operand is given the file of this name.
fn is_file(word: &str, value: &OperandValue<'_, '_>) -> bool
    ensures { result ≡ is_file word.now (value_is value.now) }
{
    match value {
        OperandValue::File(name) => *name == word,
        _ => false,
    }
}

/// Whether it can be a name, and is another one than those of the files that are given before.
fn is_other(given: &[OperandValue<'_, '_>], word: &str) -> bool
    ensures { result ≡ is_other (map value_is given.now) word.now }
{
    is_name(word) && given.iter().all(|value| !is_file(word, value))
}

/// Whether these can be the names of sources: there is one at least, there are not too many, and none is that of a file
/// which is given before.
fn are_sources(given: &[OperandValue<'_, '_>], words: &[&str]) -> bool
    ensures { result ≡ are_sources (map value_is given.now) (map (λ word. word.now) words.now) }
{
    !words.is_empty()
        && words.len() <= MAX_SOURCES
        && words.iter().all(|word| is_other(given, word))
}

/// What an operand of this kind is given by the words that are left, where the first of them fits, or all do. The other
/// values are given before.
fn read_value<'w, 'a>(
    kind: OperandKind,
    given: &[OperandValue<'w, 'a>],
    words: &'w [&'a str],
) -> Option<OperandValue<'w, 'a>>
    ensures { option_map value_is result
        ≡ value_at (map value_is given.now) kind (map (λ word. word.now) words.now) }
{
    match (kind, words) {
        (OperandKind::Sources, _) if are_sources(given, words) => Some(OperandValue::Sources(
            words,
        )),
        (OperandKind::File, [word, ..]) if is_name(word) => Some(OperandValue::File(word)),
        (OperandKind::OtherFile, [word, ..]) if is_other(given, word) => Some(OperandValue::File(
            word,
        )),
        (OperandKind::Number { least, most }, [word, ..]) => {
            Some(OperandValue::Number(small_within(word, least, most)?))
        }
        (OperandKind::Seed, [word, ..]) => Some(OperandValue::Seed(number_within(
            word, 0, MAX_SEED,
        )?)),
        _ => None,
    }
}

/// The words that are left behind an operand of this kind.
fn words_behind<'w, 'a>(kind: OperandKind, words: &'w [&'a str]) -> &'w [&'a str]
    ensures { map (λ word. word.now) result.now ≡ words_behind kind (map (λ word. word.now) words.now) }
{
    match (kind, words) {
        (OperandKind::Sources, _) => &[],
        (_, [_, rest @ ..]) => rest,
        (_, []) => &[],
    }
}

/// What the operands are given by these words, where each fits and none is left over.
pub(crate) fn read_operands<'w, 'a>(
    alloc: Global,
    operands: &[Operand],
    words: &'w [&'a str],
) -> Result<Option<Vec<OperandValue<'w, 'a>>>, AllocError>
    ensures { IfOk result (λ values. option_map (λ values. map value_is values.items) values
        ≡ operand_values (map operand_is operands.now) (map (λ word. word.now) words.now)) }
{
    let mut values = Vec::new(alloc);
    let mut left = words;
    for operand in operands {
        let Some(value) = read_value(operand.kind, &values, left) else {
            return Ok(None);
        };
        values.push(value)?;
        left = words_behind(operand.kind, left);
    }
    if left.is_empty() {
        Ok(Some(values))
    } else {
        Ok(None)
    }
}
