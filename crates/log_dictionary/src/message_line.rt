//! Message lines, part by part.

ghost use Rattle.std.specs.Prelude.{◌≡◌, ◌<◌, ◌≤◌, ◌^◌, ℕ, IsTrue, IfSome, IfNone, ◌↔◌, decimal};
ghost use Rattle.std.specs.Option.{option_copied, option_map};
ghost use Rattle.printf_grammar.specs.declared.limits.TheConstants.{MAX_FORMAT};
ghost use Rattle.log_dictionary.specs.declared.message.TheConstants.{MAX_FILE_NAME};
ghost use Rattle.log_dictionary.specs.Fields.{split_at_first, after};
ghost use Rattle.log_dictionary.specs.MessageLines.{spelled_parts, parts_at, message_line_fields, SpellsParts, IsMessageLine};
ghost use Rattle.log_dictionary.specs.Numbers.{natural_read};

use crate::fields::split_at_byte;
use crate::message::MAX_FILE_NAME;
use crate::numbers::{Natural, read_natural, read_number};
use crate::severity::{Severity, severity_named};
use crate::text::{SpelledText, split_text};
use printf_grammar::MAX_FORMAT;

/// The fields of a message line as they are spelled, and its texts.
#[derive(Drop)]
struct Fields<'a> {
    id: &'a [u8],
    severity: &'a [u8],
    number: &'a [u8],
    file: SpelledText<'a>,
    format: SpelledText<'a>,
}

/// What a message line says, before its format is parsed.
#[derive(Drop)]
pub(crate) struct MessageLine<'a> {
    pub(crate) id: Natural,
    pub(crate) severity: Severity,
    pub(crate) line: u32,
    pub(crate) file: SpelledText<'a>,
    pub(crate) format: SpelledText<'a>,
}

fn split_at_space(bytes: &[u8]) -> Option<(&[u8], &[u8])>
    ensures { option_map (λ parts. (parts.0.now, parts.1.now)) result ≡ split_at_first 32 bytes.now }
{
    split_at_byte(bytes, b' ')
}

fn after<'a>(bytes: &'a [u8], front: &[u8]) -> Option<&'a [u8]>
    ensures { option_copied result ≡ after front.now bytes.now }
{
    bytes.strip_prefix(front)
}

// The fields that stand before a message's texts, and the bytes from the first text on.
#[tactic(auto, unfolding(crate::specs::MessageLines::parts_at))]
fn fields_of(line: &[u8]) -> Option<Fields<'_>>
    ensures { option_map spelled_parts result ≡ parts_at line.now }
{
    let rest = after(line, b"message ")?;
    let (id, rest) = split_at_space(rest)?;
    let (severity, rest) = split_at_space(rest)?;
    let (number, rest) = split_at_space(rest)?;
    let Some((file, rest)) = split_text(rest) else {
        return None;
    };
    let rest = after(rest, b" ")?;
    let Some((format, rest)) = split_text(rest) else {
        return None;
    };
    if !rest.is_empty() {
        return None;
    }
    Some(Fields {
        id,
        severity,
        number,
        file,
        format,
    })
}

fn read_line_number(field: &[u8]) -> Option<u32>
    ensures some { IfSome result (λ n. field.now ≡ decimal n) }
    ensures none { IfNone result ((n : ℕ) → n < 2 ^ 32 → field.now ≡ decimal n → ⊥) }
{
    let number = read_number(field)?;
    if number > u32::MAX as u64 {
        return None;
    }
    Some(number as u32)
}

fn are_within_limits(file_len: usize, format_len: usize) -> bool
    ensures { IsTrue result
        ↔ ((1 ≤ file_len) × (file_len ≤ MAX_FILE_NAME) × (format_len ≤ MAX_FORMAT)) }
{
    file_len >= 1 && file_len <= MAX_FILE_NAME && format_len <= MAX_FORMAT
}

/// What the line says, if it is a message line but for what its format spells.
pub(crate) fn message_line_of(line: &[u8]) -> Option<MessageLine<'_>>
    ensures some { IfSome result (λ found. (id : ℕ) × (found.id ≡ natural_read id)
        × SpellsParts line.now (message_line_fields id found)) }
    ensures none { IfNone result (¬ (IsMessageLine line.now)) }
{
    let fields = fields_of(line)?;
    let id = read_natural(fields.id)?;
    let severity = severity_named(fields.severity)?;
    let line = read_line_number(fields.number)?;
    if !are_within_limits(fields.file.len(), fields.format.len()) {
        return None;
    }
    Some(MessageLine {
        id,
        severity,
        line,
        file: fields.file,
        format: fields.format,
    })
}
