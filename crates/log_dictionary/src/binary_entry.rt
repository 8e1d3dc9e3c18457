//! Messages as entries of a log, in bytes.

ghost use Rattle.std.specs.Prelude.{◌≡◌, ◌+◌, ◌≤◌, ◌<◌, ◌^◌, ◌++◌, length, take, drop, IfOk, MatchResult, Ok, Err};
ghost use Rattle.nibble_pack.specs.Parsing.{low_first};
ghost use Rattle.log_dictionary.specs.declared.binary_entry.EntryCause.{EntryCause as NoEntry};
ghost use Rattle.log_dictionary.specs.BinaryEntries.{entry_bytes, SpellsEntry, text_bytes};
ghost use Rattle.log_dictionary.specs.EntryReading.{severity_at, sized_text_at, fields_at, entry_at, raw_fields, fault_of, IsNoEntry};

use crate::formats::{FormatFault, format_of};
use crate::message::{MAX_FILE_NAME, Message};
use crate::severity::Severity;
use printf_grammar::{Bytes, MAX_FORMAT};
use std::alloc::Global;

/// The bytes of the severity, the line and the two lengths.
const FIXED_LEN: usize = 9;

/// The most bytes of an entry.
pub const MAX_ENTRY: usize = FIXED_LEN + MAX_FILE_NAME + MAX_FORMAT;

/// Why bytes begin with no entry.
#[derive(Clone, Copy, Debug, PartialEq, Eq)]
pub enum EntryCause {
    /// The bytes end inside an entry that is right so far.
    Cut,
    /// A field is out of range, or the format is refused.
    BadEntry,
}

/// Why no entry was read.
#[derive(Clone, Copy, Debug, PartialEq, Eq)]
pub enum EntryFault {
    /// The bytes end inside an entry that is right so far.
    Cut,
    /// A field is out of range, or the format is refused.
    BadEntry,
    NoMemory,
}

impl From<EntryCause> for EntryFault {
    ghost from_gives = { λ cause fault. fault ≡ fault_of cause };

    fn from(cause: EntryCause) -> EntryFault {
        match cause {
            EntryCause::Cut => EntryFault::Cut,
            EntryCause::BadEntry => EntryFault::BadEntry,
        }
    }
}

/// What an entry says, before its format is parsed.
#[derive(Clone, Copy)]
struct EntryFields<'a> {
    severity: Severity,
    line: u32,
    file: &'a [u8],
    format: &'a [u8],
}

/// The number of bytes of the message's entry.
pub fn entry_len(message: &Message) -> usize
    ensures len { result ≡ length (entry_bytes message.now) }
    ensures bound { result ≤ 4359 }
{
    FIXED_LEN + message.file.as_slice().len() + message.format.bytes().len()
}

/// Copies the bytes to this place, and gives the place after them.
pub fn put(into: &mut [u8], at: usize, bytes: &[u8]) -> usize
    requires room { at + length bytes.now ≤ length into.now }
    ensures put { into.new ≡ take at into.old ++ bytes.now ++ drop result into.old }
    ensures after { result ≡ at + length bytes.now }
    ensures kept { length into.new ≡ length into.old }
{
    let end = at + bytes.len();
    into[at..end].copy_from_slice(bytes);
    end
}

// Copies the text with its length in front.
fn put_text(into: &mut [u8], at: usize, text: &[u8]) -> usize
    requires short { length text.now < 2 ^ 16 }
    requires room { at + 2 + length text.now ≤ length into.now }
    ensures put { into.new ≡ take at into.old ++ text_bytes text.now ++ drop result into.old }
    ensures after { result ≡ at + 2 + length text.now }
    ensures kept { length into.new ≡ length into.old }
{
    let at = put(into, at, &(text.len() as u16).to_le_bytes());
    put(into, at, text)
}

/// Writes the message's entry to the front, and gives its length.
pub fn put_entry(message: &Message, into: &mut [u8]) -> usize
    requires room { length (entry_bytes message.now) ≤ length into.now }
    ensures put { into.new ≡ entry_bytes message.now ++ drop result into.old }
    ensures len { result ≡ length (entry_bytes message.now) }
    ensures spelled { SpellsEntry (entry_bytes message.now) message.now }
{
    let at = put(into, 0, &[message.severity.number()]);
    let at = put(into, at, &message.line.to_le_bytes());
    let at = put_text(into, at, message.file.as_slice());
    put_text(into, at, message.format.bytes())
}

// Each of these calls gives the bytes behind what it read.
fn read_severity(bytes: &[u8]) -> Result<(Severity, &[u8]), EntryCause>
    ensures { MatchResult result
        (λ read. severity_at bytes.now ≡ Ok (read.0, read.1.now))
        (λ cause. severity_at bytes.now ≡ Err cause) }
{
    match bytes {
        [] => Err(EntryCause::Cut),
        [1, rest @ ..] => Ok((Severity::Error, rest)),
        [2, rest @ ..] => Ok((Severity::Warning, rest)),
        [3, rest @ ..] => Ok((Severity::Notice, rest)),
        [4, rest @ ..] => Ok((Severity::Debug, rest)),
        _ => Err(EntryCause::BadEntry),
    }
}

fn read_u32(bytes: &[u8]) -> Result<(u32, &[u8]), EntryCause>
    ensures { MatchResult result
        (λ read. low_first 4 EntryCause.Cut bytes.now ≡ Ok (read.0, read.1.now))
        (λ cause. low_first 4 EntryCause.Cut bytes.now ≡ Err cause) }
{
    match bytes {
        [a, b, c, d, rest @ ..] => Ok((u32::from_le_bytes([*a, *b, *c, *d]), rest)),
        _ => Err(EntryCause::Cut),
    }
}

fn read_u16(bytes: &[u8]) -> Result<(u16, &[u8]), EntryCause>
    ensures { MatchResult result
        (λ read. low_first 2 EntryCause.Cut bytes.now ≡ Ok (read.0, read.1.now))
        (λ cause. low_first 2 EntryCause.Cut bytes.now ≡ Err cause) }
{
    match bytes {
        [low, high, rest @ ..] => Ok((u16::from_le_bytes([*low, *high]), rest)),
        _ => Err(EntryCause::Cut),
    }
}

// A text with its length in front, which is from `least` to `most`.
fn read_text(bytes: &[u8], least: usize, most: usize) -> Result<(&[u8], &[u8]), EntryCause>
    ensures { MatchResult result
        (λ read. sized_text_at least most bytes.now ≡ Ok (read.0.now, read.1.now))
        (λ cause. sized_text_at least most bytes.now ≡ Err cause) }
{
    let (len, rest) = read_u16(bytes)?;
    let len = usize::from(len);
    if len < least || len > most {
        return Err(EntryCause::BadEntry);
    }
    if rest.len() < len {
        return Err(EntryCause::Cut);
    }
    Ok(rest.split_at(len))
}

fn read_fields(bytes: &[u8]) -> Result<(EntryFields<'_>, &[u8]), EntryCause>
    ensures { MatchResult result
        (λ read. fields_at bytes.now ≡ Ok (raw_fields read.0, read.1.now))
        (λ cause. fields_at bytes.now ≡ Err cause) }
{
    let (severity, rest) = read_severity(bytes)?;
    let (line, rest) = read_u32(rest)?;
    let (file, rest) = read_text(rest, 1, MAX_FILE_NAME)?;
    let (format, rest) = read_text(rest, 0, MAX_FORMAT)?;
    let fields = EntryFields {
        severity,
        line,
        file,
        format,
    };
    Ok((fields, rest))
}

/// The message whose entry the bytes begin with, and the length of the entry.
pub fn read_entry(alloc: Global, bytes: &[u8]) -> Result<(Message, usize), EntryFault>
    ensures read { MatchResult result
        (λ read. entry_at bytes.now ≡ Ok (read.0, drop read.1 bytes.now))
        (IsNoEntry (λ cause. entry_at bytes.now ≡ Err cause)) }
    ensures within { IfOk result (λ read. read.1 ≤ length bytes.now) }

    // Where bytes end, and where a field is out of range, is found also where there is no memory.
    ensures no_fields { (cause : NoEntry) → fields_at bytes.now ≡ Err cause → result ≡ Err (fault_of cause) }
{
    let (fields, _) = read_fields(bytes)?;
    let format = match format_of(alloc, fields.format) {
        Ok(format) => format,
        Err(FormatFault::Bad) => return Err(EntryFault::BadEntry),
        Err(FormatFault::NoMemory) => return Err(EntryFault::NoMemory),
    };
    let Ok(file) = Bytes::from_slice(alloc, fields.file) else {
        return Err(EntryFault::NoMemory);
    };
    let message = Message {
        file,
        line: fields.line,
        severity: fields.severity,
        format,
    };
    let len = entry_len(&message);
    Ok((message, len))
}
