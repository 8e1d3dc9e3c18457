//! The statements of a source.

ghost use Rattle.std.specs.Prelude.{◌≡◌, ◌≤◌, ◌<◌, ◌^◌, length, IfOk};
ghost use Rattle.std.specs.Option.{ForSome};
ghost use Rattle.source_scan.specs.Readings.{parted_of};
ghost use Rattle.source_scan.specs.Positions.{in_force_at, line_number_at};
ghost use Rattle.source_scan.specs.Cursors.{CursorFollows, IsHere};
ghost use Rattle.source_scan.specs.Rising.{RiseFrom};
ghost use Rattle.source_scan.specs.Statements.{source_text, LinesFit, begins, reading_of, IsUnclosedFound};
ghost use Rattle.source_scan.specs.Statements.{IsFoundIn, own_tokens, Finds, Statements};

use crate::arguments::{arguments_of, closing_place, is_mark};
use crate::cursor::{Cursor, front_cursor, moved_to};
use crate::found::{BadStatement, Found, StatementCause};
use crate::position::{PlacedChange, SourcePosition, line_changes};
use crate::reading::StatementReading;
use crate::text::{is_word, significant};
use printf_grammar::Bytes;
use source_tokens::{Token, parts};
use std::alloc::{AllocError, Global};

/// The most bytes of a source that is scanned.
pub const MAX_SOURCE: usize = 16_777_216;

/// A source with the name of its file and its line directives.
#[derive(Clone, Copy, Debug)]
pub struct ScanInput<'a> {
    pub file: &'a [u8],
    pub bytes: &'a [u8],
    pub changes: &'a [PlacedChange],
}

/// Whether a statement begins with the token: `NANO_LOG` and `(`, where these tokens stand behind it.
fn begins(source: &[u8], token: &Token, behind: &[Token]) -> bool
    ensures { result ≡ begins source.now token.now behind.now }
{
    match behind {
        [next, ..] => is_word(b"NANO_LOG", source, token) && is_mark(b'(', next),
        [] => false,
    }
}

/// The statement that begins with the token and whose parenthesis closes at the place.
#[tactic(auto, using(crate::proofs::Heads::head_within))]
fn reading_of<'a>(
    here: SourcePosition<'a>,
    token: &Token,
    inside: &'a [Token],
    place: usize,
) -> StatementReading<'a>
    requires place { place < length inside.now }
    requires rise { RiseFrom 0 inside.now MAX_SOURCE }
    ensures { parted_of result ≡ reading_of here.entry.name.now here.entry.number token.now inside.now place }
{
    let arguments = arguments_of(inside.split_at(place).0);
    StatementReading {
        file: here.name,
        line: here.number,
        severity: arguments.first,
        format: arguments.second,
        args: arguments.others as u32,
        start: token.start,
        head: inside[arguments.head].start,
        end: inside[place].start + 1,
    }
}

/// A statement that nothing closes.
fn unclosed(alloc: Global, here: SourcePosition<'_>) -> Result<Found, AllocError>
    ensures { IfOk result (IsUnclosedFound here.entry.name.now here.entry.number) }
{
    let file = Bytes::from_slice(alloc, here.name)?;
    let line = here.number;
    let cause = StatementCause::Unclosed;
    Ok(Found::Bad(BadStatement { file, line, cause }))
}

/// What begins with the token, where this is in force, by the place where its parenthesis closes.
fn found_at(
    alloc: Global,
    source: &[u8],
    here: SourcePosition<'_>,
    token: &Token,
    inside: &[Token],
    closing: Option<usize>,
) -> Result<Found, AllocError>
    requires closing { ForSome closing (λ place. place < length inside.now) }
    requires rise { RiseFrom 0 inside.now MAX_SOURCE }
    ensures { IfOk result (IsFoundIn source.now here.entry.name.now here.entry.number token.now inside.now closing) }
{
    match closing {
        None => unclosed(alloc, here),
        Some(place) => reading_of(here, token, inside, place).found(alloc, source),
    }
}

/// How many of the tokens behind `(` are a statement's own.
fn own_tokens(inside: &[Token], closing: Option<usize>) -> usize
    requires { ForSome closing (λ place. place < length inside.now) }
    ensures own { result ≡ own_tokens inside.now closing }
    ensures within { result ≤ length inside.now }
{
    match closing {
        Some(place) => place + 1,
        None => inside.len(),
    }
}

/// The cursor, moved on to a place of its source.
fn cursor_at<'a>(source: ScanInput<'a>, cursor: Cursor<'a>, place: usize) -> Cursor<'a>
    requires from { cursor.position.from ≤ place }
    requires follows { CursorFollows source.file.now source.bytes.now source.changes.now cursor }
    requires line { line_number_at source.bytes.now (in_force_at source.file.now source.changes.now place) place
        < 2 ^ 32 }
    ensures { IsHere source.entry.file.now source.entry.bytes.now source.entry.changes.now place result }
{
    moved_to(source.bytes, cursor, place)
}

/// The statements among the tokens, in order.
fn find_statements(
    alloc: Global,
    source: ScanInput<'_>,
    tokens: &[Token],
) -> Result<Vec<Found>, AllocError>
    requires rise { RiseFrom 0 tokens.now MAX_SOURCE }
    requires lines { LinesFit (source_text source) }
    ensures { IfOk result (λ found. Finds (source_text source.entry) 0 tokens.now found.items) }
{
    let mut found = Vec::new(alloc);
    let mut rest = tokens;
    let mut cursor = front_cursor(source.file, source.changes);
    while let [token, behind @ ..] = rest {
        rest = behind;
        if !begins(source.bytes, token, behind) {
            continue;
        }
        cursor = cursor_at(source, cursor, token.start);
        let inside = behind.split_at(1).1;
        let closing = closing_place(inside);
        found.push(found_at(alloc, source.bytes, cursor.position, token, inside, closing)?)?;
        rest = inside.split_at(own_tokens(inside, closing)).1;
    }
    Ok(found)
}

/// The statements of a source, good and bad ones, in order. At first the file has this name.
///
/// # Errors
///
/// There is no memory.
pub fn scan(alloc: Global, file: &[u8], source: &[u8]) -> Result<Vec<Found>, AllocError>
    requires { length source.now ≤ MAX_SOURCE }
    ensures { IfOk result (λ found. Statements file.now source.now found.items) }
{
    let parts = parts(alloc, source)?;
    let changes = line_changes(alloc, source, parts.as_slice())?;
    let tokens = significant(alloc, parts.as_slice())?;
    let source = ScanInput {
        file,
        bytes: source,
        changes: &changes,
    };
    find_statements(alloc, source, tokens.as_slice())
}
