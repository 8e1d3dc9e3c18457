//! The line and the name of a file that are in force at a place of a source.

ghost use Rattle.std.specs.Prelude.{◌≡◌, ◌≤◌, ◌<◌, ◌^◌, length, count_by, IfOk};
ghost use Rattle.source_scan.specs.Positions.{has_next_line, Changes, in_force_of, changed, is_line_end, line_number_at};

use crate::line_change::{LineChange, read_directive};
use crate::text::{between, bytes_of};
use source_tokens::{Token, TokenKind};
use std::alloc::{AllocError, Global};

/// What a line directive says, and the place where its next line begins.
#[derive(Debug, Drop)]
pub struct PlacedChange {
    pub from: usize,
    pub change: LineChange,
}

/// Whether the part is a directive with a line behind it.
fn has_next_line(source: &[u8], part: &Token) -> bool
    ensures { result ≡ has_next_line source.now part.now }
{
    matches!(part.kind, TokenKind::Directive) && part.end < source.len()
}

/// The line directives among the parts, in order.
pub fn line_changes(
    alloc: Global,
    source: &[u8],
    parts: &[Token],
) -> Result<Vec<PlacedChange>, AllocError>
    ensures { IfOk result (λ changes. Changes source.now parts.now changes.items) }
{
    let mut changes = Vec::new(alloc);
    for part in parts {
        if !has_next_line(source, part) {
            continue;
        }
        let Some(change) = read_directive(alloc, bytes_of(source, part))? else {
            continue;
        };
        let from = part.end + 1;
        changes.push(PlacedChange { from, change })?;
    }
    Ok(changes)
}

/// From a place on, up to the next change: the number of the line that begins there, and the name of the file.
#[derive(Clone, Copy, Debug)]
pub struct SourcePosition<'a> {
    pub from: usize,
    pub number: u32,
    pub name: &'a [u8],
}

/// What is in force behind a change.
pub(crate) fn changed<'a>(
    before: SourcePosition<'a>,
    placed: &'a PlacedChange,
) -> SourcePosition<'a>
    ensures { in_force_of result ≡ changed (in_force_of before.entry) placed.now }
{
    let name = match &placed.change.name {
        Some(name) => name.as_slice(),
        None => before.name,
    };
    SourcePosition {
        from: placed.from,
        number: placed.change.number,
        name,
    }
}

/// How many lines end in the bytes.
fn count_line_ends(bytes: &[u8]) -> usize
    ensures value { result ≡ count_by is_line_end bytes.now }
    ensures within { result ≤ length bytes.now }
{
    let mut count = 0;
    for byte in bytes {
        if *byte == b'\n' {
            count += 1;
        }
    }
    count
}

/// The line at a place where the position is in force.
pub(crate) fn line_at(source: &[u8], position: SourcePosition<'_>, place: usize) -> u32
    requires { line_number_at source.now (in_force_of position) place < 2 ^ 32 }
    ensures { result ≡ line_number_at source.now (in_force_of position.entry) place }
{
    let lines = count_line_ends(between(source, position.from, place));
    position.number + lines as u32
}
