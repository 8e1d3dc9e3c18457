//! Line directives.

ghost use Rattle.std.specs.Prelude.{◌≡◌, IfOk};
ghost use Rattle.std.specs.List.{list_all};
ghost use Rattle.source_scan.specs.LineNumbers.{is_decimal, spelled_number};
ghost use Rattle.source_scan.specs.LineChanges.{line_number, file_name, named, unnamed};
ghost use Rattle.source_scan.specs.LineChanges.{marker_change, line_change, directive_change, ReadsDirective};

use crate::escape::value_within;
use crate::literals::string_bytes;
use crate::text::{bytes_of, is_word, significant, unspliced};
use printf_grammar::Bytes;
use source_tokens::{Token, TokenKind, tokens};
use std::alloc::{AllocError, Global};

/// The greatest number that a line directive gives to a line.
pub const MAX_LINE: u32 = 2_147_483_647;

/// What a line directive says of the next line.
#[derive(Debug, Drop)]
pub struct LineChange {
    pub number: u32,
    /// The name of the file from there on, if that changes.
    pub name: Option<Bytes>,
}

/// Whether all of the bytes are decimal digits.
fn are_decimal(text: &[u8]) -> bool
    ensures { result ≡ list_all is_decimal text.now }
{
    for byte in text {
        if !(*byte as char).is_digit(10) {
            return false;
        }
    }
    true
}

/// The number of a line that the text spells.
fn spelled_number(text: &[u8]) -> Option<u32>
    ensures { result ≡ spelled_number text.now }
{
    if !are_decimal(text) {
        return None;
    }
    value_within(MAX_LINE, 10, text)
}

/// The number of a line that the token spells.
fn line_number(alloc: Global, source: &[u8], token: &Token) -> Result<Option<u32>, AllocError>
    ensures { IfOk result (λ found. found ≡ line_number source.now token.now) }
{
    match token.kind {
        TokenKind::Number => {
            let text = unspliced(alloc, bytes_of(source, token))?;
            Ok(spelled_number(&text))
        }
        _ => Ok(None),
    }
}

/// The name of a file that the token spells.
fn file_name(alloc: Global, source: &[u8], token: &Token) -> Result<Option<Bytes>, AllocError>
    ensures { IfOk result (λ found. found ≡ file_name source.now token.now) }
{
    match token.kind {
        TokenKind::StringLiteral => string_bytes(alloc, bytes_of(source, token)),
        _ => Ok(None),
    }
}

/// The number and the name that the tokens spell, if both do.
fn named(
    alloc: Global,
    source: &[u8],
    number: &Token,
    name: &Token,
) -> Result<Option<LineChange>, AllocError>
    ensures { IfOk result (λ found. found ≡ named source.now number.now name.now) }
{
    let Some(number) = line_number(alloc, source, number)? else {
        return Ok(None);
    };
    let Some(name) = file_name(alloc, source, name)? else {
        return Ok(None);
    };
    let name = Some(name);
    Ok(Some(LineChange { number, name }))
}

/// What `# N "F"` says, with anything behind it, where the tokens stand behind `#`.
fn marker_change(
    alloc: Global,
    source: &[u8],
    tokens: &[Token],
) -> Result<Option<LineChange>, AllocError>
    ensures { IfOk result (λ found. found ≡ marker_change source.now tokens.now) }
{
    match tokens {
        [number, name, ..] => named(alloc, source, number, name),
        _ => Ok(None),
    }
}

/// The number that the token spells, with no name.
fn unnamed(alloc: Global, source: &[u8], number: &Token) -> Result<Option<LineChange>, AllocError>
    ensures { IfOk result (λ found. found ≡ unnamed source.now number.now) }
{
    let Some(number) = line_number(alloc, source, number)? else {
        return Ok(None);
    };
    let name = None;
    Ok(Some(LineChange { number, name }))
}

/// What `#line N` or `#line N "F"` says, where the tokens stand behind `line`.
fn line_change(
    alloc: Global,
    source: &[u8],
    tokens: &[Token],
) -> Result<Option<LineChange>, AllocError>
    ensures { IfOk result (λ found. found ≡ line_change source.now tokens.now) }
{
    match tokens {
        [number] => unnamed(alloc, source, number),
        [number, name] => named(alloc, source, number, name),
        _ => Ok(None),
    }
}

/// What a directive says, where the tokens stand behind its `#`.
fn directive_change(
    alloc: Global,
    source: &[u8],
    tokens: &[Token],
) -> Result<Option<LineChange>, AllocError>
    ensures { IfOk result (λ found. found ≡ directive_change source.now tokens.now) }
{
    match tokens {
        [first, behind @ ..] if is_word(b"line", source, first) => {
            line_change(alloc, source, behind)
        }
        _ => marker_change(alloc, source, tokens),
    }
}

/// What the directive says of the next line, if it is a line directive.
pub fn read_directive(alloc: Global, directive: &[u8]) -> Result<Option<LineChange>, AllocError>
    ensures { IfOk result (ReadsDirective directive.now) }
{
    let tokens = tokens(alloc, directive)?;
    let tokens = significant(alloc, tokens.as_slice())?;
    match tokens.as_slice() {
        [_, behind @ ..] => directive_change(alloc, directive, behind),
        [] => directive_change(alloc, directive, tokens.as_slice()),
    }
}
