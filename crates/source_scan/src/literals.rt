//! What whole literals stand for.

ghost use Rattle.std.specs.Prelude.{◌≡◌, ◌∷◌, ◌++◌, [], true, length, IfOk};
ghost use Rattle.std.specs.List.{before_first, after_first};
ghost use Rattle.source_tokens.specs.RawStrings.{delimiter_of, opens_raw};
ghost use Rattle.source_scan.specs.Texts.{unspliced};
ghost use Rattle.source_scan.specs.Items.{between_marks, string_bytes, is_quote, before_text};
ghost use Rattle.source_scan.specs.Items.{is_item_prefix, raw_content, raw_bytes};

use crate::text::{is_text, unspliced};
use crate::unescape::literal_bytes;
use printf_grammar::Bytes;
use source_tokens::delimiter_length;
use std::alloc::{AllocError, Global};

/// The bytes between the marks of a literal.
fn between_marks(text: &[u8]) -> &[u8]
    ensures { result.now ≡ between_marks text.now }
{
    match text {
        [_, body @ .., _] => body,
        _ => text.split_at(0).0,
    }
}

/// What a whole string literal stands for, from its bytes in the source.
pub fn string_bytes(alloc: Global, bytes: &[u8]) -> Result<Option<Bytes>, AllocError>
    ensures { IfOk result (λ found. found ≡ string_bytes bytes.now) }
{
    let text = unspliced(alloc, bytes)?;
    literal_bytes(alloc, between_marks(&text))
}

/// The bytes before a quotation mark, and those behind it; all of them and none, where there is none.
fn split_at_quote(bytes: &[u8]) -> (&[u8], &[u8])
    ensures before { result.0.now ≡ before_first is_quote bytes.now }
    ensures behind { result.1.now ≡ after_first is_quote bytes.now }
{
    for (place, byte) in bytes.iter().enumerate() {
        if *byte == b'"' {
            return (bytes.split_at(place).0, bytes.split_at(place + 1).1);
        }
    }
    (bytes, bytes.split_at(bytes.len()).1)
}

/// The bytes before the first place where the others stand, or all.
fn before_text<'a>(others: &[u8], bytes: &'a [u8]) -> &'a [u8]
    ensures { result.now ≡ before_text others.now bytes.now }
{
    for place in 0..bytes.len() {
        let (before, rest) = bytes.split_at(place);
        if rest.starts_with(others) {
            return before;
        }
    }
    bytes
}

/// Whether a raw string's prefix, with its splices, is that of an item.
fn is_item_prefix(prefix: &[u8]) -> bool
    ensures { result ≡ is_item_prefix (unspliced prefix.now) }
{
    is_text(prefix, b"R") || is_text(prefix, b"u8R")
}

/// What ends a raw string with this delimiter.
fn closing_of(alloc: Global, delimiter: &[u8]) -> Result<Vec<u8>, AllocError>
    ensures { IfOk result (λ closing. closing.items ≡ 41 ∷ (delimiter.now ++ 34 ∷ [])) }
{
    let mut closing = Vec::new(alloc);
    closing.push(b')')?;
    closing.extend_from_slice(delimiter)?;
    closing.push(b'"')?;
    Ok(closing)
}

/// What a raw string holds, from the bytes behind its first mark, where its delimiter has so many bytes.
fn raw_content(alloc: Global, raw: &[u8], len: usize) -> Result<&[u8], AllocError>
    requires opens { opens_raw raw.now ≡ true }
    requires len { len ≡ length (delimiter_of raw.now) }
    ensures { IfOk result (λ content. content.now ≡ raw_content raw.now) }
{
    let (delimiter, behind) = raw.split_at(len);
    let closing = closing_of(alloc, delimiter)?;
    Ok(before_text(&closing, behind.split_at(1).1))
}

/// What a whole raw string stands for, from its bytes in the source, if it can be an item.
pub fn raw_bytes(alloc: Global, bytes: &[u8]) -> Result<Option<Bytes>, AllocError>
    ensures { IfOk result (λ found. found ≡ raw_bytes bytes.now) }
{
    let (prefix, raw) = split_at_quote(bytes);
    if !is_item_prefix(prefix) {
        return Ok(None);
    }
    let Some(len) = delimiter_length(raw) else {
        return Ok(None);
    };
    let content = raw_content(alloc, raw, len)?;
    Ok(Some(Bytes::from_slice(alloc, content)?))
}
