//! The format of a statement, as the items of its argument.

ghost use Rattle.std.specs.Prelude.{◌≡◌, ◌++◌, IfOk, OnOk};
ghost use Rattle.std.specs.List.{list_any};
ghost use Rattle.source_scan.specs.Texts.{unspliced};
ghost use Rattle.source_scan.specs.PriWords.{pri_bytes};
ghost use Rattle.source_scan.specs.Items.{is_string, is_literal, item_bytes, is_prefix, items_bytes, format_bytes};

use crate::literals::{raw_bytes, string_bytes};
use crate::pri_word::pri_conversion;
use crate::text::{bytes_of, is_word, touches, unspliced};
use printf_grammar::Bytes;
use source_tokens::{Token, TokenKind};
use std::alloc::{AllocError, Global};

fn is_string(kind: TokenKind) -> bool
    ensures { result ≡ is_string kind }
{
    matches!(kind, TokenKind::StringLiteral)
}

fn is_literal(kind: TokenKind) -> bool
    ensures { result ≡ is_literal kind }
{
    matches!(kind, TokenKind::StringLiteral | TokenKind::RawString)
}

/// What a PRI word stands for, from its bytes in the source.
fn word_bytes(alloc: Global, bytes: &[u8]) -> Result<Option<Bytes>, AllocError>
    ensures { IfOk result (λ found. found ≡ pri_bytes (unspliced bytes.now)) }
{
    let word = unspliced(alloc, bytes)?;
    let Some(conversion) = pri_conversion(&word) else {
        return Ok(None);
    };
    let mut bytes = Vec::new(alloc);
    if conversion.is_long {
        bytes.push(b'l')?;
    }
    bytes.push(conversion.letter)?;
    Ok(Some(Bytes::from_slice(alloc, &bytes)?))
}

/// What a token stands for, if it is an item.
fn item_bytes(alloc: Global, source: &[u8], token: &Token) -> Result<Option<Bytes>, AllocError>
    ensures { IfOk result (λ found. found ≡ item_bytes source.now token.now) }
{
    let bytes = bytes_of(source, token);
    match token.kind {
        TokenKind::StringLiteral => string_bytes(alloc, bytes),
        TokenKind::RawString => raw_bytes(alloc, bytes),
        TokenKind::Identifier => word_bytes(alloc, bytes),
        _ => Ok(None),
    }
}

/// Whether the token is the prefix `u8` of the string literal that it touches, where these tokens stand behind it.
fn is_prefix(source: &[u8], token: &Token, behind: &[Token]) -> bool
    ensures { result ≡ is_prefix source.now token.now behind.now }
{
    match behind {
        [next, ..] => {
            is_word(b"u8", source, token) && is_string(next.kind) && touches(token, next)
        }
        [] => false,
    }
}

/// Appends what an item stands for.
fn push_item(bytes: &mut Vec<u8>, item: Bytes) -> Result<(), AllocError>
    ensures { OnOk result (bytes.new.items ≡ bytes.old.items ++ item) }
{
    bytes.extend_from_slice(item.as_slice())
}

/// What items stand for, joined, if all of the tokens are items.
fn items_bytes(alloc: Global, source: &[u8], tokens: &[Token]) -> Result<Option<Bytes>, AllocError>
    ensures { IfOk result (λ found. found ≡ items_bytes source.now tokens.now) }
{
    let mut bytes = Vec::new(alloc);
    let mut rest = tokens;
    while let [token, behind @ ..] = rest {
        rest = behind;
        if is_prefix(source, token, behind) {
            continue;
        }
        let Some(item) = item_bytes(alloc, source, token)? else {
            return Ok(None);
        };
        push_item(&mut bytes, item)?;
    }
    Ok(Some(Bytes::from_slice(alloc, &bytes)?))
}

/// Whether one of the tokens at least is a literal.
fn has_literal(tokens: &[Token]) -> bool
    ensures { result ≡ list_any (λ token. is_literal token.kind) tokens.now }
{
    for token in tokens {
        if is_literal(token.kind) {
            return true;
        }
    }
    false
}

/// The format of an argument, if that is items, of which one at least is a literal.
pub fn format_bytes(
    alloc: Global,
    source: &[u8],
    tokens: &[Token],
) -> Result<Option<Bytes>, AllocError>
    ensures { IfOk result (λ found. found ≡ format_bytes source.now tokens.now) }
{
    if !has_literal(tokens) {
        return Ok(None);
    }
    items_bytes(alloc, source, tokens)
}
