//! The bytes of tokens without splices.

ghost use Rattle.std.specs.Prelude.{◌≡◌, ◌↔◌, ◌-◌, take, drop, IsTrue, IfOk};
ghost use Rattle.source_scan.specs.Texts.{unspliced, bytes_of, is_identifier, is_word};
ghost use Rattle.source_scan.specs.Texts.{touches, is_significant, significant};

use source_tokens::{Token, TokenKind, TokenList, past_splices};
use std::alloc::{AllocError, Global};

/// The bytes without splices.
pub fn unspliced(alloc: Global, bytes: &[u8]) -> Result<Vec<u8>, AllocError>
    ensures { IfOk result (λ text. text.items ≡ unspliced bytes.now) }
{
    let mut text = Vec::new(alloc);
    let mut rest = past_splices(bytes);
    while let [byte, behind @ ..] = rest {
        text.push(*byte)?;
        rest = past_splices(behind);
    }
    Ok(text)
}

/// Whether the bytes without splices are this text.
pub fn is_text(bytes: &[u8], text: &[u8]) -> bool
    ensures { IsTrue result ↔ (unspliced bytes.now ≡ text.now) }
{
    let mut rest = past_splices(bytes);
    for letter in text {
        let [byte, behind @ ..] = rest else {
            return false;
        };
        if byte != letter {
            return false;
        }
        rest = past_splices(behind);
    }
    rest.is_empty()
}

/// The bytes from one place to another: those that there are.
pub(crate) fn between(source: &[u8], from: usize, to: usize) -> &[u8]
    ensures { result.now ≡ take (to - from) (drop from source.now) }
{
    let behind = source.split_at(from.min(source.len())).1;
    let len = to.saturating_sub(from);
    behind.split_at(len.min(behind.len())).0
}

/// The bytes of the token, with its splices: those that the source has.
pub fn bytes_of<'a>(source: &'a [u8], token: &Token) -> &'a [u8]
    ensures { result.now ≡ bytes_of source.now token.now }
{
    between(source, token.start, token.end)
}

pub(crate) fn is_identifier(kind: TokenKind) -> bool
    ensures { result ≡ is_identifier kind }
{
    matches!(kind, TokenKind::Identifier)
}

/// Whether the token is the identifier that spells this.
pub fn is_word(word: &[u8], source: &[u8], token: &Token) -> bool
    ensures { result ≡ is_word word.now source.now token.now }
{
    is_identifier(token.kind) && is_text(bytes_of(source, token), word)
}

/// Whether nothing but splices stands between the tokens.
pub(crate) fn touches(token: &Token, next: &Token) -> bool
    ensures { result ≡ touches token.now next.now }
{
    token.end == next.start
}

/// Whether it is neither space nor a comment, and no directive.
fn is_significant(kind: TokenKind) -> bool
    ensures { result ≡ is_significant kind }
{
    match kind {
        TokenKind::Space
        | TokenKind::NewLine
        | TokenKind::LineComment
        | TokenKind::BlockComment
        | TokenKind::Directive => false,
        _ => true,
    }
}

/// What is neither space nor a comment, and no directive.
pub(crate) fn significant(alloc: Global, parts: &[Token]) -> Result<TokenList, AllocError>
    ensures { IfOk result (λ tokens. tokens ≡ significant parts.now) }
{
    let mut tokens = TokenList::make(alloc);
    for part in parts {
        if is_significant(part.kind) {
            tokens.push(*part)?;
        }
    }
    Ok(tokens)
}
