//! Sources.

ghost use Rattle.std.specs.Prelude.{◌≡◌, ◌≤◌, ◌<◌, length, IfOk};
ghost use Rattle.source_tokens.specs.Tokens.{Tokens, IsToken, Stands, past_mark};
ghost use Rattle.source_tokens.specs.Directives.{Parts};

use crate::line_parts::LineParts;
use crate::plain::{Standing, first_standing};
use crate::splice::past_splices;
use crate::token::{Token, TokenList, front_tokens};
use std::alloc::{AllocError, Global};

/// The bytes without a byte order mark at the front.
pub(crate) fn past_mark(source: &[u8]) -> &[u8]
    ensures after { result.now ≡ past_mark source.now }
    ensures within { length result.now ≤ length source.now }
{
    match source {
        [0xef, 0xbb, 0xbf, rest @ ..] => rest,
        _ => source,
    }
}

/// What stands at the front of the rest of a source of so many bytes.
fn token_of(total: usize, rest: &[u8], found: Standing<'_>) -> Token
    requires within { length rest.now ≤ total }
    requires nearer { length found.rest.now < length rest.now }
    requires stands { Stands rest.now found.kind found.rest.now }
    ensures { IsToken total rest.now result found.entry.rest.now }
{
    Token {
        kind: found.kind,
        start: total - rest.len(),
        end: total - found.rest.len(),
    }
}

/// The tokens, comments and spaces of a source, in order.
pub fn tokens(alloc: Global, source: &[u8]) -> Result<TokenList, AllocError>
    ensures { IfOk result (Tokens source.now) }
{
    let mut rest = past_splices(past_mark(source));
    let mut tokens = front_tokens(alloc, source.len() - rest.len())?;
    while let Some(found) = first_standing(rest) {
        tokens.push(token_of(source.len(), rest, found))?;
        rest = found.rest;
    }
    Ok(tokens)
}

/// The tokens, comments, spaces and directives of a source, in order.
pub fn parts(alloc: Global, source: &[u8]) -> Result<TokenList, AllocError>
    ensures { IfOk result (Parts source.now) }
{
    let mut rest = past_splices(past_mark(source));
    let mut lines = LineParts::make(alloc, source.len() - rest.len())?;
    while let Some(found) = first_standing(rest) {
        lines.push(token_of(source.len(), rest, found))?;
        rest = found.rest;
    }
    let parts = lines.finish()?;
    Ok(parts)
}
