//! What stands at the front of bytes.

ghost use Rattle.std.specs.Prelude.{◌≡◌, ◌≤◌, ◌<◌, [], length, MatchOption};
ghost use Rattle.source_tokens.specs.Forms.{opening_of};
ghost use Rattle.source_tokens.specs.Tokens.{ContinuesToken, Stands};

use crate::class::Class;
use crate::comment::past_comment;
use crate::kind::TokenKind;
use crate::literal::literal_end;
use crate::number::past_number;
use crate::opening::{Opening, opening_of};
use crate::raw_string::raw_string;
use crate::run::past_run;
use crate::splice::past_splices;

/// What stands at the front of bytes, and the bytes behind it and its splices.
#[derive(Clone, Copy, Debug)]
pub(crate) struct Standing<'a> {
    pub(crate) kind: TokenKind,
    pub(crate) rest: &'a [u8],
}

/// A string literal, whose first mark stands before the bytes.
fn string_literal(behind: &[u8]) -> Standing<'_>
    ensures goes_on { ContinuesToken Opening.StringLiteral 34 behind.now result.kind result.rest.now }
    ensures within { length result.rest.now ≤ length behind.now }
{
    let end = literal_end(b'"', behind);
    let rest = end.rest;
    let kind = if end.whole {
        TokenKind::StringLiteral
    } else {
        TokenKind::BrokenString
    };
    Standing { kind, rest }
}

/// A character constant, whose first mark stands before the bytes.
fn character_constant(behind: &[u8]) -> Standing<'_>
    ensures goes_on { ContinuesToken Opening.CharacterConstant 39 behind.now result.kind result.rest.now }
    ensures within { length result.rest.now ≤ length behind.now }
{
    let end = literal_end(b'\'', behind);
    let rest = end.rest;
    let kind = if end.whole {
        TokenKind::CharacterConstant
    } else {
        TokenKind::BrokenConstant
    };
    Standing { kind, rest }
}

/// What the byte `first` opens, where the bytes stand behind it and its splices.
fn plain(first: u8, behind: &[u8]) -> Standing<'_>
    ensures goes_on { ContinuesToken (opening_of first behind.now) first behind.now result.kind result.rest.now }
    ensures within { length result.rest.now ≤ length behind.now }
{
    let (kind, rest) = match opening_of(first, behind) {
        Opening::Space => (TokenKind::Space, past_run(Class::Space, behind)),
        Opening::NewLine => (TokenKind::NewLine, behind),
        Opening::LineComment => (TokenKind::LineComment, past_run(Class::Line, behind)),
        Opening::BlockComment => (TokenKind::BlockComment, past_comment(behind)),
        Opening::Identifier => (TokenKind::Identifier, past_run(Class::Word, behind)),
        Opening::Number => (TokenKind::Number, past_number(first, behind)),
        Opening::StringLiteral => return string_literal(behind),
        Opening::CharacterConstant => return character_constant(behind),
        Opening::Punctuator => (TokenKind::Punctuator(first), behind),
    };
    Standing { kind, rest }
}

/// What stands at the front of the bytes, if there are any.
pub(crate) fn first_standing(bytes: &[u8]) -> Option<Standing<'_>>
    ensures { MatchOption result
        (bytes.now ≡ [])
        (λ found. Stands bytes.now found.kind found.rest.now × (length found.rest.now < length bytes.now)) }
{
    let [first, behind @ ..] = bytes else {
        return None;
    };
    if let Some(found) = raw_string(bytes) {
        return Some(found);
    }
    Some(plain(*first, past_splices(behind)))
}
