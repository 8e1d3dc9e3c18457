//! What begins with a byte.

ghost use Rattle.std.specs.Prelude.{◌≡◌};
ghost use Rattle.source_tokens.specs.Forms.{opening_of};

use crate::class::{begins_word, is_space};

/// What a byte begins, with what follows it.
#[derive(Clone, Copy, Debug, PartialEq, Eq)]
pub(crate) enum Opening {
    Space,
    NewLine,
    LineComment,
    BlockComment,
    Identifier,
    Number,
    StringLiteral,
    CharacterConstant,
    Punctuator,
}

/// What begins with this byte, where these bytes follow it and its splices.
#[inline]
pub(crate) fn opening_of(first: u8, behind: &[u8]) -> Opening
    ensures { result ≡ opening_of first behind.now }
{
    match (first, behind) {
        (b'\n', _) => Opening::NewLine,
        (byte, _) if is_space(byte) => Opening::Space,
        (b'/', [b'/', ..]) => Opening::LineComment,
        (b'/', [b'*', ..]) => Opening::BlockComment,
        (b'"', _) => Opening::StringLiteral,
        (b'\'', _) => Opening::CharacterConstant,
        (byte, _) if begins_word(byte) => Opening::Identifier,
        (b'0'..=b'9', _) | (b'.', [b'0'..=b'9', ..]) => Opening::Number,
        _ => Opening::Punctuator,
    }
}
