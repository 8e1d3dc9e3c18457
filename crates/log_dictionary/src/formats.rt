//! The formats of messages.

ghost use Rattle.std.specs.Prelude.{◌≡◌, ◌<◌, List, length, IfOk, MatchResult, Err};
ghost use Rattle.printf_grammar.specs.declared.limits.TheConstants.{MAX_FORMAT};
ghost use Rattle.printf_grammar.specs.declared.piece.Piece.{Piece};
ghost use Rattle.printf_grammar.specs.Spelling.{Spells};

use printf_grammar::{Format, ParseFault, parse};
use std::alloc::Global;

/// Why bytes gave no format. A message tells no more than this of a format that is refused.
#[derive(Clone, Copy, Debug, PartialEq, Eq)]
pub(crate) enum FormatFault {
    /// They are none.
    Bad,
    NoMemory,
}

/// The format that the bytes spell.
pub(crate) fn format_of(alloc: Global, bytes: &[u8]) -> Result<Format, FormatFault>
    ensures found { IfOk result (λ format. (format.bytes ≡ bytes.now) × Spells bytes.now format.pieces) }
    ensures only { (pieces : List Piece) → Spells bytes.now pieces → MatchResult result
        (λ format. format ≡ record { bytes = bytes.now; pieces = pieces })
        (λ fault. fault ≡ FormatFault.NoMemory) }
    ensures bad { result ≡ Err FormatFault.Bad → (pieces : List Piece) → ¬ Spells bytes.now pieces }

    // Too many bytes are refused also where there is no memory.
    ensures long { MAX_FORMAT < length bytes.now → result ≡ Err FormatFault.Bad }
{
    match parse(alloc, bytes) {
        Ok(format) => Ok(format),
        Err(ParseFault::Bad { .. }) => Err(FormatFault::Bad),
        Err(ParseFault::NoMemory) => Err(FormatFault::NoMemory),
    }
}
