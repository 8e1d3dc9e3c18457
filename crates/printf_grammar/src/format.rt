ghost use Rattle.std.specs.Prelude.{◌≡◌, ◌⊎◌, ℕ, ◌<◌, List, length, IfOk, MatchResult, Err};
ghost use Rattle.printf_grammar.specs.declared.limits.TheConstants.{MAX_FORMAT};
ghost use Rattle.printf_grammar.specs.declared.piece.Piece.{Piece};
ghost use Rattle.printf_grammar.specs.Spelling.{Spells};
ghost use Rattle.printf_grammar.specs.Breaks.{FormatBreak};

use crate::arg_type::ArgType;
use crate::bytes::Bytes;
use crate::fault::{FormatCause, ParseFault};
use crate::limits::MAX_FORMAT;
use crate::parsing::all_pieces;
use crate::piece::Piece;
use std::alloc::Global;
use std::marker::Model;

/// A format that was parsed: its bytes, its pieces, and the types of the arguments that it takes.
#[derive(Debug, Drop)]
pub struct Format {
    bytes: Bytes,
    pieces: Vec<Piece>,
    types: Vec<ArgType>,
}

impl Model for Format {
    ghost use Rattle.printf_grammar.specs.Pieces.{Parsed};

    ghost Value = { Parsed };

    ghost use Rattle.std.specs.Prelude.{◌≡◌};
    ghost use Rattle.printf_grammar.specs.Spelling.{Spells};
    ghost use Rattle.printf_grammar.specs.Types.{Types};

    ghost view = { λ format. record { bytes = format.bytes; pieces = format.pieces.items } };

    ghost invariant = { λ format. Spells format.bytes format.pieces.items
        × (format.types.items ≡ Types format.pieces.items) };
}

impl Format {
    ghost use Rattle.printf_grammar.specs.Spelling.{Spells};
    ghost use Rattle.printf_grammar.specs.Types.{Types};

    /// The types of the arguments, in order.
    pub fn types(&self) -> &[ArgType]
        ensures types { result.now ≡ Types self.now.pieces }
        ensures spelled { Spells self.now.bytes self.now.pieces }
    {
        self.types.as_slice()
    }

    /// The bytes that were parsed.
    pub fn bytes(&self) -> &[u8]
        ensures bytes { result.now ≡ self.now.bytes }
        ensures spelled { Spells self.now.bytes self.now.pieces }
    {
        self.bytes.as_slice()
    }

    /// The pieces, in order; the places of a literal are those of `bytes`.
    pub fn pieces(&self) -> &[Piece]
        ensures pieces { result.now ≡ self.now.pieces }
        ensures spelled { Spells self.now.bytes self.now.pieces }
    {
        self.pieces.as_slice()
    }
}

/// The format that the bytes spell (C11 7.21.6.1), without floating and wide conversions, `n` and places of arguments
/// as `1$`. Where they spell none the fault names the first place at which they break, and the first cause there in
/// the order of `FormatCause`; more than 4,095 bytes come before all else.
pub fn parse(alloc: Global, bytes: &[u8]) -> Result<Format, ParseFault>
    ensures found { IfOk result (λ format. (format.bytes ≡ bytes.now) × Spells bytes.now format.pieces) }
    ensures bad { (cause : FormatCause) (place : ℕ) → result ≡ Err (ParseFault.Bad cause place)
        → FormatBreak bytes.now cause place }

    // Too many bytes are refused also where there is no memory.
    ensures long { MAX_FORMAT < length bytes.now → result ≡ Err (ParseFault.Bad FormatCause.Long MAX_FORMAT) }

    // What is spelled so is found, unless memory runs out, and where the bytes break, that is what is answered.
    ensures only_found { (pieces : List Piece) → Spells bytes.now pieces → MatchResult result
        (λ format. format ≡ record { bytes = bytes.now; pieces = pieces })
        (λ fault. fault ≡ ParseFault.NoMemory) }
    ensures only_bad { (cause : FormatCause) (place : ℕ) → FormatBreak bytes.now cause place → MatchResult result
        (λ format. ⊥)
        (λ fault. (fault ≡ ParseFault.Bad cause place) ⊎ (fault ≡ ParseFault.NoMemory)) }
{
    if bytes.len() > MAX_FORMAT {
        return Err(ParseFault::Bad {
            cause: FormatCause::Long,
            place: MAX_FORMAT,
        });
    }
    let (pieces, types) = all_pieces(alloc, bytes)?;
    Ok(Format {
        bytes: Bytes::from_slice(alloc, bytes)?,
        pieces,
        types,
    })
}
