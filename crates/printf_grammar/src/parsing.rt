ghost use Rattle.std.specs.Prelude.{◌≡◌, ℕ, ◌+◌, ◌^◌, ◌<◌, ◌≤◌, ◌∷◌, length, take, drop, MatchResult, ◌==◌, IfOk, Err};
ghost use Rattle.std.specs.List.{AllByRecursion};
ghost use Rattle.printf_grammar.specs.declared.limits.TheConstants.{MAX_ARGUMENTS, MAX_FORMAT};
ghost use Rattle.printf_grammar.specs.declared.fault.FormatCause.{FormatCause};
ghost use Rattle.printf_grammar.specs.declared.arg_type.ArgType.{ArgType};
ghost use Rattle.printf_grammar.specs.Spelling.{Spells, IsLiteralByte};
ghost use Rattle.printf_grammar.specs.Breaks.{BreaksAt};
ghost use Rattle.printf_grammar.specs.Parts.{BeginsWithout, is_plain_byte, BeginsWithField, BeginsWithPiece, BeginsBroken};
ghost use Rattle.printf_grammar.specs.Types.{size_types, Types};

use crate::arg_type::{ArgType, push_types};
use crate::fault::{FormatCause, ParseFault};
use crate::parts::{Stop, conversion_of, flags_of, modifier_of, precision_of, width_of};
use crate::piece::{Piece, Size, Spec};
use std::alloc::Global;

// How many arguments the size takes.
fn arguments_of(size: Size) -> usize
    ensures { (kind : ArgType) → result ≡ length (size_types kind size) }
{
    if size == Size::Star { 1 } else { 0 }
}

// The field behind whose `%` the bytes begin, and the bytes after it; `taken` arguments were taken before it.
fn field_of(taken: usize, bytes: &[u8]) -> Result<(Spec, &[u8]), Stop<'_>>
    requires no_percent { BeginsWithout (λ byte. byte == 37) bytes.now }
    requires few { taken ≤ MAX_ARGUMENTS }
    ensures { MatchResult result
        (λ found. BeginsWithField taken (37 ∷ bytes.now) found.0 found.1.now)
        (λ stop. BeginsBroken taken (37 ∷ bytes.now) stop.cause stop.rest.now) }
{
    let (flags, rest) = flags_of(bytes);
    let (width, rest) = width_of(taken, rest)?;
    let taken = taken + arguments_of(width);
    let (precision, rest) = precision_of(taken, rest)?;
    let taken = taken + arguments_of(precision);
    let (modifier, rest) = modifier_of(rest);
    let (length, conversion, rest) = conversion_of(taken, modifier, rest)?;
    let spec = Spec {
        minus: flags.minus,
        plus: flags.plus,
        space: flags.space,
        sharp: flags.sharp,
        zero: flags.zero,
        width,
        precision,
        length,
        conversion,
    };
    Ok((spec, rest))
}

// How many bytes stand before the first `%` or NUL.
fn literal_len(bytes: &[u8]) -> usize
    ensures within { result ≤ length bytes.now }
    ensures literal { AllByRecursion IsLiteralByte (take result bytes.now) }
    ensures ended { BeginsWithout is_plain_byte (drop result bytes.now) }
{
    for (place, byte) in bytes.iter().enumerate() {
        if *byte == b'%' || *byte == 0 {
            return place;
        }
    }
    bytes.len()
}

// The piece that the bytes begin with, and the bytes after it; it starts at this place of the format, and `taken`
// arguments were taken before it.
fn first_piece(start: usize, taken: usize, bytes: &[u8]) -> Result<(Piece, &[u8]), Stop<'_>>
    requires nonempty { 0 < length bytes.now }
    requires room { start + length bytes.now < 2 ^ 64 }
    requires few { taken ≤ MAX_ARGUMENTS }
    ensures { MatchResult result
        (λ found. BeginsWithPiece start taken bytes.now found.0 found.1.now)
        (λ stop. BeginsBroken taken bytes.now stop.cause stop.rest.now) }
{
    match bytes {
        [b'%', b'%', rest @ ..] => Ok((Piece::Percent, rest)),
        [b'%', behind @ ..] => {
            let (spec, rest) = field_of(taken, behind)?;
            Ok((Piece::Field(spec), rest))
        }
        [0, ..] => {
            let cause = FormatCause::Nul;
            Err(Stop { cause, rest: bytes })
        }
        _ => {
            let len = literal_len(bytes);
            let end = start + len;
            Ok((Piece::Literal { start, end }, &bytes[len..]))
        }
    }
}

/// All pieces, from left to right, and the types of the arguments that they take.
pub(crate) fn all_pieces(
    alloc: Global,
    bytes: &[u8],
) -> Result<(Vec<Piece>, Vec<ArgType>), ParseFault>
    requires short { length bytes.now ≤ MAX_FORMAT }
    ensures found { IfOk result
        (λ found. Spells bytes.now found.0.items × (found.1.items ≡ Types found.0.items)) }
    ensures bad { (cause : FormatCause) (place : ℕ) → result ≡ Err (ParseFault.Bad cause place)
        → BreaksAt bytes.now cause place }
{
    let mut pieces = Vec::new(alloc);
    let mut types = Vec::new(alloc);
    let mut rest = bytes;
    while !rest.is_empty() {
        let start = bytes.len() - rest.len();
        match first_piece(start, types.len(), rest) {
            Ok((piece, after)) => {
                push_types(&mut types, piece)?;
                pieces.push(piece)?;
                rest = after;
            }
            Err(Stop { cause, rest }) => {
                let place = bytes.len() - rest.len();
                return Err(ParseFault::Bad { cause, place });
            }
        }
    }
    Ok((pieces, types))
}
