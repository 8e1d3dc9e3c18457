//! Formats: what they are made of, and where texts break that are none.

use crate::tables::{Told, check_rows, text_of};
use printf_grammar::{Format, FormatCause, ParseFault, parse};
use std::alloc::{AllocError, Global};
use std::test::Fail;

/// Formats, the types of their arguments, and their pieces.
const PIECES: &str = "\
a%d100%%|[Int] [Literal { start: 0, end: 1 }, Field(Spec { minus: false, plus: false, space: false, sharp: false, \
zero: false, width: Absent, precision: Absent, length: Plain, conversion: D }), Literal { start: 3, end: 6 }, Percent]
|[] []
%-+ #0*.*hhX|[Width, Precision, UInt] [Field(Spec { minus: true, plus: true, space: true, sharp: true, zero: true, \
width: Star, precision: Star, length: HH, conversion: UpperX })]
%04095.0004095ld|[Long] [Field(Spec { minus: false, plus: false, space: false, sharp: false, zero: true, \
width: Given(4095), precision: Given(4095), length: L, conversion: D })]";

fn pieces_shown(alloc: Global, format: &Format) -> Result<String, Fail> {
    let types = format.types();
    let pieces = format.pieces();
    Ok(format!(in alloc; "{types:?} {pieces:?}")?)
}

struct PiecesOf;

impl Told for PiecesOf {
    fn told(alloc: Global, format: &str) -> Result<String, Fail> {
        let format = parse(alloc, format.as_bytes())?;
        pieces_shown(alloc, &format)
    }
}

/// Formats, and how many pieces and arguments they have, or why and where they break.
const COUNTS: &str = "\
64*%d|64 and 64;;65*%d|TooManyArgs at 129;;4095*a|1 and 0;;4096*a|Long at 4095;;17*%d|17 and 17;;33*%d, |66 and 33
21*%*.*ld|21 and 63;;2047*%%|2047 and 0;;32*%d of %s; |128 and 64;;64*%c|64 and 64;;256*ten bytes.%%|512 and 0
64*a text that stands before each of its numbers: %lu|128 and 64;;%5%|BadPercent at 2;;%1$d|Unknown at 2
64*a text of about sixty bytes which is there at most: %-5.3x|128 and 64;;%4096d|TooWide at 4";

fn counts_shown(alloc: Global, pieces: usize, types: usize) -> Result<String, Fail> {
    Ok(format!(in alloc; "{pieces} and {types}")?)
}

fn break_shown(alloc: Global, cause: FormatCause, place: usize) -> Result<String, Fail> {
    let name = cause.name();
    Ok(format!(in alloc; "{name} at {place}")?)
}

struct CountsOf;

impl Told for CountsOf {
    fn told(alloc: Global, word: &str) -> Result<String, Fail> {
        let text = text_of(alloc, word)?;
        match parse(alloc, text.as_bytes()) {
            Ok(format) => counts_shown(alloc, format.pieces().len(), format.types().len()),
            Err(ParseFault::Bad { cause, place }) => break_shown(alloc, cause, place),
            Err(ParseFault::NoMemory) => Err("no memory".into()),
        }
    }
}

/// Fronts of formats, and the bytes that are answered so behind each. All others are Unknown there.
const BYTES_BEHIND: &str = r"
%|fits[%Xcdiopsux]Ends[ #*+-.0123456789Lhjltz]Wide[]BadLength[]BadPercent[]Float[AEFGaefg]Store[n]Nul[\x00]elsewhere[]
%-|fits[Xcdiopsux]Ends[ #*+-.0123456789Lhjltz]Wide[]BadLength[]BadPercent[%]Float[AEFGaefg]Store[n]Nul[\x00]elsewhere[]
%5|fits[Xcdiopsux]Ends[.0123456789Lhjltz]Wide[]BadLength[]BadPercent[%]Float[AEFGaefg]Store[n]Nul[\x00]elsewhere[]
%.|fits[Xcdiopsux]Ends[*0123456789Lhjltz]Wide[]BadLength[]BadPercent[%]Float[AEFGaefg]Store[n]Nul[\x00]elsewhere[]
%.5|fits[Xcdiopsux]Ends[0123456789Lhjltz]Wide[]BadLength[]BadPercent[%]Float[AEFGaefg]Store[n]Nul[\x00]elsewhere[]
%l|fits[Xdioux]Ends[l]Wide[cs]BadLength[p]BadPercent[%]Float[AEFGaefg]Store[n]Nul[\x00]elsewhere[]
%ll|fits[Xdioux]Ends[]Wide[]BadLength[cps]BadPercent[%]Float[AEFGaefg]Store[n]Nul[\x00]elsewhere[]
%h|fits[Xdioux]Ends[h]Wide[]BadLength[cps]BadPercent[%]Float[AEFGaefg]Store[n]Nul[\x00]elsewhere[]
%hh|fits[Xdioux]Ends[]Wide[]BadLength[cps]BadPercent[%]Float[AEFGaefg]Store[n]Nul[\x00]elsewhere[]
%L|fits[]Ends[]Wide[]BadLength[Xcdiopsux]BadPercent[%]Float[AEFGaefg]Store[n]Nul[\x00]elsewhere[]";

/// The answers of a row.
const ANSWERS: &str = "fits Ends Wide BadLength BadPercent Float Store Nul elsewhere";

/// How a text is answered that breaks at its last byte, or ends too early, if at all.
fn answer(alloc: Global, text: &[u8]) -> &'static str {
    let (cause, place) = match parse(alloc, text) {
        Ok(_) => return "fits",
        Err(ParseFault::Bad { cause, place }) => (cause, place),
        Err(ParseFault::NoMemory) => return "elsewhere",
    };
    let past = match cause {
        FormatCause::Ends => place,
        _ => place.saturating_add(1),
    };
    if past == text.len() {
        cause.name()
    } else {
        "elsewhere"
    }
}

/// Whether the byte is answered so behind a front.
fn is_answered(alloc: Global, front: &str, byte: u8, name: &str) -> Result<bool, AllocError> {
    let mut text = Vec::from_slice(alloc, front.as_bytes())?;
    text.push(byte)?;
    Ok(answer(alloc, &text) == name)
}

/// The bytes that are answered so behind a front.
fn bytes_answered(alloc: Global, front: &str, name: &str) -> Result<Vec<u8>, AllocError> {
    let mut bytes = Vec::new(alloc);
    for byte in 0..=255u8 {
        if is_answered(alloc, front, byte, name)? {
            bytes.push(byte)?;
        }
    }
    Ok(bytes)
}

fn answers_shown(alloc: Global, front: &str, name: &str) -> Result<String, AllocError> {
    let bytes = bytes_answered(alloc, front, name)?;
    format!(in alloc; "{name}[{}]", bytes.escape_ascii())
}

struct AnswersBehind;

impl Told for AnswersBehind {
    fn told(alloc: Global, front: &str) -> Result<String, Fail> {
        let mut text = String::new(alloc);
        for name in ANSWERS.split(' ') {
            text.push_str(&answers_shown(alloc, front, name)?)?;
        }
        Ok(text)
    }
}

#[test]
fn formats_are_parsed(rt: HostRuntime) -> Result<(), Fail> {
    check_rows::<PiecesOf, _>(&rt, PIECES)?;
    check_rows::<CountsOf, _>(&rt, COUNTS)?;
    check_rows::<AnswersBehind, _>(&rt, BYTES_BEHIND.trim_start())
}
