//! The numbers of a record's arguments at the front of bytes.

ghost use Rattle.std.specs.Prelude.{◌≡◌, ◌+◌, ◌*◌, ◌/◌, ◌<◌, ◌≤◌, ◌↔◌, [], length, take, drop, get_or, IsTrue, MatchResult, Ok, Err};
ghost use Rattle.printf_grammar.specs.declared.limits.TheConstants.{MAX_ARGUMENTS};
ghost use Rattle.arg_records.specs.declared.frame.TheConstants.{MAX_FRAME_WORDS};
ghost use Rattle.buffer_extent.specs.Records.{kind_of};
ghost use Rattle.buffer_extent.specs.Reading.{unsigned_at, signed_at, number_at, may_stand, argument_at, numbers_at, is_code, codes_in, are_codes, number_words, words_taken, number_cause, MayStand};

use crate::fault::BodyCause;
use arg_records::{MAX_FRAME_WORDS, text_words};
use nibble_pack::{UnpackFault, signed_len, unpack_signed, unpack_unsigned};
use printf_grammar::{Arg, ArgType, MAX_ARGUMENTS, MAX_TEXT};

/// Codes have four bits.
pub(crate) const CODE_LIMIT: u8 = 16;

/// The greatest code of an unsigned number.
pub(crate) const MAX_UNSIGNED_CODE: u8 = 8;

/// A number that stands for an argument: an integer for itself, and a length for a text.
#[derive(Clone, Copy)]
pub(crate) enum Number {
    Signed(i64),
    Unsigned(u64),
}

/// The numbers of one record; those behind them mean nothing.
pub(crate) const NO_NUMBERS: [Number; MAX_ARGUMENTS] = [Number::Unsigned(0); MAX_ARGUMENTS];

/// How a number that was not read breaks the rules.
fn cause_of(fault: UnpackFault) -> BodyCause
    ensures { result ≡ number_cause fault }
{
    match fault {
        UnpackFault::Cut => BodyCause::RecordCut,
        UnpackFault::BadCode => BodyCause::BadNibble,
        UnpackFault::NotShortest => BodyCause::NotShortest,
    }
}

/// The unsigned number of a code. Each of these calls gives the bytes behind what it read.
pub(crate) fn take_unsigned(code: u8, bytes: &[u8]) -> Result<(u64, &[u8]), BodyCause>
    ensures { MatchResult result
        (λ pair. unsigned_at code bytes.now ≡ Ok (pair.0, pair.1.now))
        (λ cause. unsigned_at code bytes.now ≡ Err cause) }
{
    match unpack_unsigned(code, bytes) {
        Ok(number) => Ok((number, &bytes[code as usize..])),
        Err(fault) => Err(cause_of(fault)),
    }
}

/// The signed number of a code.
fn take_signed(code: u8, bytes: &[u8]) -> Result<(i64, &[u8]), BodyCause>
    ensures { MatchResult result
        (λ pair. signed_at code bytes.now ≡ Ok (pair.0, pair.1.now))
        (λ cause. signed_at code bytes.now ≡ Err cause) }
{
    let Some(len) = signed_len(code) else {
        return Err(BodyCause::BadNibble);
    };
    match unpack_signed(code, bytes) {
        Ok(number) => Ok((number, &bytes[len..])),
        Err(fault) => Err(cause_of(fault)),
    }
}

/// The number of a code, of the kind that stands for an argument of the type.
fn take_kind(kind: ArgType, code: u8, bytes: &[u8]) -> Result<(Number, &[u8]), BodyCause>
    ensures { MatchResult result
        (λ pair. number_at (kind_of kind) code bytes.now ≡ Ok (pair.0, pair.1.now))
        (λ cause. number_at (kind_of kind) code bytes.now ≡ Err cause) }
{
    match kind {
        ArgType::UInt | ArgType::ULong | ArgType::Text => {
            let (number, rest) = take_unsigned(code, bytes)?;
            Ok((Number::Unsigned(number), rest))
        }
        _ => {
            let (number, rest) = take_signed(code, bytes)?;
            Ok((Number::Signed(number), rest))
        }
    }
}

/// Whether the number may stand for an argument of the type.
fn may_stand(number: Number, kind: ArgType) -> bool
    ensures { result ≡ may_stand kind number }
{
    match number {
        Number::Signed(number) => kind.takes(Arg::Signed(number)),
        Number::Unsigned(number) => {
            if kind == ArgType::Text {
                number <= MAX_TEXT as u64
            } else {
                kind.takes(Arg::Unsigned(number))
            }
        }
    }
}

/// The number that stands for an argument of the type.
fn take_number(kind: ArgType, code: u8, bytes: &[u8]) -> Result<(Number, &[u8]), BodyCause>
    ensures { MatchResult result
        (λ pair. argument_at kind code bytes.now ≡ Ok (pair.0, pair.1.now))
        (λ cause. argument_at kind code bytes.now ≡ Err cause) }
{
    let (number, rest) = take_kind(kind, code, bytes)?;
    if !may_stand(number, kind) {
        return Err(BodyCause::ArgRange);
    }
    Ok((number, rest))
}

/// The code at a place, from 0.
fn code_at(bytes: &[u8], place: usize) -> u8
    requires { place < 2 * length bytes.now }
    ensures code { result ≡ get_or (codes_in bytes.now) place 0 }
    ensures four_bits { result < 16 }
{
    let codes = bytes[place / 2];
    if place % 2 == 0 {
        codes % CODE_LIMIT
    } else {
        codes / CODE_LIMIT
    }
}

/// Whether numbers of arguments of the type have this code, of four bits.
fn is_code(kind: ArgType, code: u8) -> bool
    requires { code < 16 }
    ensures { result ≡ is_code (kind_of kind) code }
{
    match kind {
        ArgType::UInt | ArgType::ULong | ArgType::Text => code <= MAX_UNSIGNED_CODE,
        _ => true,
    }
}

/// Whether no code but 0 stands behind those of so many types.
pub(crate) fn are_padded(types: usize, codes: &[u8]) -> bool
    requires { length codes.now ≡ (types + 1) / 2 }
    ensures { result ≡ are_codes [] (drop types (codes_in codes.now)) }
{
    types % 2 == 0 || code_at(codes, types) == 0
}

/// Whether the bytes hold codes of the types, and 0 where one more has room.
pub(crate) fn are_codes(types: &[ArgType], codes: &[u8]) -> bool
    requires { length codes.now ≡ (length types.now + 1) / 2 }
    ensures { result ≡ are_codes types.now (codes_in codes.now) }
{
    for (place, kind) in types.iter().enumerate() {
        if !is_code(*kind, code_at(codes, place)) {
            return false;
        }
    }
    are_padded(types.len(), codes)
}

/// The numbers that stand for arguments of the types, whose codes stand in bytes of their own.
#[inline(always)]
pub(crate) fn take_numbers<'a>(
    types: &[ArgType],
    codes: &[u8],
    bytes: &'a [u8],
    numbers: &mut [Number; MAX_ARGUMENTS],
) -> Result<&'a [u8], BodyCause>
    requires few { length types.now ≤ MAX_ARGUMENTS }
    requires codes { length types.now ≤ 2 * length codes.now }
    ensures { MatchResult result
        (λ rest. numbers_at types.now (codes_in codes.now) bytes.now
        ≡ Ok (take (length types.now) numbers.new, rest.now))
        (λ cause. numbers_at types.now (codes_in codes.now) bytes.now ≡ Err cause) }
{
    let mut rest = bytes;
    for (place, kind) in types.iter().enumerate() {
        let (number, back) = take_number(*kind, code_at(codes, place), rest)?;
        numbers[place] = number;
        rest = back;
    }
    Ok(rest)
}

/// How many words of a frame an argument takes that the number stands for.
fn words_of(kind: ArgType, number: Number) -> usize
    requires { IsTrue (may_stand kind number) }
    ensures words { result ≡ number_words kind number }
    ensures few { result ≤ 501 }
{
    match number {
        Number::Signed(_) => 1,
        Number::Unsigned(number) => {
            if kind == ArgType::Text {
                text_words(number as usize) as usize
            } else {
                1
            }
        }
    }
}

/// Whether the frame of a call has at most [`MAX_FRAME_WORDS`] words, whose arguments these numbers stand for.
pub(crate) fn is_staged(types: &[ArgType], numbers: &[Number]) -> bool
    requires few { length types.now ≤ MAX_ARGUMENTS }
    requires fit { MayStand types.now numbers.now }
    ensures { IsTrue result ↔ (2 + words_taken types.now numbers.now ≤ MAX_FRAME_WORDS) }
{
    let mut words = 2;
    for (place, kind) in types.iter().enumerate() {
        words += words_of(*kind, numbers[place]);
    }
    words <= MAX_FRAME_WORDS
}
