//! What a record has in front of its texts, at the front of bytes. Each call gives the bytes behind what it read.

ghost use Rattle.std.specs.Prelude.{◌≡◌, ◌+◌, ◌/◌, ◌≤◌, length, take, MatchResult, Ok, Err, ⊤};
ghost use Rattle.nibble_pack.specs.Parsing.{so_many};
ghost use Rattle.printf_grammar.specs.declared.limits.TheConstants.{MAX_ARGUMENTS};
ghost use Rattle.buffer_extent.specs.declared.fault.BodyCause.{BodyCause};
ghost use Rattle.buffer_extent.specs.Reading.{head_codes_at, id_at, stamp_at, head_at, coded_numbers_at};

use crate::fault::BodyCause;
use crate::numbers::{
    CODE_LIMIT, MAX_UNSIGNED_CODE, Number, are_codes, are_padded, take_numbers, take_unsigned,
};
use printf_grammar::{ArgType, MAX_ARGUMENTS};

/// The codes of an id and of a step.
#[derive(Clone, Copy)]
pub(crate) struct HeadCodes {
    pub(crate) id: u8,
    pub(crate) step: u8,
}

/// What a record begins with.
#[derive(Clone, Copy, Debug)]
pub struct RecordHeader {
    pub id: u32,
    pub stamp: u64,
}

/// The codes of the id and of the step, which stand in one byte.
fn take_head_codes(bytes: &[u8]) -> Result<(HeadCodes, &[u8]), BodyCause>
    ensures { MatchResult result
        (λ pair. head_codes_at bytes.now ≡ Ok (pair.0, pair.1.now))
        (λ cause. head_codes_at bytes.now ≡ Err cause) }
{
    let Some((codes, rest)) = bytes.split_first() else {
        return Err(BodyCause::RecordCut);
    };
    let head = HeadCodes {
        id: *codes % CODE_LIMIT,
        step: *codes / CODE_LIMIT,
    };
    if head.id > MAX_UNSIGNED_CODE || head.step > MAX_UNSIGNED_CODE {
        return Err(BodyCause::BadNibble);
    }
    Ok((head, rest))
}

/// The id of one of so many messages.
fn take_id(messages: u32, code: u8, bytes: &[u8]) -> Result<(u32, &[u8]), BodyCause>
    ensures { MatchResult result
        (λ pair. id_at messages code bytes.now ≡ Ok (pair.0, pair.1.now))
        (λ cause. id_at messages code bytes.now ≡ Err cause) }
{
    let (id, rest) = take_unsigned(code, bytes)?;
    if id >= u64::from(messages) {
        return Err(BodyCause::UnknownId);
    }
    Ok((id as u32, rest))
}

/// The stamp that the step leads to from `before`. It isn't below `least`.
fn take_stamp(before: u64, least: u64, code: u8, bytes: &[u8]) -> Result<(u64, &[u8]), BodyCause>
    ensures { MatchResult result
        (λ pair. stamp_at before least code bytes.now ≡ Ok (pair.0, pair.1.now))
        (λ cause. stamp_at before least code bytes.now ≡ Err cause) }
{
    let (step, rest) = take_unsigned(code, bytes)?;
    let Some(stamp) = before.checked_add(step) else {
        return Err(BodyCause::StampRange);
    };
    if stamp < least {
        return Err(BodyCause::StampFalls);
    }
    Ok((stamp, rest))
}

/// The id of one of so many messages, and the stamp. `before` is the stamp that the step counts from;
/// the stamp isn't below `least`.
pub(crate) fn take_head(
    messages: u32,
    before: u64,
    least: u64,
    bytes: &[u8],
) -> Result<(RecordHeader, &[u8]), BodyCause>
    ensures { MatchResult result
        (λ pair. head_at messages before least bytes.now ≡ Ok (pair.0, pair.1.now))
        (λ cause. head_at messages before least bytes.now ≡ Err cause) }
{
    let (codes, rest) = take_head_codes(bytes)?;
    let (id, rest) = take_id(messages, codes.id, rest)?;
    let (stamp, rest) = take_stamp(before, least, codes.step, rest)?;
    Ok((RecordHeader { id, stamp }, rest))
}

/// The bytes that hold the codes of arguments of so many types.
fn split_codes(types: usize, bytes: &[u8]) -> Result<(&[u8], &[u8]), BodyCause>
    requires { types ≤ MAX_ARGUMENTS }
    ensures split { MatchResult result
        (λ pair. so_many ((types + 1) / 2) BodyCause.RecordCut bytes.now ≡ Ok (pair.0.now, pair.1.now))
        (λ cause. so_many ((types + 1) / 2) BodyCause.RecordCut bytes.now ≡ Err cause) }
    ensures len { MatchResult result (λ pair. length pair.0.now ≡ (types + 1) / 2) (λ _. ⊤) }
{
    let len = types.div_ceil(2);
    if bytes.len() < len {
        return Err(BodyCause::RecordCut);
    }
    Ok(bytes.split_at(len))
}

/// The numbers that stand for arguments of the types, with their codes in front.
#[inline(always)]
pub(crate) fn take_coded_numbers<'a>(
    types: &[ArgType],
    bytes: &'a [u8],
    numbers: &mut [Number; MAX_ARGUMENTS],
) -> Result<&'a [u8], BodyCause>
    requires few { length types.now ≤ MAX_ARGUMENTS }
    ensures { MatchResult result
        (λ rest. coded_numbers_at types.now bytes.now ≡ Ok (take (length types.now) numbers.new, rest.now))
        (λ cause. coded_numbers_at types.now bytes.now ≡ Err cause) }
{
    let (codes, rest) = split_codes(types.len(), bytes)?;
    let read = take_numbers(types, codes, rest, numbers);
    // Where all numbers were read their codes are right. Else a code that is none comes before what is wrong with a
    // number in front of it.
    if read.is_ok() && are_padded(types.len(), codes) {
        return read;
    }
    if !are_codes(types, codes) {
        return Err(BodyCause::BadNibble);
    }
    read
}
