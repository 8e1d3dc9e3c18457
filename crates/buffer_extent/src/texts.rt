//! The arguments of a record, whose numbers were read: their texts at the front of bytes. They take no memory.

ghost use Rattle.std.specs.Prelude.{◌≡◌, ◌≤◌, List, [], length, IsTrue, MatchResult, Ok, Err};
ghost use Rattle.printf_grammar.specs.declared.argument.Value.{Value};
ghost use Rattle.printf_grammar.specs.Types.{argument_value, values_of};
ghost use Rattle.printf_grammar.specs.declared.limits.TheConstants.{MAX_ARGUMENTS, MAX_TEXT};
ghost use Rattle.buffer_extent.specs.Reading.{may_stand, MayStand, text_at, value_at, values_at};

use crate::fault::BodyCause;
use crate::numbers::Number;
use arrayvec::ArrayVec;
use printf_grammar::{Arg, ArgType};

/// A text of so many bytes. Each of these calls gives the bytes behind what it read.
#[inline(always)]
fn take_text(len: usize, bytes: &[u8]) -> Result<(&[u8], &[u8]), BodyCause>
    requires { len ≤ MAX_TEXT }
    ensures { MatchResult result
        (λ pair. text_at len bytes.now ≡ Ok (pair.0.now, pair.1.now))
        (λ cause. text_at len bytes.now ≡ Err cause) }
{
    if bytes.len() < len {
        return Err(BodyCause::RecordCut);
    }
    let (text, rest) = bytes.split_at(len);
    if !ArgType::Text.takes(Arg::Text(text)) {
        return Err(BodyCause::NulInText);
    }
    Ok((text, rest))
}

/// The argument of the type that the number stands for.
#[inline(always)]
pub(crate) fn take_value(
    kind: ArgType,
    number: Number,
    bytes: &[u8],
) -> Result<(Arg<'_>, &[u8]), BodyCause>
    requires { IsTrue (may_stand kind number) }
    ensures { MatchResult result
        (λ pair. value_at kind number bytes.now ≡ Ok (argument_value pair.0, pair.1.now))
        (λ cause. value_at kind number bytes.now ≡ Err cause) }
{
    match number {
        Number::Signed(number) => Ok((Arg::Signed(number), bytes)),
        Number::Unsigned(number) => {
            if kind != ArgType::Text {
                return Ok((Arg::Unsigned(number), bytes));
            }
            let (text, rest) = take_text(number as usize, bytes)?;
            Ok((Arg::Text(text), rest))
        }
    }
}

/// Puts the arguments of any number of types that the numbers stand for.
#[inline(never)]
pub(crate) fn take_many<'a, const N: usize>(
    types: &[ArgType],
    numbers: &[Number],
    bytes: &'a [u8],
    args: &mut ArrayVec<Arg<'a>, N>,
) -> Result<&'a [u8], BodyCause>
    requires few { length types.now ≤ N }
    requires fit { MayStand types.now numbers.now }
    requires none { args.old.items ≡ [] }
    ensures { MatchResult result
        (λ rest. values_at types.now numbers.now bytes.now ≡ Ok (values_of args.new.items, rest.now))
        (λ cause. values_at types.now numbers.now bytes.now ≡ Err cause) }
{
    let mut rest = bytes;
    for (place, kind) in types.iter().enumerate() {
        let (arg, back) = take_value(*kind, numbers[place], rest)?;
        args.push(arg);
        rest = back;
    }
    Ok(rest)
}

/// Sets `args` to the arguments of the types that the numbers stand for, and gives the bytes behind them. One or two
/// are put at once.
pub(crate) fn take_texts<'a, const N: usize>(
    types: &[ArgType],
    numbers: &[Number],
    bytes: &'a [u8],
    args: &mut ArrayVec<Arg<'a>, N>,
) -> Result<&'a [u8], BodyCause>
    requires few { length types.now ≤ N }
    requires fit { MayStand types.now numbers.now }
    ensures { MatchResult result
        (λ rest. values_at types.now numbers.now bytes.now ≡ Ok (values_of args.new.items, rest.now))
        (λ cause. values_at types.now numbers.now bytes.now ≡ Err cause) }
{
    args.clear();
    match (types, numbers) {
        ([kind], [number]) => {
            let (arg, rest) = take_value(*kind, *number, bytes)?;
            args.push(arg);
            Ok(rest)
        }
        ([kind, next_kind], [number, next_number]) => {
            let (arg, rest) = take_value(*kind, *number, bytes)?;
            let (next, rest) = take_value(*next_kind, *next_number, rest)?;
            args.push(arg);
            args.push(next);
            Ok(rest)
        }
        _ => take_many(types, numbers, bytes, args),
    }
}

/// Judges the arguments of the types that the numbers stand for, and gives the bytes behind them.
pub(crate) fn skip_texts<'a>(
    types: &[ArgType],
    numbers: &[Number],
    bytes: &'a [u8],
) -> Result<&'a [u8], BodyCause>
    requires few { length types.now ≤ MAX_ARGUMENTS }
    requires fit { MayStand types.now numbers.now }
    ensures { MatchResult result
        (λ rest. (args : List Value) × (values_at types.now numbers.now bytes.now ≡ Ok (args, rest.now)))
        (λ cause. values_at types.now numbers.now bytes.now ≡ Err cause) }
{
    let mut rest = bytes;
    for (place, kind) in types.iter().enumerate() {
        let (_arg, back) = take_value(*kind, numbers[place], rest)?;
        rest = back;
    }
    Ok(rest)
}
