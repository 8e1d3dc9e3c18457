//! The arguments of a record that are kept, each text in memory of its own.

ghost use Rattle.std.specs.Prelude.{◌≡◌, ◌≤◌, length, IfOk, MatchResult, Ok, Err};
ghost use Rattle.printf_grammar.specs.Types.{argument_value, values_of};
ghost use Rattle.printf_grammar.specs.declared.limits.TheConstants.{MAX_ARGUMENTS};
ghost use Rattle.buffer_extent.specs.declared.fault.BodyCause.{BodyCause};
ghost use Rattle.buffer_extent.specs.Reading.{MayStand, values_at};
ghost use Rattle.buffer_extent.specs.Bodies.{IsDamage};

use crate::fault::BodyFault;
use crate::numbers::Number;
use crate::texts::{take_many, take_value};
use arrayvec::ArrayVec;
use printf_grammar::{Arg, ArgType, Bytes, MAX_ARGUMENTS, Value, Values};
use std::alloc::{AllocError, Global};

/// The argument, kept.
#[inline(always)]
fn keep_one(alloc: Global, arg: Arg) -> Result<Value, AllocError>
    ensures { IfOk result (λ value. value ≡ argument_value arg.entry) }
{
    match arg {
        Arg::Signed(number) => Ok(Value::Signed(number)),
        Arg::Unsigned(number) => Ok(Value::Unsigned(number)),
        Arg::Text(text) => Ok(Value::Text(Bytes::from_slice(alloc, text)?)),
    }
}

/// Any number of arguments, kept.
#[inline(never)]
fn keep_many(alloc: Global, args: &[Arg]) -> Result<Values, AllocError>
    requires { length args.now ≤ MAX_ARGUMENTS }
    ensures { IfOk result (λ values. values ≡ values_of args.now) }
{
    let mut values = Values::make(alloc);
    for arg in args {
        values.push(keep_one(alloc, *arg)?)?;
    }
    Ok(values)
}

/// Sets `values` to the arguments of the types that the numbers stand for, kept, and gives the bytes behind them. Up to
/// two are put together at once, and more go by the room.
pub(crate) fn keep_texts<'a>(
    alloc: Global,
    types: &[ArgType],
    numbers: &[Number],
    bytes: &'a [u8],
    room: &mut ArrayVec<Arg<'a>, MAX_ARGUMENTS>,
    values: &mut Values,
) -> Result<&'a [u8], BodyFault>
    requires few { length types.now ≤ MAX_ARGUMENTS }
    requires fit { MayStand types.now numbers.now }
    ensures kept { MatchResult result
        (λ rest. values_at types.now numbers.now bytes.now ≡ Ok (values.new, rest.now))
        (IsDamage (λ cause. values_at types.now numbers.now bytes.now ≡ Err cause)) }

    // All texts are judged before any memory is wanted.
    ensures broken { (cause : BodyCause) → values_at types.now numbers.now bytes.now ≡ Err cause
        → result ≡ Err (BodyFault.Damaged cause) }
{
    match (types, numbers) {
        ([], []) => {
            *values = Values::make(alloc);
            Ok(bytes)
        }
        ([kind], [number]) => {
            let (arg, rest) = take_value(*kind, *number, bytes)?;
            *values = Values::one(alloc, keep_one(alloc, arg)?);
            Ok(rest)
        }
        ([kind, next_kind], [number, next_number]) => {
            let (arg, rest) = take_value(*kind, *number, bytes)?;
            let (next, rest) = take_value(*next_kind, *next_number, rest)?;
            let value = keep_one(alloc, arg)?;
            *values = Values::two(alloc, value, keep_one(alloc, next)?);
            Ok(rest)
        }
        _ => {
            room.clear();
            let rest = take_many(types, numbers, bytes, room)?;
            *values = keep_many(alloc, room.as_slice())?;
            Ok(rest)
        }
    }
}
