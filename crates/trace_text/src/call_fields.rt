//! The arguments of a call's line.

ghost use Rattle.std.specs.Prelude.{◌≡◌, ◌≢◌, ◌+◌, ◌≤◌, ℤ, IfOk, IfErr, IfSome, IfNone, OnOk, length, Ok, Err, Some, ◌<◌, ◌++◌, ◌∷◌, []};
ghost use Rattle.printf_grammar.specs.declared.argument.Value.TheVariants.{Signed as SignedValue, Unsigned as UnsignedValue, Text as TextValue};
ghost use Rattle.printf_grammar.specs.declared.limits.TheConstants.{MAX_ARGUMENTS, MAX_TEXT};
ghost use Rattle.log_dictionary.specs.Numbers.{integer_read, if_signed};
ghost use Rattle.arg_records.specs.Frames.{FrameLen};
ghost use Rattle.trace_text.specs.declared.cause.TraceCause.TheVariants.{ArgRange};
ghost use Rattle.trace_text.specs.CallReading.{signed_within, unsigned_below, checked_text, argument_of, arguments_at};
ghost use Rattle.trace_text.specs.CallReading.Item.{number};
ghost use Rattle.trace_text.specs.CallFields.{result_as, item_argument, spaced_argument};
ghost use Rattle.trace_text.specs.CallFields.{MayKeepMore, KeepsAlso, KeepsNumber, KeepsRead};

use crate::cause::TraceCause;
use arg_records::text_words;
use log_dictionary::{Integer, SpelledText, ends_field, split_integer, split_text};
use printf_grammar::{ArgType, MAX_ARGUMENTS, MAX_SIZE, MAX_TEXT, Value, Values};
use std::alloc::{AllocError, Global};

fn signed_of(integer: Integer) -> Option<i64>
    ensures { (z : ℤ) → integer ≡ integer_read z → result ≡ if_signed (Some z) }
{
    match integer {
        Integer::Signed(signed) => Some(signed),
        Integer::Unsigned(unsigned) if unsigned <= i64::MAX as u64 => Some(unsigned as i64),
        _ => None,
    }
}

// Adds an argument to those so far. There are none once memory lacked.
#[inline(always)]
fn keep_value(kept: &mut Option<Values>, value: Value)
    requires { MayKeepMore kept.old }
    ensures { KeepsAlso value kept.old kept.new }
{
    let Some(values) = kept else {
        return;
    };
    if values.push(value).is_err() {
        *kept = None;
    }
}

// On their own these two get a number in a register, and make the value where it is kept. As a value it would be copied
// with its padding, in halves that overlap, and each copy would wait for the one before.
#[inline(never)]
fn keep_signed(kept: &mut Option<Values>, number: i64)
    requires { MayKeepMore kept.old }
    ensures { KeepsAlso (SignedValue number) kept.old kept.new }
{
    keep_value(kept, Value::Signed(number));
}

#[inline(never)]
fn keep_unsigned(kept: &mut Option<Values>, number: u64)
    requires { MayKeepMore kept.old }
    ensures { KeepsAlso (UnsignedValue number) kept.old kept.new }
{
    keep_value(kept, Value::Unsigned(number));
}

fn push_text(alloc: Global, values: &mut Values, text: &SpelledText<'_>) -> Result<(), AllocError>
    requires { length values.old < MAX_ARGUMENTS }
    ensures { OnOk result (values.new ≡ values.old ++ TextValue text.now ∷ []) }
{
    values.push(Value::Text(text.to_bytes(alloc)?))
}

fn keep_text(alloc: Global, kept: &mut Option<Values>, text: &SpelledText<'_>)
    requires { MayKeepMore kept.old }
    ensures { KeepsAlso (TextValue text.now) kept.old kept.new }
{
    let Some(values) = kept else {
        return;
    };
    if push_text(alloc, values, text).is_err() {
        *kept = None;
    }
}

// The integer, if it is from `least` to `most`.
fn signed_from(integer: Integer, least: i64, most: i64) -> Option<i64>
    ensures some { IfSome result (λ signed. (z : ℤ) → integer ≡ integer_read z
        → Ok (SignedValue signed) ≡ signed_within least most z) }
    ensures none { IfNone result ((z : ℤ) → integer ≡ integer_read z → Err ArgRange ≡ signed_within least most z) }
{
    match signed_of(integer) {
        Some(signed) if signed >= least && signed <= most => Some(signed),
        _ => None,
    }
}

// The integer, if it is from 0 to `most`.
fn unsigned_to(integer: Integer, most: u64) -> Option<u64>
    ensures some { IfSome result (λ unsigned. (z : ℤ) → integer ≡ integer_read z
        → Ok (UnsignedValue unsigned) ≡ unsigned_below (most + 1) z) }
    ensures none { IfNone result ((z : ℤ) → integer ≡ integer_read z → Err ArgRange ≡ unsigned_below (most + 1) z) }
{
    match integer {
        Integer::Unsigned(unsigned) if unsigned <= most => Some(unsigned),
        _ => None,
    }
}

// Keeps an integer from `least` to `most`.
fn keep_from(
    integer: Integer,
    least: i64,
    most: i64,
    kept: &mut Option<Values>,
) -> Result<(), TraceCause>
    requires { MayKeepMore kept.old }
    ensures ok { OnOk result (KeepsNumber (signed_within least most) integer kept.old kept.new) }
    ensures err { IfErr result (λ cause. (z : ℤ) → integer ≡ integer_read z → Err cause ≡ signed_within least most z) }
{
    match signed_from(integer, least, most) {
        Some(signed) => {
            keep_signed(kept, signed);
            Ok(())
        }
        None => Err(TraceCause::ArgRange),
    }
}

// Keeps an integer from 0 to `most`.
fn keep_to(integer: Integer, most: u64, kept: &mut Option<Values>) -> Result<(), TraceCause>
    requires { MayKeepMore kept.old }
    ensures ok { OnOk result (KeepsNumber (unsigned_below (most + 1)) integer kept.old kept.new) }
    ensures err { IfErr result (λ cause. (z : ℤ) → integer ≡ integer_read z → Err cause ≡ unsigned_below (most + 1) z) }
{
    match unsigned_to(integer, most) {
        Some(unsigned) => {
            keep_unsigned(kept, unsigned);
            Ok(())
        }
        None => Err(TraceCause::ArgRange),
    }
}

fn keep_number(kind: ArgType, integer: Integer, kept: &mut Option<Values>) -> Result<(), TraceCause>
    requires { MayKeepMore kept.old }
    ensures ok { OnOk result (KeepsNumber (λ z. argument_of kind (number z)) integer kept.old kept.new) }
    ensures err { IfErr result (λ cause. (z : ℤ) → integer ≡ integer_read z
        → Err cause ≡ argument_of kind (number z)) }
{
    match kind {
        ArgType::Int => keep_from(integer, i32::MIN as i64, i32::MAX as i64, kept),
        ArgType::UInt => keep_to(integer, u32::MAX as u64, kept),
        ArgType::Long => keep_from(integer, i64::MIN, i64::MAX, kept),
        ArgType::ULong => keep_to(integer, u64::MAX, kept),
        ArgType::Width => keep_from(integer, -(MAX_SIZE as i64), MAX_SIZE as i64, kept),
        ArgType::Precision => keep_from(integer, i32::MIN as i64, MAX_SIZE as i64, kept),
        ArgType::Text => Err(TraceCause::ArgKind),
    }
}

// Why the text may be no argument, if there is a cause.
fn text_fault(text: &SpelledText<'_>) -> Option<TraceCause>
    ensures some { IfSome result (λ cause. Err cause ≡ checked_text text.now) }
    ensures none { IfNone result (Ok (TextValue text.now) ≡ checked_text text.now) }
    ensures short { IfNone result (length text.now ≤ MAX_TEXT) }
{
    if text.has_nul() {
        return Some(TraceCause::NulInText);
    }
    if text.len() > MAX_TEXT {
        return Some(TraceCause::TooLong);
    }
    None
}

// A number up to the next space. It gives the bytes from that space on.
fn read_number<'a>(
    kind: ArgType,
    bytes: &'a [u8],
    kept: &mut Option<Values>,
) -> Result<&'a [u8], TraceCause>
    requires { MayKeepMore kept.old }
    ensures ok { kind ≢ ArgType.Text
        → IfOk result (λ rest. KeepsRead (item_argument kind bytes.now) 1 rest.now kept.old kept.new) }
    ensures err { kind ≢ ArgType.Text → IfErr result (λ cause. Err cause ≡ item_argument kind bytes.now) }
{
    let Some((integer, rest)) = split_integer(bytes) else {
        return Err(TraceCause::ArgKind);
    };
    match keep_number(kind, integer, kept) {
        Ok(()) => Ok(rest),
        Err(cause) => Err(cause),
    }
}

// A text. It gives how many words it takes, and the bytes behind it.
fn read_text<'a>(
    alloc: Global,
    bytes: &'a [u8],
    kept: &mut Option<Values>,
) -> Result<(u64, &'a [u8]), TraceCause>
    requires { MayKeepMore kept.old }
    ensures ok { IfOk result (λ read. KeepsRead (item_argument ArgType.Text bytes.now) read.0 read.1.now
        kept.old kept.new) }
    ensures err { IfErr result (λ cause. Err cause ≡ item_argument ArgType.Text bytes.now) }
{
    let Some((text, rest)) = split_text(bytes) else {
        return Err(TraceCause::ArgKind);
    };
    if !ends_field(rest) {
        return Err(TraceCause::ArgKind);
    }
    match text_fault(&text) {
        Some(cause) => Err(cause),
        None => {
            keep_text(alloc, kept, &text);
            Ok((text_words(text.len()), rest))
        }
    }
}

fn read_item<'a>(
    alloc: Global,
    kind: ArgType,
    bytes: &'a [u8],
    kept: &mut Option<Values>,
) -> Result<(u64, &'a [u8]), TraceCause>
    requires { MayKeepMore kept.old }
    ensures ok { IfOk result (λ read. KeepsRead (item_argument kind bytes.now) read.0 read.1.now kept.old kept.new) }
    ensures err { IfErr result (λ cause. Err cause ≡ item_argument kind bytes.now) }
{
    match kind {
        ArgType::Text => read_text(alloc, bytes, kept),
        _ => match read_number(kind, bytes, kept) {
            Ok(rest) => Ok((1, rest)),
            Err(cause) => Err(cause),
        },
    }
}

// An argument of the type behind a space. It gives how many words it takes, and the bytes behind it.
fn read_field<'a>(
    alloc: Global,
    kind: ArgType,
    bytes: &'a [u8],
    kept: &mut Option<Values>,
) -> Result<(u64, &'a [u8]), TraceCause>
    requires { MayKeepMore kept.old }
    ensures ok { IfOk result (λ read. KeepsRead (spaced_argument kind bytes.now) read.0 read.1.now kept.old kept.new) }
    ensures err { IfErr result (λ cause. Err cause ≡ spaced_argument kind bytes.now) }
{
    match bytes {
        [] => Err(TraceCause::ArgCount),
        [_, bytes @ ..] => read_item(alloc, kind, bytes, kept),
    }
}

/// Keeps the arguments of these types that the bytes spell, as long as there is memory for them, and answers how many
/// words the frame of their call has.
pub(crate) fn read_arguments(
    alloc: Global,
    types: &[ArgType],
    bytes: &[u8],
    kept: &mut Option<Values>,
) -> Result<u64, TraceCause>
    requires few { length types.now ≤ MAX_ARGUMENTS }
    requires none_yet { IfSome kept.old (λ values. values ≡ []) }
    ensures words { result ≡ result_as FrameLen (arguments_at types.now bytes.now) }
    ensures values { OnOk result (IfSome kept.new (λ values. arguments_at types.now bytes.now ≡ Ok values)) }
{
    let mut words = 2;
    let mut rest = bytes;
    for kind in types {
        match read_field(alloc, *kind, rest, kept) {
            Ok((more, after)) => {
                words += more;
                rest = after;
            }
            Err(cause) => return Err(cause),
        }
    }
    if !rest.is_empty() {
        return Err(TraceCause::ArgCount);
    }
    Ok(words)
}
