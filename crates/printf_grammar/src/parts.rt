ghost use Rattle.std.specs.Prelude.{◌≡◌, ℕ, ◌<◌, ◌≤◌, List, ◌∷◌, length, take, drop, MatchResult, false, Some, ◌+◌};
ghost use Rattle.std.specs.List.{AllByRecursion};
ghost use Rattle.printf_grammar.specs.Spelling.{IsFlag, SpellsWidth, TakesLength, conversion_byte};
ghost use Rattle.printf_grammar.specs.Breaks.{Head, IsHead, cause_in};
ghost use Rattle.printf_grammar.specs.Parts.{BeginsWithout, is_flag, BeginsWithFlags, BeginsWithDigits, BeginsTooWide, BeginsWithWidth, BeginsWithPrecision, BeginsWithModifier, Converts, modifier_bytes, after_flags, after_width, grows, Stops};
ghost use Rattle.printf_grammar.specs.Types.{size_types};
ghost use Rattle.printf_grammar.specs.declared.arg_type.ArgType.TheVariants as types;
ghost use Rattle.printf_grammar.specs.declared.piece.Size.{Size};
ghost use Rattle.printf_grammar.specs.declared.piece.Size.TheVariants as sizes;
ghost use Rattle.printf_grammar.specs.declared.limits.TheConstants.{MAX_ARGUMENTS};
ghost use Rattle.printf_grammar.specs.declared.parts.Modifier.TheVariants.{Known};
ghost use Rattle.printf_grammar.specs.declared.fault.FormatCause.TheVariants as causes;

use crate::fault::FormatCause;
use crate::limits::{MAX_ARGUMENTS, MAX_SIZE};
use crate::piece::{Conversion, Length, Size};

/// Where a format breaks, and why: the rest begins with the byte that can't stand there, or is empty.
#[derive(Clone, Copy, Debug)]
pub(crate) struct Stop<'a> {
    pub(crate) cause: FormatCause,
    pub(crate) rest: &'a [u8],
}

/// Which flags stand in a field.
#[derive(Clone, Copy, Debug)]
pub(crate) struct Flags {
    pub(crate) minus: bool,
    pub(crate) plus: bool,
    pub(crate) space: bool,
    pub(crate) sharp: bool,
    pub(crate) zero: bool,
}

/// A length modifier, or `L`, which is read as one but goes with no conversion.
#[derive(Clone, Copy, Debug)]
pub(crate) enum Modifier {
    Known(Length),
    LongDouble,
}

// How many flags the bytes begin with.
fn flag_len(bytes: &[u8]) -> usize
    ensures within { result ≤ length bytes.now }
    ensures flags { AllByRecursion IsFlag (take result bytes.now) }
    ensures ended { BeginsWithout is_flag (drop result bytes.now) }
{
    for (place, byte) in bytes.iter().enumerate() {
        if !matches!(*byte, b'-' | b'+' | b' ' | b'#' | b'0') {
            return place;
        }
    }
    bytes.len()
}

/// The flags that the bytes begin with, and the bytes after them.
pub(crate) fn flags_of(bytes: &[u8]) -> (Flags, &[u8])
    ensures { BeginsWithFlags bytes.now result.0 result.1.now }
{
    let (flags, rest) = bytes.split_at(flag_len(bytes));
    let flags = Flags {
        minus: flags.contains(&b'-'),
        plus: flags.contains(&b'+'),
        space: flags.contains(&b' '),
        sharp: flags.contains(&b'#'),
        zero: flags.contains(&b'0'),
    };
    (flags, rest)
}

// The number whose digits the bytes begin with, 0 where there are none, and the bytes after it.
fn number_of(bytes: &[u8]) -> Result<(u16, &[u8]), Stop<'_>>
    ensures { MatchResult result
        (λ found. BeginsWithDigits bytes.now found.0 found.1.now)
        (λ stop. BeginsTooWide bytes.now stop.cause stop.rest.now) }
{
    let mut number = 0;
    for (place, byte) in bytes.iter().enumerate() {
        let rest = &bytes[place..];
        if !byte.is_ascii_digit() {
            return Ok((number, rest));
        }
        let longer = number * 10 + (*byte - b'0') as u16;
        if longer > MAX_SIZE {
            let cause = FormatCause::TooWide;
            return Err(Stop { cause, rest });
        }
        number = longer;
    }
    Ok((number, &bytes[bytes.len()..]))
}

/// The width that the bytes begin with, and the bytes after it; `taken` arguments were taken before it.
pub(crate) fn width_of(taken: usize, bytes: &[u8]) -> Result<(Size, &[u8]), Stop<'_>>
    requires no_flag { BeginsWithout is_flag bytes.now }
    requires few { taken ≤ MAX_ARGUMENTS }
    ensures { MatchResult result
        (λ found. BeginsWithWidth bytes.now found.0 found.1.now
        × (taken + length (size_types types.Width found.0) ≤ MAX_ARGUMENTS))
        (λ stop. (flags : List ℕ) → AllByRecursion IsFlag flags
        → Stops (after_flags flags) taken bytes.now stop.cause stop.rest.now) }
{
    match bytes {
        [b'*', ..] if taken == MAX_ARGUMENTS => {
            let cause = FormatCause::TooManyArgs;
            Err(Stop { cause, rest: bytes })
        }
        [b'*', rest @ ..] => Ok((Size::Star, rest)),
        [b'1'..=b'9', ..] => {
            let (number, rest) = number_of(bytes)?;
            Ok((Size::Given(number), rest))
        }
        _ => Ok((Size::Absent, bytes)),
    }
}

/// The precision that the bytes begin with, and the bytes after it; `taken` arguments were taken before it.
pub(crate) fn precision_of(taken: usize, bytes: &[u8]) -> Result<(Size, &[u8]), Stop<'_>>
    requires few { taken ≤ MAX_ARGUMENTS }
    ensures { MatchResult result
        (λ found. BeginsWithPrecision bytes.now found.0 found.1.now
        × (taken + length (size_types types.Precision found.0) ≤ MAX_ARGUMENTS))
        (λ stop. (flags width : List ℕ) (size : Size)
        → AllByRecursion IsFlag flags → SpellsWidth width size
        → Stops (after_width flags width) taken bytes.now stop.cause stop.rest.now) }
{
    let [b'.', behind @ ..] = bytes else {
        return Ok((Size::Absent, bytes));
    };
    match behind {
        [b'*', ..] if taken == MAX_ARGUMENTS => {
            let cause = FormatCause::TooManyArgs;
            Err(Stop {
                cause,
                rest: behind,
            })
        }
        [b'*', rest @ ..] => Ok((Size::Star, rest)),
        _ => {
            let (number, rest) = number_of(behind)?;
            Ok((Size::Given(number), rest))
        }
    }
}

/// The length modifier or `L` that the bytes begin with, and the bytes after it.
pub(crate) fn modifier_of(bytes: &[u8]) -> (Modifier, &[u8])
    ensures { BeginsWithModifier bytes.now result.0 result.1.now }
{
    match bytes {
        [b'h', b'h', rest @ ..] => (Modifier::Known(Length::HH), rest),
        [b'h', rest @ ..] => (Modifier::Known(Length::H), rest),
        [b'l', b'l', rest @ ..] => (Modifier::Known(Length::LL), rest),
        [b'l', rest @ ..] => (Modifier::Known(Length::L), rest),
        [b'j', rest @ ..] => (Modifier::Known(Length::J), rest),
        [b'z', rest @ ..] => (Modifier::Known(Length::Z), rest),
        [b't', rest @ ..] => (Modifier::Known(Length::T), rest),
        [b'L', rest @ ..] => (Modifier::LongDouble, rest),
        _ => (Modifier::Known(Length::Plain), bytes),
    }
}

// The conversion that the byte is, where no earlier part of a field goes on with it.
fn letter_of(byte: u8) -> Result<Conversion, FormatCause>
    ensures { MatchResult result
        (λ conversion. byte ≡ conversion_byte conversion)
        (λ cause. (head : Head) (taken : ℕ) → grows head byte ≡ false → cause_in head taken byte ≡ Some cause) }
{
    match byte {
        b'd' => Ok(Conversion::D),
        b'i' => Ok(Conversion::I),
        b'o' => Ok(Conversion::O),
        b'u' => Ok(Conversion::U),
        b'x' => Ok(Conversion::X),
        b'X' => Ok(Conversion::UpperX),
        b'c' => Ok(Conversion::C),
        b's' => Ok(Conversion::S),
        b'p' => Ok(Conversion::P),
        b'a' | b'A' | b'e' | b'E' | b'f' | b'F' | b'g' | b'G' => Err(FormatCause::Float),
        b'n' => Err(FormatCause::Store),
        b'%' => Err(FormatCause::BadPercent),
        0 => Err(FormatCause::Nul),
        _ => Err(FormatCause::Unknown),
    }
}

// The length that the modifier gives to the conversion.
fn length_for(modifier: Modifier, conversion: Conversion) -> Result<Length, FormatCause>
    ensures { MatchResult result
        (λ length. (modifier ≡ Known length) × TakesLength conversion length)
        (λ cause. (head : Head) (taken : ℕ) → head.modifier ≡ modifier_bytes modifier
        → cause_in head taken (conversion_byte conversion) ≡ Some cause) }
{
    match (conversion, modifier) {
        (Conversion::C | Conversion::S, Modifier::Known(Length::L)) => Err(FormatCause::Wide),
        (Conversion::C | Conversion::S | Conversion::P, Modifier::Known(Length::Plain)) => {
            Ok(Length::Plain)
        }
        (Conversion::C | Conversion::S | Conversion::P, _) => Err(FormatCause::BadLength),
        (_, Modifier::Known(length)) => Ok(length),
        (_, Modifier::LongDouble) => Err(FormatCause::BadLength),
    }
}

// What the byte converts to behind the modifier; `taken` arguments were taken before it.
fn converted(
    taken: usize,
    modifier: Modifier,
    byte: u8,
) -> Result<(Length, Conversion), FormatCause>
    requires few { taken ≤ MAX_ARGUMENTS }
    ensures { MatchResult result
        (λ found. Converts taken modifier byte found.0 found.1)
        (λ cause. (head : Head) → head.modifier ≡ modifier_bytes modifier → grows head byte ≡ false
        → cause_in head taken byte ≡ Some cause) }
{
    let conversion = letter_of(byte)?;
    let length = length_for(modifier, conversion)?;
    if taken == MAX_ARGUMENTS {
        return Err(FormatCause::TooManyArgs);
    }
    Ok((length, conversion))
}

/// The conversion that the bytes begin with, its length, and the bytes after it; `taken` arguments were taken
/// before it.
pub(crate) fn conversion_of(
    taken: usize,
    modifier: Modifier,
    bytes: &[u8],
) -> Result<(Length, Conversion, &[u8]), Stop<'_>>
    requires few { taken ≤ MAX_ARGUMENTS }
    ensures { MatchResult result
        (λ found. (byte : ℕ) × (bytes.now ≡ byte ∷ found.2.now) × Converts taken modifier byte found.0 found.1)
        (λ stop. (head : Head) → IsHead head → head.modifier ≡ modifier_bytes modifier
        → BeginsWithout (grows head) bytes.now → Stops head taken bytes.now stop.cause stop.rest.now) }
{
    let [byte, rest @ ..] = bytes else {
        let cause = FormatCause::Ends;
        return Err(Stop { cause, rest: bytes });
    };
    match converted(taken, modifier, *byte) {
        Ok((length, conversion)) => Ok((length, conversion, rest)),
        Err(cause) => Err(Stop { cause, rest: bytes }),
    }
}
