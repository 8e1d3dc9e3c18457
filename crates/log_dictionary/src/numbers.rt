//! Numbers as they are spelled in a trace.

ghost use Rattle.std.specs.Prelude.{◌≡◌, ◌<◌, ◌≤◌, ◌+◌, ◌-◌, ◌*◌, ◌^◌, length, drop, IfSome, IfNone, FitsSigned, ℤ, pos, ℕ, Option, Some, None, if◌then◌else◌};
ghost use Rattle.std.specs.Int.{w64};
ghost use Rattle.std.specs.Fmt.{decimal, signed_decimal};
ghost use Rattle.std.specs.Option.{option_map, SomeIff};
ghost use Rattle.log_dictionary.specs.declared.numbers.TheConstants.{SHORT};
ghost use Rattle.log_dictionary.specs.Numbers.{is_digit, natural_of, natural_read, number_from, digits_from, integer_of, integer_read, negated, if_signed, if_small};
ghost use Rattle.log_dictionary.specs.Fields.{if_ends, of_first_field};

use crate::fields::ends_field;

/// A tenth of the greatest `u64`, and the digit that may follow it.
const TENTH: u64 = 1_844_674_407_370_955_161;

const LAST: u8 = 5;

/// A number of so many digits is below 2^64.
const SHORT: usize = 19;

/// A number of any size.
#[derive(Clone, Copy)]
pub(crate) enum Natural {
    Small(u64),
    /// It isn't below 2^64.
    Large,
}

/// A number of any size, which may be below 0.
#[derive(Clone, Copy, Debug, PartialEq, Eq)]
pub enum Integer {
    /// From -2^63 to -1.
    Signed(i64),
    /// From 0 to 2^64 - 1.
    Unsigned(u64),
    /// Below -2^63 or above 2^64 - 1.
    Beyond,
}

fn digit_of(byte: u8) -> Option<u8>
    ensures value { result ≡ (if is_digit byte then Some (byte - 48) else None) }
    ensures below { IfSome result (λ digit. digit < 10) }
{
    if byte >= b'0' && byte <= b'9' {
        Some(byte - b'0')
    } else {
        None
    }
}

// The number with one more digit, if it is below 2^64.
fn with_digit(number: u64, digit: u8) -> Option<u64>
    requires { digit < 10 }
    ensures { SomeIff result (number * 10 + digit < 2 ^ 64) (number * 10 + digit) }
{
    if number < TENTH || (number == TENTH && digit <= LAST) {
        Some(number * 10 + u64::from(digit))
    } else {
        None
    }
}

// The bytes behind the digits that stand first.
fn behind_digits(bytes: &[u8]) -> &[u8]
    ensures { result.now ≡ (digits_from 0 bytes.now).1 }
{
    for end in 0..bytes.len() {
        let Some(_) = digit_of(bytes[end]) else {
            return &bytes[end..];
        };
    }
    &bytes[bytes.len()..]
}

// The number that the digits which stand first spell behind those of a number, and the bytes behind them.
fn more_digits(first: u64, bytes: &[u8]) -> (Natural, &[u8])
    ensures number { result.0 ≡ natural_read (digits_from first bytes.now).0 }
    ensures rest { result.1.now ≡ (digits_from first bytes.now).1 }
{
    let mut number = first;
    for end in 0..bytes.len() {
        let Some(digit) = digit_of(bytes[end]) else {
            return (Natural::Small(number), &bytes[end..]);
        };
        let Some(longer) = with_digit(number, digit) else {
            return (Natural::Large, behind_digits(&bytes[end..]));
        };
        number = longer;
    }
    (Natural::Small(number), &bytes[bytes.len()..])
}

// The number that the digits spell which stand first, and how many they are. Behind 19 it looks for no more. On its
// own it keeps the number in a register, which its callers have no room for.
#[inline(never)]
fn short_digits(bytes: &[u8]) -> (u64, usize)
    ensures within { result.1 ≤ length bytes.now }
    ensures spelled { digits_from 0 bytes.now ≡ digits_from result.0 (drop result.1 bytes.now) }
    ensures all { result.1 < SHORT
        → digits_from result.0 (drop result.1 bytes.now) ≡ (result.0, drop result.1 bytes.now) }
{
    let mut number = 0;
    let short = bytes.len().min(SHORT);
    for end in 0..short {
        let Some(digit) = digit_of(bytes[end]) else {
            return (number, end);
        };
        number = number * 10 + u64::from(digit);
    }
    (number, short)
}

// The number that the digits spell which stand first, and the bytes behind them.
#[inline(always)]
fn split_digits(bytes: &[u8]) -> (Natural, &[u8])
    ensures number { result.0 ≡ natural_read (digits_from 0 bytes.now).0 }
    ensures rest { result.1.now ≡ (digits_from 0 bytes.now).1 }
{
    let (number, len) = short_digits(bytes);
    if len < SHORT {
        return (Natural::Small(number), &bytes[len..]);
    }
    more_digits(number, &bytes[len..])
}

// The number that the digits spell, also where a zero stands in front.
fn value_of(digits: &[u8]) -> Option<Natural>
    ensures { result ≡ option_map natural_read (number_from 0 digits.now) }
{
    match split_digits(digits) {
        (value, []) => Some(value),
        _ => None,
    }
}

/// The number of any size that the digits spell, with no zero in front, or `0`.
pub(crate) fn read_natural(digits: &[u8]) -> Option<Natural>
    ensures { result ≡ option_map natural_read (natural_of digits.now) }
{
    match digits {
        [] => None,
        [b'0', _, ..] => None,
        _ => value_of(digits),
    }
}

// The number and the rest, where a field ends before the rest.
fn if_ends(number: Natural, rest: &[u8]) -> Option<(Natural, &[u8])>
    ensures { option_map (λ found. (found.0, found.1.now)) result ≡ if_ends number rest.now }
{
    if ends_field(rest) {
        Some((number, rest))
    } else {
        None
    }
}

// The number of one digit that the first field spells, and the rest behind the field.
#[inline(always)]
fn one_digit(bytes: &[u8]) -> Option<(Natural, &[u8])>
    ensures { IfSome result (λ found. Some (found.0, found.1.now)
        ≡ of_first_field (λ field. option_map natural_read (natural_of field)) bytes.now) }
{
    let [first, rest @ ..] = bytes else {
        return None;
    };
    let Some(digit) = digit_of(*first) else {
        return None;
    };
    if !ends_field(rest) {
        return None;
    }
    Some((Natural::Small(u64::from(digit)), rest))
}

// The number of any size that the first field spells, and the rest behind the field. Writers and ids mostly have one
// digit.
#[inline(always)]
fn split_natural(bytes: &[u8]) -> Option<(Natural, &[u8])>
    ensures { option_map (λ found. (found.0, found.1.now)) result
        ≡ of_first_field (λ field. option_map natural_read (natural_of field)) bytes.now }
{
    if let Some(found) = one_digit(bytes) {
        return Some(found);
    }
    match bytes {
        [] | [b' ', ..] => None,
        [b'0', rest @ ..] => if_ends(Natural::Small(0), rest),
        _ => {
            let (number, rest) = split_digits(bytes);
            if_ends(number, rest)
        }
    }
}

// The number of this size, if one was read.
fn from_zero(size: Option<Natural>) -> Option<Integer>
    ensures { (n : Option ℕ) → size ≡ option_map natural_read n
        → result ≡ option_map integer_read (option_map pos n) }
{
    match size {
        Some(Natural::Small(number)) => Some(Integer::Unsigned(number)),
        Some(Natural::Large) => Some(Integer::Beyond),
        None => None,
    }
}

// The number below 0 of this size, if one was read.
fn below_zero(size: Option<Natural>) -> Option<Integer>
    ensures { (n : Option ℕ) → size ≡ option_map natural_read n
        → result ≡ option_map integer_read (negated n) }
{
    match size {
        None => None,
        Some(Natural::Small(0)) => None,
        Some(Natural::Small(number)) if number <= 1 << 63 => {
            Some(Integer::Signed(-((number - 1) as i64) - 1))
        }
        Some(Natural::Small(_)) => Some(Integer::Beyond),
        Some(Natural::Large) => Some(Integer::Beyond),
    }
}

/// The number of any size that the field spells: decimal digits with no zero in front, or `0`, and
/// one `-` in front of a number below 0.
pub fn read_integer(field: &[u8]) -> Option<Integer>
    ensures { result ≡ option_map integer_read (integer_of field.now) }
{
    match field {
        [] => None,
        [b'-', digits @ ..] => below_zero(read_natural(digits)),
        _ => from_zero(read_natural(field)),
    }
}

/// The number of any size that the first field spells, as `read_integer` reads it, and the rest behind the field.
#[inline(always)]
pub fn split_integer(bytes: &[u8]) -> Option<(Integer, &[u8])>
    ensures { option_map (λ found. (found.0, found.1.now)) result
        ≡ of_first_field (λ field. option_map integer_read (integer_of field)) bytes.now }
{
    match bytes {
        [b'-', digits @ ..] => {
            let (size, rest) = split_natural(digits)?;
            Some((below_zero(Some(size))?, rest))
        }
        _ => {
            let (size, rest) = split_natural(bytes)?;
            Some((from_zero(Some(size))?, rest))
        }
    }
}

/// The number below 2^64 that the first field spells, as `read_number` reads it, and the rest behind the field.
#[inline(always)]
pub fn split_number(bytes: &[u8]) -> Option<(u64, &[u8])>
    ensures { option_map (λ found. (found.0, found.1.now)) result
        ≡ of_first_field (λ field. if_small (natural_of field)) bytes.now }
{
    match split_natural(bytes) {
        Some((Natural::Small(number), rest)) => Some((number, rest)),
        _ => None,
    }
}

fn small_number(field: &[u8]) -> Option<u64>
    ensures { result ≡ if_small (natural_of field.now) }
{
    match read_natural(field) {
        Some(Natural::Small(number)) => Some(number),
        _ => None,
    }
}

/// The number below 2^64 that the field spells: decimal digits with no zero in front, or `0`.
pub fn read_number(field: &[u8]) -> Option<u64>
    ensures value { result ≡ if_small (natural_of field.now) }
    ensures some { IfSome result (λ n. field.now ≡ decimal n) }
    ensures none { IfNone result ((n : ℕ) → n < 2 ^ 64 → field.now ≡ decimal n → ⊥) }
{
    small_number(field)
}

fn signed_number(field: &[u8]) -> Option<i64>
    ensures { result ≡ if_signed (integer_of field.now) }
{
    match read_integer(field) {
        Some(Integer::Signed(number)) => Some(number),
        Some(Integer::Unsigned(number)) if number < 1 << 63 => Some(number as i64),
        _ => None,
    }
}

/// The number from -2^63 to 2^63-1 that the field spells: as `read_number`, and a number below 0
/// has one `-` in front.
pub fn read_signed(field: &[u8]) -> Option<i64>
    ensures value { result ≡ if_signed (integer_of field.now) }
    ensures some { IfSome result (λ n. field.now ≡ signed_decimal n) }
    ensures none { IfNone result ((n : ℤ) → FitsSigned w64 n → field.now ≡ signed_decimal n → ⊥) }
{
    signed_number(field)
}
