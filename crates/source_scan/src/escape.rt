//! Escapes in literals.

ghost use Rattle.std.specs.Prelude.{◌≡◌, ◌≤◌, nat_le, length, if◌then◌else◌, Some, None, IfSome};
ghost use Rattle.std.specs.Str.Parse.{digits_value, AllDigits};
ghost use Rattle.source_scan.specs.Escapes.{letter_escape, digits_of, byte_of, character_of, escape_of, part_of};

/// The most digits of an octal escape.
const MAX_OCTAL: usize = 3;

/// How many hexadecimal digits follow `\u`.
const SHORT_CHARACTER: usize = 4;

/// How many follow `\U`.
const LONG_CHARACTER: usize = 8;

/// The greatest byte.
const MAX_BYTE: u32 = 255;

/// The greatest code of a character.
const MAX_CHARACTER: u32 = 0x10_ffff;

/// What a part of a literal stands for.
#[derive(Clone, Copy, Debug, PartialEq, Eq)]
pub enum Meaning {
    Byte(u8),
    /// A character, which is written in UTF-8.
    Character(char),
}

/// What a part of a literal stands for, and how many bytes of it follow.
type EscapePart = (Meaning, usize);

/// The byte of an escape of one letter.
fn letter_escape(letter: u8) -> Option<u8>
    ensures { result ≡ letter_escape letter }
{
    match letter {
        b'\'' | b'"' | b'?' | b'\\' => Some(letter),
        b'a' => Some(7),
        b'b' => Some(8),
        b'f' => Some(12),
        b'n' => Some(b'\n'),
        b'r' => Some(b'\r'),
        b't' => Some(b'\t'),
        b'v' => Some(11),
        b'e' => Some(27),
        _ => None,
    }
}

/// The digits, at most so many, with which the bytes begin.
fn digits_of(radix: u32, most: usize, bytes: &[u8]) -> &[u8]
    requires radix { (2 ≤ radix) × (radix ≤ 36) }
    ensures digits { result.now ≡ digits_of radix most bytes.now }
    ensures within { length result.now ≤ length bytes.now }
    ensures short { length result.now ≤ most }
    ensures are_digits { AllDigits radix result.now }
{
    let front = &bytes[..most.min(bytes.len())];
    for (place, byte) in front.iter().enumerate() {
        if !(*byte as char).is_digit(radix) {
            return &front[..place];
        }
    }
    front
}

/// The value of digits, if it is within the limit.
pub(crate) fn value_within(limit: u32, radix: u32, digits: &[u8]) -> Option<u32>
    requires radix { (2 ≤ radix) × (radix ≤ 16) }
    requires digits { AllDigits radix digits.now }
    ensures { result ≡ (if nat_le (digits_value radix digits.now) limit
        then Some (digits_value radix digits.now) else None) }
{
    let mut value = 0u64;
    let mut rest = digits;
    while let [digit, behind @ ..] = rest {
        let digit = (*digit as char).to_digit(radix)?;
        value = value * u64::from(radix) + u64::from(digit);
        if value > u64::from(limit) {
            return None;
        }
        rest = behind;
    }
    Some(value as u32)
}

/// The byte of these digits, if it is one.
fn byte_of(radix: u32, digits: &[u8]) -> Option<Meaning>
    requires radix { (2 ≤ radix) × (radix ≤ 16) }
    requires digits { AllDigits radix digits.now }
    ensures { result ≡ byte_of radix digits.now }
{
    if digits.is_empty() {
        return None;
    }
    let value = value_within(MAX_BYTE, radix, digits)?;
    Some(Meaning::Byte(value as u8))
}

/// The character of exactly so many hexadecimal digits, if it is one.
fn character_of(count: usize, digits: &[u8]) -> Option<Meaning>
    requires { AllDigits 16 digits.now }
    ensures { result ≡ character_of count digits.now }
{
    if digits.len() != count {
        return None;
    }
    let value = value_within(MAX_CHARACTER, 16, digits)?;
    let character = char::from_u32(value)?;
    Some(Meaning::Character(character))
}

/// What an escape stands for that goes on with these bytes behind its backslash, and how many of them are its own.
fn escape_of(bytes: &[u8]) -> Option<EscapePart>
    ensures value { result ≡ escape_of bytes.now }
    ensures within { IfSome result (λ part. part.1 ≤ length bytes.now) }
{
    let [letter, behind @ ..] = bytes else {
        return None;
    };
    match letter {
        b'0'..=b'7' => {
            let digits = digits_of(8, MAX_OCTAL, bytes);
            Some((byte_of(8, digits)?, digits.len()))
        }
        b'x' => {
            let digits = digits_of(16, behind.len(), behind);
            Some((byte_of(16, digits)?, 1 + digits.len()))
        }
        b'u' => {
            let digits = digits_of(16, SHORT_CHARACTER, behind);
            Some((character_of(SHORT_CHARACTER, digits)?, 1 + SHORT_CHARACTER))
        }
        b'U' => {
            let digits = digits_of(16, LONG_CHARACTER, behind);
            Some((character_of(LONG_CHARACTER, digits)?, 1 + LONG_CHARACTER))
        }
        _ => Some((Meaning::Byte(letter_escape(*letter)?), 1)),
    }
}

/// What the part of a literal stands for that begins with this byte, and how many of the bytes behind it are its own.
pub(crate) fn part_of(first: u8, bytes: &[u8]) -> Option<EscapePart>
    ensures value { result ≡ part_of first bytes.now }
    ensures within { IfSome result (λ part. part.1 ≤ length bytes.now) }
{
    if first == b'\\' {
        return escape_of(bytes);
    }
    Some((Meaning::Byte(first), 0))
}
