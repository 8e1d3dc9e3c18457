//! The digits of numbers.

ghost use Rattle.std.specs.Prelude.{◌≡◌, ◌≤◌, ◌<◌, ◌^◌, ◌++◌, ℕ, Bool, length, drop, replicate};
ghost use Rattle.std.specs.Option.{unwrap_or};
ghost use Rattle.std.specs.Fmt.{digits, digit_glyph};
ghost use Rattle.direct_printf.specs.Fields.{Digits};

use crate::padding::FieldParts;

/// The octal digits of a u64 at most.
pub const MAX_DIGITS: usize = 22;

/// Writes the digits of the value at the end of the buffer, and answers where they begin.
#[inline(always)]
pub fn write_digits(value: u64, base: u64, upper: bool, buffer: &mut [u8; MAX_DIGITS]) -> usize
    requires low { 8 ≤ base }
    requires high { base ≤ 16 }
    ensures start { result < MAX_DIGITS }
    ensures written { drop result buffer.new ≡ digits base upper value }
{
    let mut left = value;
    let mut at = MAX_DIGITS;
    while left >= base {
        at -= 1;
        buffer[at] = glyph((left % base) as u8, upper);
        left /= base;
    }
    at -= 1;
    buffer[at] = glyph(left as u8, upper);
    at
}

fn glyph(digit: u8, upper: bool) -> u8
    requires { digit < 16 }
    ensures { result ≡ digit_glyph upper digit }
{
    if digit < 10 {
        b'0' + digit
    } else if upper {
        b'A' - 10 + digit
    } else {
        b'a' - 10 + digit
    }
}

/// A number from the least spelling of its value, with zeros in front up to the precision, which
/// is 1 if omitted. The value 0 at precision 0 has no digits.
#[inline(always)]
pub fn number<'a>(
    front: &'a [u8],
    precision: Option<u16>,
    value: u64,
    spelled: &'a [u8],
) -> FieldParts<'a>
    requires { length spelled.now < 2 ^ 16 }
    ensures front { result.front.now ≡ front.now }
    ensures digits { (base : ℕ) (upper : Bool) → spelled.now ≡ digits base upper value →
        replicate result.zeros 48 ++ result.body.now ≡ Digits value base upper (unwrap_or precision 1) }
{
    let least = precision.unwrap_or(1);
    if value == 0 && least == 0 {
        return FieldParts {
            front,
            zeros: 0,
            body: b"",
        };
    }
    FieldParts {
        front,
        zeros: least.saturating_sub(spelled.len() as u16),
        body: spelled,
    }
}
