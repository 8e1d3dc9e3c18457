//! Each conversion's text.

ghost use Rattle.std.specs.Prelude.{◌≡◌, ◌++◌, [], OnOk, OnErr, take, vec_len, replicate};
ghost use Rattle.printf_grammar.specs.Types.{argument_value, text_of};
ghost use Rattle.direct_printf.specs.Fields.{padded, converted, signed_of, unsigned_of, wrap_signed, wrap_unsigned, sign_of, signed_number, unsigned_number, octal_front, octal_number, hexadecimal_front, hexadecimal_number, pointer, cut};

use crate::digits::{MAX_DIGITS, number, write_digits};
use crate::padding::{FieldParts, Padding, append_padded};
use itoa::Buffer;
use printf_grammar::{Arg, Conversion, Length, Spec};
use std::alloc::AllocError;

/// Appends a converted argument, padded. The precision is that of an argument where a `*` stands
/// for it.
#[inline(always)]
pub fn append_converted(
    spec: &Spec,
    padding: Padding,
    precision: Option<u16>,
    arg: Arg<'_>,
    out: &mut Vec<u8>,
) -> Result<(), AllocError>
    ensures ok { OnOk result (out.new.items ≡ out.old.items ++ padded padding.left padding.zeros padding.width
        (converted spec.now.conversion spec.now precision (argument_value arg.entry))) }
    ensures err { OnErr result (take (vec_len out.old) out.new.items ≡ out.old.items) }
{
    match spec.conversion {
        Conversion::D | Conversion::I => {
            let value = wrapped_signed(spec.length, signed(arg));
            append_signed(spec, padding, precision, value, out)
        }
        Conversion::U => {
            let value = wrapped_unsigned(spec.length, unsigned(arg));
            append_unsigned(padding, precision, value, out)
        }
        Conversion::O => {
            let value = wrapped_unsigned(spec.length, unsigned(arg));
            append_octal(spec.sharp, padding, precision, value, out)
        }
        Conversion::X => {
            let value = wrapped_unsigned(spec.length, unsigned(arg));
            append_hexadecimal(spec.sharp, false, padding, precision, value, out)
        }
        Conversion::UpperX => {
            let value = wrapped_unsigned(spec.length, unsigned(arg));
            append_hexadecimal(spec.sharp, true, padding, precision, value, out)
        }
        Conversion::C => append_bytes(padding, &[signed(arg).rem_euclid(1 << 8) as u8], out),
        Conversion::S => append_bytes(padding, shortened(precision, text(arg)), out),
        Conversion::P => append_pointer(padding, unsigned(arg), out),
    }
}

/// A signed argument; 0 for one of another kind.
pub fn signed(arg: Arg<'_>) -> i64
    ensures { result ≡ signed_of (argument_value arg.entry) }
{
    match arg {
        Arg::Signed(number) => number,
        Arg::Unsigned(_) | Arg::Text(_) => 0,
    }
}

fn unsigned(arg: Arg<'_>) -> u64
    ensures { result ≡ unsigned_of (argument_value arg.entry) }
{
    match arg {
        Arg::Unsigned(number) => number,
        Arg::Signed(_) | Arg::Text(_) => 0,
    }
}

fn text<'a>(arg: Arg<'a>) -> &'a [u8]
    ensures { result.now ≡ text_of (argument_value arg.entry) }
{
    match arg {
        Arg::Text(bytes) => bytes,
        Arg::Signed(_) | Arg::Unsigned(_) => b"",
    }
}

// To 8 bits with `hh` and to 16 with `h`, in two's complement.
fn wrapped_signed(length: Length, value: i64) -> i64
    ensures { result ≡ wrap_signed length value }
{
    match length {
        Length::HH => (value.rem_euclid(1 << 8) as u8).cast_signed() as i64,
        Length::H => (value.rem_euclid(1 << 16) as u16).cast_signed() as i64,
        _ => value,
    }
}

fn wrapped_unsigned(length: Length, value: u64) -> u64
    ensures { result ≡ wrap_unsigned length value }
{
    match length {
        Length::HH => value % (1 << 8),
        Length::H => value % (1 << 16),
        _ => value,
    }
}

#[inline(always)]
fn append_signed(
    spec: &Spec,
    padding: Padding,
    precision: Option<u16>,
    value: i64,
    out: &mut Vec<u8>,
) -> Result<(), AllocError>
    ensures ok { OnOk result (out.new.items ≡ out.old.items ++ padded padding.left padding.zeros padding.width
        (signed_number spec.now precision value)) }
    ensures err { OnErr result (take (vec_len out.old) out.new.items ≡ out.old.items) }
{
    let mut buffer = Buffer::new();
    if padding.width == 0 && precision.is_none() && !spec.plus && !spec.space {
        return out.extend_from_slice(buffer.format(value).as_bytes());
    }
    let magnitude = value.unsigned_abs();
    let spelled = buffer.format(magnitude).as_bytes();
    let parts = number(sign(spec, value), precision, magnitude, spelled);
    append_padded(padding, parts, out)
}

fn sign(spec: &Spec, value: i64) -> &'static [u8]
    ensures { result.now ≡ sign_of spec.now value }
{
    if value < 0 {
        b"-"
    } else if spec.plus {
        b"+"
    } else if spec.space {
        b" "
    } else {
        b""
    }
}

#[inline(always)]
fn append_unsigned(
    padding: Padding,
    precision: Option<u16>,
    value: u64,
    out: &mut Vec<u8>,
) -> Result<(), AllocError>
    ensures ok { OnOk result (out.new.items ≡ out.old.items ++ padded padding.left padding.zeros padding.width
        (unsigned_number precision value)) }
    ensures err { OnErr result (take (vec_len out.old) out.new.items ≡ out.old.items) }
{
    let mut buffer = Buffer::new();
    let spelled = buffer.format(value).as_bytes();
    if padding.width == 0 && precision.is_none() {
        return out.extend_from_slice(spelled);
    }
    append_padded(padding, number(b"", precision, value, spelled), out)
}

fn append_octal(
    sharp: bool,
    padding: Padding,
    precision: Option<u16>,
    value: u64,
    out: &mut Vec<u8>,
) -> Result<(), AllocError>
    ensures ok { OnOk result (out.new.items ≡ out.old.items ++ padded padding.left padding.zeros padding.width
        (octal_number sharp precision value)) }
    ensures err { OnErr result (take (vec_len out.old) out.new.items ≡ out.old.items) }
{
    let mut buffer = [0; MAX_DIGITS];
    let start = write_digits(value, 8, false, &mut buffer);
    let digits = number(b"", precision, value, &buffer[start..]);
    let front = octal_prefix(sharp, digits);
    append_padded(padding, FieldParts { front, ..digits }, out)
}

// One `0` where the digits do not begin with one.
fn octal_prefix(sharp: bool, digits: FieldParts<'_>) -> &'static [u8]
    ensures { result.now ≡ octal_front sharp (replicate digits.entry.zeros 48 ++ digits.entry.body.now) }
{
    if sharp && digits.zeros == 0 && digits.body.first() != Some(&b'0') {
        b"0"
    } else {
        b""
    }
}

fn append_hexadecimal(
    sharp: bool,
    upper: bool,
    padding: Padding,
    precision: Option<u16>,
    value: u64,
    out: &mut Vec<u8>,
) -> Result<(), AllocError>
    ensures ok { OnOk result (out.new.items ≡ out.old.items ++ padded padding.left padding.zeros padding.width
        (hexadecimal_number sharp upper precision value)) }
    ensures err { OnErr result (take (vec_len out.old) out.new.items ≡ out.old.items) }
{
    let mut buffer = [0; MAX_DIGITS];
    let start = write_digits(value, 16, upper, &mut buffer);
    let front = hexadecimal_prefix(sharp, upper, value);
    append_padded(
        padding,
        number(front, precision, value, &buffer[start..]),
        out,
    )
}

fn hexadecimal_prefix(sharp: bool, upper: bool, value: u64) -> &'static [u8]
    ensures { result.now ≡ hexadecimal_front sharp upper value }
{
    if !sharp || value == 0 {
        b""
    } else if upper {
        b"0X"
    } else {
        b"0x"
    }
}

fn append_pointer(padding: Padding, value: u64, out: &mut Vec<u8>) -> Result<(), AllocError>
    ensures ok { OnOk result (out.new.items ≡ out.old.items ++ padded padding.left padding.zeros padding.width
        (pointer value)) }
    ensures err { OnErr result (take (vec_len out.old) out.new.items ≡ out.old.items) }
{
    if value == 0 {
        append_bytes(padding, b"(nil)", out)
    } else {
        append_hexadecimal(true, false, padding, None, value, out)
    }
}

#[inline(always)]
fn append_bytes(padding: Padding, bytes: &[u8], out: &mut Vec<u8>) -> Result<(), AllocError>
    ensures ok { OnOk result (out.new.items ≡ out.old.items ++ padded padding.left padding.zeros padding.width
        (record { front = []; body = bytes.now })) }
    ensures err { OnErr result (take (vec_len out.old) out.new.items ≡ out.old.items) }
{
    if padding.width == 0 {
        return out.extend_from_slice(bytes);
    }
    let parts = FieldParts {
        front: b"",
        zeros: 0,
        body: bytes,
    };
    append_padded(padding, parts, out)
}

// At most as many bytes as the precision says.
fn shortened(precision: Option<u16>, text: &[u8]) -> &[u8]
    ensures { result.now ≡ cut precision text.now }
{
    match precision {
        Some(most) if (most as usize) < text.len() => &text[..most as usize],
        _ => text,
    }
}
