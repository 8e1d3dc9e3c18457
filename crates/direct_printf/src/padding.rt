//! Brings a converted value to the width of its field.

ghost use Rattle.std.specs.Prelude.{◌≡◌, ◌<◌, ◌+◌, ◌^◌, ◌++◌, OnOk, OnErr, replicate, take, vec_len};
ghost use Rattle.direct_printf.specs.Fields.{padded};

use std::alloc::AllocError;

/// What a field does where its text is shorter than its width.
#[derive(Clone, Copy)]
pub struct Padding {
    pub width: u16,
    /// Spaces follow the text.
    pub left: bool,
    /// Zeros stand behind the sign or the prefix, unless spaces follow.
    pub zeros: bool,
}

/// That of a field without a width.
pub const NO_PADDING: Padding = Padding {
    width: 0,
    left: false,
    zeros: false,
};

/// A converted value before it is padded.
#[derive(Clone, Copy)]
pub struct FieldParts<'a> {
    /// The sign or the prefix.
    pub front: &'a [u8],
    /// How many zeros the precision puts before the digits.
    pub zeros: u16,
    /// The digits, or the bytes of a character or of a text.
    pub body: &'a [u8],
}

// After an error a part may stand behind what was there, here and below.
#[inline(always)]
pub fn append_padded(
    padding: Padding,
    parts: FieldParts<'_>,
    out: &mut Vec<u8>,
) -> Result<(), AllocError>
    ensures ok { OnOk result (out.new.items ≡ out.old.items ++ padded padding.left padding.zeros padding.width
        (record { front = parts.entry.front.now; body = replicate parts.entry.zeros 48 ++ parts.entry.body.now })) }
    ensures err { OnErr result (take (vec_len out.old) out.new.items ≡ out.old.items) }
{
    let missing = (padding.width as usize)
        .saturating_sub(parts.front.len())
        .saturating_sub(parts.zeros as usize)
        .saturating_sub(parts.body.len());
    if missing == 0 {
        return append_parts(parts, 0, out);
    }
    if padding.left {
        append_parts(parts, 0, out)?;
        append_run(b' ', missing, out)
    } else if padding.zeros {
        append_parts(parts, missing, out)
    } else {
        append_run(b' ', missing, out)?;
        append_parts(parts, 0, out)
    }
}

// With some more zeros behind the front.
#[inline(always)]
fn append_parts(parts: FieldParts<'_>, more: usize, out: &mut Vec<u8>) -> Result<(), AllocError>
    requires { more < 2 ^ 16 }
    ensures ok { OnOk result (out.new.items
        ≡ out.old.items ++ (parts.entry.front.now ++ replicate (more + parts.entry.zeros) 48 ++ parts.entry.body.now)) }
    ensures err { OnErr result (take (vec_len out.old) out.new.items ≡ out.old.items) }
{
    append_front(parts.front, out)?;
    append_run(b'0', more + parts.zeros as usize, out)?;
    out.extend_from_slice(parts.body)
}

// Most fields have none.
#[inline(always)]
fn append_front(front: &[u8], out: &mut Vec<u8>) -> Result<(), AllocError>
    ensures ok { OnOk result (out.new.items ≡ out.old.items ++ front.now) }
    ensures err { OnErr result (out.new.items ≡ out.old.items) }
{
    if front.is_empty() {
        return Ok(());
    }
    out.extend_from_slice(front)
}

#[inline(always)]
fn append_run(byte: u8, count: usize, out: &mut Vec<u8>) -> Result<(), AllocError>
    requires { count < 2 ^ 17 }
    ensures ok { OnOk result (out.new.items ≡ out.old.items ++ replicate count byte) }
    ensures err { OnErr result (out.new.items ≡ out.old.items) }
{
    if count == 0 {
        return Ok(());
    }
    out.resize(out.len() + count, byte)
}
