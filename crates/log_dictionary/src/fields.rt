//! Fields of lines.

ghost use Rattle.std.specs.Prelude.{◌≡◌, ◌≢◌, ℕ, ◌<◌, ◌≤◌, length, slice_index, All, IfSome, IfNone};
ghost use Rattle.std.specs.Option.{option_map};
ghost use Rattle.log_dictionary.specs.Fields.{IsFirstSplit, split_at_first, first_field, ends_field};

use bstr::ByteSlice;

fn part(bytes: &[u8], separator: u8) -> Option<(&[u8], &[u8])>
    ensures some { IfSome result (λ parts. IsFirstSplit separator bytes.now parts.0.now parts.1.now) }
    ensures none { IfNone result (All (λ byte. byte ≢ separator) bytes.now) }
{
    let at = bytes.find_byte(separator)?;
    Some((&bytes[..at], &bytes[at + 1..]))
}

/// The bytes before the first separator, and those after it.
pub fn split_at_byte(bytes: &[u8], separator: u8) -> Option<(&[u8], &[u8])>
    ensures value { option_map (λ parts. (parts.0.now, parts.1.now)) result ≡ split_at_first separator bytes.now }
    ensures some { IfSome result (λ parts. IsFirstSplit separator bytes.now parts.0.now parts.1.now) }
    ensures none { IfNone result (All (λ byte. byte ≢ separator) bytes.now) }
{
    part(bytes, separator)
}

// The number of bytes before the first space.
fn field_len(bytes: &[u8]) -> usize
    ensures within { result ≤ length bytes.now }
    ensures before { (k : ℕ) → k < result → slice_index bytes.now k ≢ 32 }
    ensures space { result < length bytes.now → slice_index bytes.now result ≡ 32 }
{
    match bytes.find_byte(b' ') {
        Some(at) => at,
        None => bytes.len(),
    }
}

/// The bytes before the first space, and the rest from that space on. Where there is no space, all
/// bytes, and none.
pub fn first_field(bytes: &[u8]) -> (&[u8], &[u8])
    ensures { (result.0.now, result.1.now) ≡ first_field bytes.now }
{
    bytes.split_at(field_len(bytes))
}

/// Whether a field ends before these bytes: before none, or before a space and more.
pub fn ends_field(rest: &[u8]) -> bool
    ensures { result ≡ ends_field rest.now }
{
    match rest {
        [] => true,
        [byte, ..] => *byte == b' ',
    }
}
