//! Raw strings.

ghost use Rattle.std.specs.Prelude.{◌≡◌, ◌≤◌, ◌<◌, ℕ, List, ◌∷◌, true, false, length, MatchOption};
ghost use Rattle.source_tokens.specs.Forms.{first_passes};
ghost use Rattle.source_tokens.specs.RawStrings.{BeginsRaw, EndsRaw, IsRawPrefix, is_prefix_byte};
ghost use Rattle.source_tokens.specs.RawStrings.{is_delimiter_byte, opens_raw, delimiter_of};
ghost use Rattle.source_tokens.specs.Reading.{ReadsUnspliced};
ghost use Rattle.source_tokens.specs.Tokens.{StandsRaw};

use crate::kind::TokenKind;
use crate::plain::Standing;
use crate::splice::past_splices;
use arrayvec::ArrayVec;
use bstr::ByteSlice;

/// The most bytes of a raw string's delimiter.
const MAX_DELIMITER: usize = 16;

/// The most bytes of what ends a raw string.
const MAX_CLOSING: usize = 18;

/// The bytes behind the mark, where this prefix and a mark stand at the front.
fn past_mark<'a>(bytes: &'a [u8], prefix: &[u8]) -> Option<&'a [u8]>
    ensures { MatchOption result
        ((raw : List ℕ) → ¬ (ReadsUnspliced bytes.now prefix.now (34 ∷ raw)))
        (λ raw. ReadsUnspliced bytes.now prefix.now (34 ∷ raw.now)) }
{
    let mut rest = bytes;
    for letter in prefix {
        let [first, behind @ ..] = rest else {
            return None;
        };
        if first != letter {
            return None;
        }
        rest = past_splices(behind);
    }
    let [mark, raw @ ..] = rest else {
        return None;
    };
    if *mark != b'"' {
        return None;
    }
    Some(raw)
}

/// Whether the first byte is that of a prefix: few bytes are.
#[inline]
fn begins_prefix(bytes: &[u8]) -> bool
    ensures { result ≡ first_passes is_prefix_byte bytes.now }
{
    matches!(bytes, [b'R' | b'u' | b'U' | b'L', ..])
}

/// The bytes behind the mark, where the prefix and the mark of a raw string stand at the front.
fn past_any_mark(bytes: &[u8]) -> Option<&[u8]>
    ensures { MatchOption result
        ((prefix raw : List ℕ) → IsRawPrefix prefix → ¬ (ReadsUnspliced bytes.now prefix (34 ∷ raw)))
        (λ raw. (prefix : List ℕ) × IsRawPrefix prefix × ReadsUnspliced bytes.now prefix (34 ∷ raw.now)) }
{
    if !begins_prefix(bytes) {
        return None;
    }
    if let Some(raw) = past_mark(bytes, b"R") {
        return Some(raw);
    }
    if let Some(raw) = past_mark(bytes, b"u8R") {
        return Some(raw);
    }
    if let Some(raw) = past_mark(bytes, b"uR") {
        return Some(raw);
    }
    if let Some(raw) = past_mark(bytes, b"UR") {
        return Some(raw);
    }
    past_mark(bytes, b"LR")
}

fn is_delimiter_byte(byte: u8) -> bool
    ensures { result ≡ is_delimiter_byte byte }
{
    byte > b' ' && !matches!(byte, b'(' | b')' | b'\\' | 127)
}

/// How many bytes the delimiter has, where the bytes are those of a raw string behind its mark.
pub fn delimiter_length(raw: &[u8]) -> Option<usize>
    ensures { MatchOption result
        (opens_raw raw.now ≡ false)
        (λ len. (opens_raw raw.now ≡ true) × (len ≡ length (delimiter_of raw.now))) }
{
    for (place, byte) in raw.iter().enumerate() {
        if place > MAX_DELIMITER {
            return None;
        }
        if !is_delimiter_byte(*byte) {
            return (*byte == b'(').then_some(place);
        }
    }
    None
}

/// The end of a raw string, where the bytes stand behind its mark and its delimiter has so many bytes.
fn raw_end(raw: &[u8], len: usize) -> Standing<'_>
    requires opens { opens_raw raw.now ≡ true }
    requires len { len ≡ length (delimiter_of raw.now) }
    ensures ends { EndsRaw raw.now result.kind result.rest.now }
    ensures within { length result.rest.now ≤ length raw.now }
{
    let (delimiter, behind) = raw.split_at(len);
    let content = behind.split_at(1).1;
    let mut closing = ArrayVec::<u8, MAX_CLOSING>::new();
    closing.push(b')');
    for byte in delimiter {
        closing.push(*byte);
    }
    closing.push(b'"');
    match content.find(closing.as_slice()) {
        Some(at) => Standing {
            kind: TokenKind::RawString,
            rest: past_splices(content.split_at(at + closing.len()).1),
        },
        None => Standing {
            kind: TokenKind::BrokenRawString,
            rest: content.split_at(content.len()).1,
        },
    }
}

/// The raw string that stands at the front.
pub(crate) fn raw_string(bytes: &[u8]) -> Option<Standing<'_>>
    ensures { MatchOption result
        ((raw : List ℕ) → ¬ (BeginsRaw bytes.now raw))
        (λ end. StandsRaw bytes.now end.kind end.rest.now × (length end.rest.now < length bytes.now)) }
{
    let raw = past_any_mark(bytes)?;
    let len = delimiter_length(raw)?;
    Some(raw_end(raw, len))
}
