//! Texts in quotation marks.

ghost use Rattle.std.specs.Prelude.{◌≡◌, ◌≢◌, ◌⊎◌, ℕ, ◌<◌, ◌≤◌, true, false, List, [], ◌∷◌, ◌++◌, length, slice_index, IfOk, IfSome, IfNone, MatchOption, None};
ghost use Rattle.std.specs.List.{list_all};
ghost use Rattle.std.specs.Option.{option_map};
ghost use Rattle.log_dictionary.specs.Texts.{text_at, is_plain, has_nul, hexadecimal_of, unit_from, text_from, unescaped};
ghost use Rattle.log_dictionary.specs.TextRuns.{ends_run, EndsRun, IsRun, IsEscapedRun, BeginsNoText};
ghost use Rattle.log_dictionary.specs.Texts.TextPlace.{outside, behind_backslash, behind_x};

use bstr::ByteSlice;
use printf_grammar::Bytes;
use std::alloc::{AllocError, Global};
use std::marker::Model;

/// A text that stands in quotation marks somewhere, and isn't copied. Contracts see the bytes that
/// it stands for.
#[derive(Debug, Drop)]
pub struct SpelledText<'a> {
    spelled: &'a [u8],
    len: usize,
    has_nul: bool,
}

impl<'a> Model for SpelledText<'a> {
    ghost use Rattle.std.specs.Prelude.{List, ℕ};
    ghost use Rattle.log_dictionary.specs.Texts.{unescaped, IsSpelled};

    ghost Value = { List ℕ };

    ghost view = { λ text. unescaped text.spelled.now };

    ghost invariant = { λ text. IsSpelled text.spelled.now text.len text.has_nul };
}

fn is_plain(byte: u8) -> bool
    ensures { result ≡ is_plain byte }
{
    byte >= 0x80 || (byte >= 0x20 && byte <= 0x7e && byte != b'"' && byte != b'\\')
}

fn hexadecimal_of(digit: u8) -> Option<u8>
    ensures { result ≡ hexadecimal_of digit }
{
    match digit {
        b'0'..=b'9' => Some(digit - b'0'),
        b'a'..=b'f' => Some(digit - b'a' + 10),
        b'A'..=b'F' => Some(digit - b'A' + 10),
        _ => None,
    }
}

// The byte of two hexadecimal digits, and what follows them.
#[tactic(auto, unfolding(crate::specs::Texts::unit_from))]
fn split_digits(bytes: &[u8]) -> Option<(u8, &[u8])>
    ensures { option_map (λ found. (found.0, found.1.now)) result ≡ unit_from behind_x bytes.now }
{
    let [high, low, rest @ ..] = bytes else {
        return None;
    };
    let high = hexadecimal_of(*high)?;
    let low = hexadecimal_of(*low)?;
    Some((16 * high + low, rest))
}

// What an escape stands for, from behind its backslash, and what follows it.
#[tactic(auto, unfolding(crate::specs::Texts::unit_from))]
fn split_escape(bytes: &[u8]) -> Option<(u8, &[u8])>
    ensures { option_map (λ found. (found.0, found.1.now)) result ≡ unit_from behind_backslash bytes.now }
{
    match bytes {
        [b'"', rest @ ..] => Some((b'"', rest)),
        [b'\\', rest @ ..] => Some((b'\\', rest)),
        [b'n', rest @ ..] => Some((b'\n', rest)),
        [b't', rest @ ..] => Some((b'\t', rest)),
        [b'x', rest @ ..] => split_digits(rest),
        _ => None,
    }
}

// What follows the byte, where it stands first.
fn after_byte(bytes: &[u8], byte: u8) -> Option<&[u8]>
    ensures { MatchOption result
        ((rest : List ℕ) → bytes.now ≢ byte ∷ rest)
        (λ rest. bytes.now ≡ byte ∷ rest.now) }
{
    match bytes {
        [first, rest @ ..] if *first == byte => Some(rest),
        _ => None,
    }
}

// The number of bytes before the first quotation mark or backslash.
fn run_len(bytes: &[u8]) -> usize
    ensures within { result ≤ length bytes.now }
    ensures before { (k : ℕ) → k < result → ends_run (slice_index bytes.now k) ≡ false }
    ensures end { result < length bytes.now → ends_run (slice_index bytes.now result) ≡ true }
{
    match bytes.find_byteset(b"\"\\") {
        Some(at) => at,
        None => bytes.len(),
    }
}

fn are_plain(bytes: &[u8]) -> bool
    ensures { result ≡ list_all is_plain bytes.now }
{
    bytes.iter().all(|byte| is_plain(*byte))
}

// The run that the bytes begin with, and what follows it.
fn split_run(bytes: &[u8]) -> Option<(&[u8], &[u8])>
    ensures some { IfSome result (λ parts. IsRun bytes.now parts.0.now parts.1.now) }
    ensures none { IfNone result (BeginsNoText bytes.now) }
{
    let (run, rest) = bytes.split_at(run_len(bytes));
    if are_plain(run) {
        return Some((run, rest));
    }
    None
}

// The byte of the escape that stands first, the run behind it, and what follows that.
fn split_escaped_run(bytes: &[u8]) -> Option<(u8, &[u8], &[u8])>
    requires { EndsRun bytes.now }
    ensures some { IfSome result (λ parts. IsEscapedRun bytes.now parts.0 parts.1.now parts.2.now) }
    ensures none { IfNone result ((unit_from outside bytes.now ≡ None) ⊎ BeginsNoText bytes.now) }
{
    let escape = after_byte(bytes, b'\\')?;
    let (byte, behind) = split_escape(escape)?;
    let (run, rest) = split_run(behind)?;
    Some((byte, run, rest))
}

// The bytes that a text's spelling stands for, of which there are so many.
fn unescape(alloc: Global, spelled: &[u8], len: usize) -> Result<Bytes, AllocError>
    requires { text_from outside (spelled.now ++ 34 ∷ []) ≡ Some (unescaped spelled.now, []) }
    ensures { IfOk result (λ bytes. bytes ≡ unescaped spelled.now) }
{
    let mut bytes = Bytes::with_capacity(alloc, len)?;
    let Some((run, mut rest)) = split_run(spelled) else {
        return Ok(bytes);
    };
    bytes.extend_from_slice(run)?;
    while let Some((byte, run, after)) = split_escaped_run(rest) {
        bytes.push(byte)?;
        bytes.extend_from_slice(run)?;
        rest = after;
    }
    Ok(bytes)
}

// A text from behind its opening mark, and the bytes behind its closing mark.
fn split_body(body: &[u8]) -> Option<(SpelledText<'_>, &[u8])>
    ensures { option_map (λ found. (found.0, found.1.now)) result ≡ text_from outside body.now }
{
    let (run, mut rest) = split_run(body)?;
    let mut len = run.len();
    let mut has_nul = false;
    while let Some((byte, run, after)) = split_escaped_run(rest) {
        len += 1 + run.len();
        has_nul |= byte == 0;
        rest = after;
    }
    let Some(after) = after_byte(rest, b'"') else {
        return None;
    };
    let spelled = &body[..body.len() - rest.len()];
    let text = SpelledText {
        spelled,
        len,
        has_nul,
    };
    Some((text, after))
}

/// The text that the bytes begin with, and the bytes behind its closing mark.
pub fn split_text(bytes: &[u8]) -> Option<(SpelledText<'_>, &[u8])>
    ensures { option_map (λ found. (found.0, found.1.now)) result ≡ text_at bytes.now }
{
    match after_byte(bytes, b'"') {
        Some(body) => split_body(body),
        None => None,
    }
}

impl SpelledText<'_> {
    /// The number of bytes.
    pub fn len(&self) -> usize
        ensures { result ≡ length self.now }
    {
        self.len
    }

    /// Whether a byte 0 is among them.
    pub fn has_nul(&self) -> bool
        ensures { result ≡ has_nul self.now }
    {
        self.has_nul
    }

    /// A copy of the bytes.
    pub fn to_bytes(&self, alloc: Global) -> Result<Bytes, AllocError>
        ensures { IfOk result (λ bytes. bytes ≡ self.now) }
    {
        unescape(alloc, self.spelled, self.len)
    }
}
