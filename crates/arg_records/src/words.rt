//! The words of one argument.

ghost use Rattle.std.specs.Prelude.{◌≡◌, ◌+◌, ◌/◌, ◌^◌, ◌<◌, ◌≤◌, length, All};
ghost use Rattle.printf_grammar.specs.declared.argument.Value.TheVariants.{Text as TextValue};
ghost use Rattle.printf_grammar.specs.Types.{argument_value};
ghost use Rattle.nibble_pack.specs.Bytes.{number_of_bytes};
ghost use Rattle.arg_records.specs.Frames.{words_of_bytes, words_of_text, words_of_argument, argument_words};
ghost use Rattle.arg_records.specs.Kinds.{HoldsBytes};
ghost use Rattle.arg_records.specs.Places.{with_words};

use crate::frame::MAX_FRAME_WORDS;
use printf_grammar::Arg;

/// How many words a text of so many bytes takes in a frame, the word of its length among them.
pub fn text_words(len: usize) -> u64
    ensures { result ≡ words_of_text len }
{
    1 + (len as u64).div_ceil(8)
}

/// How many words an argument takes.
#[inline(always)]
pub(crate) fn word_count(arg: Arg) -> u64
    ensures { result ≡ argument_words (argument_value arg.entry) }
{
    match arg {
        Arg::Signed(_) | Arg::Unsigned(_) => 1,
        Arg::Text(text) => text_words(text.len()),
    }
}

/// The word of fewer than eight bytes, filled up with zeros.
fn last_word(bytes: &[u8]) -> u64
    requires { length bytes.now < 8 }
    ensures { result ≡ number_of_bytes bytes.now }
{
    // It is put together in a register: a load would wait for a copy of the bytes into eight.
    let mut word = 0;
    let mut at = bytes.len();
    while at > 0 {
        at -= 1;
        word = word * 256 + u64::from(bytes[at]);
    }
    word
}

/// Writes bytes as words from a place on. It answers the place behind them.
fn put_bytes(bytes: &[u8], into: &mut [u64; MAX_FRAME_WORDS], at: usize) -> usize
    requires { at + (length bytes.now + 7) / 8 ≤ MAX_FRAME_WORDS }
    ensures written { into.new ≡ with_words into.old at (words_of_bytes bytes.now) }
    ensures end { result ≡ at + (length bytes.now + 7) / 8 }
{
    let mut rest = bytes;
    let mut end = at;
    while let Some((front, back)) = rest.split_first_chunk::<8>() {
        into[end] = u64::from_le_bytes(*front);
        end += 1;
        rest = back;
    }
    if rest.is_empty() {
        return end;
    }
    into[end] = last_word(rest);
    end + 1
}

/// Writes a text's length and its bytes from a place on. It answers the place behind them.
fn put_text(text: &[u8], into: &mut [u64; MAX_FRAME_WORDS], at: usize) -> usize
    requires { at + argument_words (TextValue text.now) ≤ MAX_FRAME_WORDS }
    ensures written { into.new ≡ with_words into.old at (words_of_argument (TextValue text.now)) }
    ensures end { result ≡ at + argument_words (TextValue text.now) }
    ensures bytes { All (λ byte. byte < 256) text.now }
{
    into[at] = text.len() as u64;
    put_bytes(text, into, at + 1)
}

/// Writes an argument's words from a place on. It answers the place behind them.
#[inline(always)]
pub(crate) fn put_argument(arg: Arg, into: &mut [u64; MAX_FRAME_WORDS], at: usize) -> usize
    requires { at + argument_words (argument_value arg) ≤ MAX_FRAME_WORDS }
    ensures written { into.new ≡ with_words into.old at (words_of_argument (argument_value arg.entry)) }
    ensures end { result ≡ at + argument_words (argument_value arg.entry) }
    ensures bytes { HoldsBytes (argument_value arg.entry) }
{
    match arg {
        Arg::Signed(number) => {
            into[at] = number.cast_unsigned();
            at + 1
        }
        Arg::Unsigned(number) => {
            into[at] = number;
            at + 1
        }
        Arg::Text(text) => put_text(text, into, at),
    }
}

/// Writes an argument's words from a place on, unless they would go beyond a frame's. It answers the place behind them.
#[inline(always)]
pub(crate) fn put_within(arg: Arg, into: &mut [u64; MAX_FRAME_WORDS], at: u64) -> u64
    requires { at + argument_words (argument_value arg) < 2 ^ 64 }
    ensures written { result ≤ MAX_FRAME_WORDS
        → into.new ≡ with_words into.old at (words_of_argument (argument_value arg.entry)) }
    ensures end { result ≡ at + argument_words (argument_value arg.entry) }
    ensures bytes { result ≤ MAX_FRAME_WORDS → HoldsBytes (argument_value arg.entry) }
{
    let end = at + word_count(arg);
    if end <= MAX_FRAME_WORDS as u64 {
        put_argument(arg, into, at as usize);
    }
    end
}
