//! The words of one argument, as a frame has them.

ghost use Rattle.std.specs.Prelude.{◌≡◌, ℕ, ◌+◌, ◌*◌, ◌<◌, ◌≤◌, List, ◌∷◌, length, take};
ghost use Rattle.printf_grammar.specs.declared.argument.Value.{Value};
ghost use Rattle.printf_grammar.specs.Types.{FitsType, text_of};
ghost use Rattle.arg_records.specs.Frames.{words_of_argument};
ghost use Rattle.arg_records.specs.Kinds.{HoldsBytes};
ghost use Rattle.arg_records.specs.Places.{with_words};
ghost use Rattle.nibble_pack.specs.Packing as packing;
ghost use Rattle.buffer_extent.specs.Records.{kind_of, packed_value};
ghost use Rattle.buffer_extent.specs.Writing.{BeginsWithWords, HasItsBytes, PutsNumber};
ghost use Rattle.arg_records.specs.Reading.{bytes_of_words};

use crate::eight::{put_front, put_packed};
use arg_records::text_words;
use nibble_pack::{Packed, pack_signed, pack_unsigned};
use printf_grammar::ArgType;

/// The bytes of a word.
const WORD_BYTES: usize = 8;

/// The words of the argument at the front, which is of the type, and those behind it.
pub(crate) fn split_argument(kind: ArgType, words: &[u64]) -> (&[u64], &[u64])
    requires { (value : Value) × (more : List ℕ) × BeginsWithWords kind words.now value more }
    ensures { (value : Value) (more : List ℕ) → BeginsWithWords kind words.now value more
        → (result.0.now ≡ words_of_argument value) × (result.1.now ≡ more) }
{
    match kind {
        ArgType::Text => words.split_at(text_words(words[0] as usize) as usize),
        _ => words.split_at(1),
    }
}

/// The number of an argument of the type, whose first word this is.
fn pack_word(kind: ArgType, word: u64) -> Packed
    ensures packs { (value : Value) (more : List ℕ) → FitsType value kind → words_of_argument value ≡ word ∷ more
        → packing.Packed (kind_of kind) (packed_value value) result.code (take result.len result.bytes) }
    ensures code { result.code < 16 }
    ensures whole { HasItsBytes result }
{
    match kind {
        ArgType::UInt | ArgType::ULong | ArgType::Text => pack_unsigned(word),
        _ => pack_signed(word.cast_signed()),
    }
}

/// Writes the bytes of the number of the argument at the front of words, which is of the type. It answers the code, the
/// words behind the argument, and the place behind the bytes.
pub(crate) fn put_number<'a>(
    kind: ArgType,
    words: &'a [u64],
    body: &mut [u8],
    at: usize,
) -> (u8, &'a [u64], usize)
    requires words { (value : Value) × (more : List ℕ) × BeginsWithWords kind words.now value more }
    requires room { at + 8 ≤ length body.old }
    ensures written { (value : Value) (more : List ℕ) → BeginsWithWords kind words.now value more
        → PutsNumber kind value body.old at result.0 body.new result.2 × (result.1.now ≡ more) }
    ensures code { result.0 < 16 }
    ensures bound { (at ≤ result.2) × (result.2 ≤ at + 8) }
{
    let (argument, more) = split_argument(kind, words);
    let number = pack_word(kind, argument[0]);
    let end = put_packed(&number, body, at);
    (number.code, more, end)
}

/// Writes the first `len` bytes of words, and answers the place behind them.
fn put_words(words: &[u64], len: usize, body: &mut [u8], at: usize) -> usize
    requires len { len ≤ 8 * length words.now }
    requires room { at + len + 8 ≤ length body.old }
    ensures written { body.new ≡ with_words body.old at (take len (bytes_of_words words.now)) }
    ensures end { result ≡ at + len }
{
    let mut end = at;
    let mut left = len;
    for word in words {
        let count = left.min(WORD_BYTES);
        end = put_front(*word, count, body, end);
        left -= count;
    }
    end
}

/// Writes the text of the argument whose words these are, and answers the place behind it; nothing for an integer.
pub(crate) fn put_argument_text(kind: ArgType, words: &[u64], body: &mut [u8], at: usize) -> usize
    requires { (value : Value) × FitsType value kind × HoldsBytes value × (words.now ≡ words_of_argument value)
        × (at + length (text_of value) + 8 ≤ length body.old) }
    ensures written { (value : Value) → FitsType value kind → HoldsBytes value → words.now ≡ words_of_argument value
        → body.new ≡ with_words body.old at (text_of value) }
    ensures end { (value : Value) → FitsType value kind → words.now ≡ words_of_argument value
        → result ≡ at + length (text_of value) }
{
    match kind {
        ArgType::Text => put_words(&words[1..], words[0] as usize, body, at),
        _ => at,
    }
}
