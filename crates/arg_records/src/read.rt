//! Reading the arguments of a frame.

ghost use Rattle.std.specs.Prelude.{◌≡◌, ◌≢◌, ◌↔◌, ◌≤◌, ℕ, List, [], ◌∷◌, length, take, IsTrue, IsOk, IfOk, MatchOption, MatchResult, Err};
ghost use Rattle.std.specs.Int.{w64, to_le_bytes};
ghost use Rattle.printf_grammar.specs.declared.limits.TheConstants.{MAX_ARGUMENTS};
ghost use Rattle.printf_grammar.specs.declared.arg_type.ArgType.TheVariants.{Text as TextType};
ghost use Rattle.printf_grammar.specs.declared.argument.Value.{Value as ArgValue};
ghost use Rattle.printf_grammar.specs.declared.argument.Value.TheVariants.{Text as TextValue};
ghost use Rattle.arg_records.specs.Frames.{words_of_argument};
ghost use Rattle.arg_records.specs.Kinds.{arg_kind, type_kind, IsArgument};
ghost use Rattle.arg_records.specs.Reading.{IsFrameOf, SpellsArguments, BeginsWithWordsOf, IsPadded, bytes_of_words};

use crate::frame::MAX_FRAME_WORDS;
use log_dictionary::MAX_MESSAGES;
use printf_grammar::{ArgType, Argument, Bytes, MAX_TEXT, Value, Values};
use std::alloc::{AllocError, Global};

/// The bytes of a word.
const WORD_BYTES: usize = 8;

/// The words of a frame in front of its arguments.
const HEAD_WORDS: usize = 2;

/// Why words gave no arguments.
#[derive(Clone, Copy, Debug, PartialEq, Eq)]
pub enum FrameFault {
    /// They are the frame of no arguments that fit the types.
    Broken,
    NoMemory,
}

/// Whether so many bytes of a word, the lowest ones, aren't 0, and all others are.
fn is_text_word(word: u64, count: usize) -> bool
    requires { count ≤ WORD_BYTES }
    ensures { IsTrue result ↔ IsPadded count (to_le_bytes w64 word) }
{
    let bytes = word.to_le_bytes();
    let (text, zeros) = bytes.split_at(count);
    text.iter().all(|byte| *byte != 0) && zeros.iter().all(|byte| *byte == 0)
}

/// Whether words are a text of so many bytes, with zeros behind it.
fn holds_text(words: &[u64], len: usize) -> bool
    ensures { IsTrue result ↔ IsPadded len (bytes_of_words words.now) }
{
    let mut left = len;
    for word in words {
        let count = left.min(WORD_BYTES);
        if !is_text_word(*word, count) {
            return false;
        }
        left -= count;
    }
    true
}

/// The words behind the text that words begin with, if they begin with one.
fn behind_text(words: &[u64]) -> Option<&[u64]>
    ensures { MatchOption result
        ((value : ArgValue) (back : List ℕ) → ¬ (BeginsWithWordsOf TextType words.now value back))
        (λ back. (value : ArgValue) × BeginsWithWordsOf TextType words.now value back.now) }
{
    let (first, rest) = words.split_first()?;
    if *first > MAX_TEXT as u64 {
        return None;
    }
    let len = *first as usize;
    let count = len.div_ceil(WORD_BYTES);
    if rest.len() < count {
        return None;
    }
    let (text, back) = rest.split_at(count);
    if !holds_text(text, len) {
        return None;
    }
    Some(back)
}

/// The integer of the type that a word is.
fn integer(kind: ArgType, word: u64) -> Value
    requires { kind ≢ TextType }
    ensures kind { arg_kind result ≡ type_kind kind }
    ensures word { words_of_argument result ≡ word ∷ [] }
    ensures fits { IsArgument result }
{
    match kind {
        ArgType::UInt | ArgType::ULong => Value::Unsigned(word),
        _ => Value::Signed(word.cast_signed()),
    }
}

/// The words behind the argument of the type that words begin with, if they begin with one.
fn behind_argument(kind: ArgType, words: &[u64]) -> Option<&[u64]>
    ensures { MatchOption result
        ((value : ArgValue) (back : List ℕ) → ¬ (BeginsWithWordsOf kind words.now value back))
        (λ back. (value : ArgValue) × BeginsWithWordsOf kind words.now value back.now) }
{
    if kind == ArgType::Text {
        return behind_text(words);
    }
    let (word, back) = words.split_first()?;
    if !kind.takes(integer(kind, *word).arg()) {
        return None;
    }
    Some(back)
}

/// Whether words are those of arguments that fit the types, and no more.
fn are_arguments(types: &[ArgType], words: &[u64]) -> bool
    ensures { IsTrue result ↔ ((args : List ArgValue) × SpellsArguments types.now args words.now) }
{
    let mut rest = words;
    for kind in types {
        let Some(back) = behind_argument(*kind, rest) else {
            return false;
        };
        rest = back;
    }
    rest.is_empty()
}

/// Whether words are the frame of arguments that fit the types.
fn is_frame(frame: &[u64], types: &[ArgType]) -> bool
    requires { length types.now ≤ MAX_ARGUMENTS }
    ensures { IsTrue result ↔ ((args : List ArgValue) × IsFrameOf types.now args frame.now) }
{
    if frame.len() < HEAD_WORDS || frame.len() > MAX_FRAME_WORDS {
        return false;
    }
    let id = frame[0] / 65536;
    let len = frame[0] % 65536;
    if id >= MAX_MESSAGES as u64 || len != frame.len() as u64 {
        return false;
    }
    are_arguments(types, &frame[HEAD_WORDS..])
}

/// The first bytes of words, so many of them.
fn copy_text(alloc: Global, words: &[u64], len: usize) -> Result<Bytes, AllocError>
    ensures { IfOk result (λ text. text ≡ take len (bytes_of_words words.now)) }
{
    let mut text = Bytes::with_capacity(alloc, len)?;
    let mut left = len;
    for word in words {
        let count = left.min(WORD_BYTES);
        text.extend_from_slice(&word.to_le_bytes()[..count])?;
        left -= count;
    }
    Ok(text)
}

/// The text that words begin with, and the words behind it.
fn take_text(alloc: Global, words: &[u64]) -> Result<(Bytes, &[u64]), AllocError>
    requires { (value : ArgValue) × (back : List ℕ) × BeginsWithWordsOf TextType words.now value back }
    ensures { IfOk result (λ pair. BeginsWithWordsOf TextType words.now (TextValue pair.0) pair.1.now) }
{
    let len = words[0] as usize;
    let (text, back) = words[1..].split_at(len.div_ceil(WORD_BYTES));
    Ok((copy_text(alloc, text, len)?, back))
}

/// The argument of the type that words begin with, and the words behind it.
fn take_argument(alloc: Global, kind: ArgType, words: &[u64]) -> Result<(Value, &[u64]), AllocError>
    requires { (value : ArgValue) × (back : List ℕ) × BeginsWithWordsOf kind words.now value back }
    ensures { IfOk result (λ pair. BeginsWithWordsOf kind words.now pair.0 pair.1.now) }
{
    if kind == ArgType::Text {
        let (text, back) = take_text(alloc, words)?;
        return Ok((Value::Text(text), back));
    }
    Ok((integer(kind, words[0]), &words[1..]))
}

/// The arguments that fit the types and whose words these are.
fn take_arguments(alloc: Global, types: &[ArgType], words: &[u64]) -> Result<Values, AllocError>
    requires few { length types.now ≤ MAX_ARGUMENTS }
    requires spelled { (args : List ArgValue) × SpellsArguments types.now args words.now }
    ensures ok { IfOk result (λ args. SpellsArguments types.now args words.now) }
    ensures none { types.now ≡ [] → IsOk result }
{
    let mut args = Values::make(alloc);
    let mut rest = words;
    for kind in types {
        let (value, back) = take_argument(alloc, *kind, rest)?;
        args.push(value)?;
        rest = back;
    }
    Ok(args)
}

/// The arguments of a call, whose frame these words are and which fit the types.
pub fn read_frame(alloc: Global, frame: &[u64], types: &[ArgType]) -> Result<Values, FrameFault>
    requires { length types.now ≤ MAX_ARGUMENTS }
    ensures ok { IfOk result (λ args. IsFrameOf types.now args frame.now) }
    ensures only { (args : List ArgValue) → IsFrameOf types.now args frame.now → MatchResult result
        (λ read. read ≡ args)
        (λ fault. fault ≡ FrameFault.NoMemory) }

    // Words are judged before any memory is wanted.
    ensures broken { (result ≡ Err FrameFault.Broken)
        ↔ ((args : List ArgValue) → ¬ (IsFrameOf types.now args frame.now)) }
    ensures no_memory { result ≡ Err FrameFault.NoMemory
        → (types.now ≢ []) × ((args : List ArgValue) × IsFrameOf types.now args frame.now) }
{
    if !is_frame(frame, types) {
        return Err(FrameFault::Broken);
    }
    let Ok(args) = take_arguments(alloc, types, &frame[HEAD_WORDS..]) else {
        return Err(FrameFault::NoMemory);
    };
    Ok(args)
}
