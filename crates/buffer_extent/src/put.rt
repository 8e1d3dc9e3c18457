//! Writing a record.

ghost use Rattle.std.specs.Prelude.{◌≡◌, ℕ, ◌+◌, ◌*◌, ◌/◌, ◌<◌, ◌≤◌, List, ◌++◌, length, take, drop, All};
ghost use Rattle.std.specs.List.{flat_map};
ghost use Rattle.printf_grammar.specs.declared.limits.TheConstants.{MAX_ARGUMENTS};
ghost use Rattle.printf_grammar.specs.declared.argument.Value.{Value};
ghost use Rattle.printf_grammar.specs.Types.{Fits, text_of};
ghost use Rattle.log_dictionary.specs.declared.dictionary.TheConstants.{MAX_MESSAGES};
ghost use Rattle.arg_records.specs.Frames.{Frame};
ghost use Rattle.arg_records.specs.Kinds.{HoldsBytes};
ghost use Rattle.arg_records.specs.Places.{with_words};
ghost use Rattle.buffer_extent.specs.Records.{RecordBytes};
ghost use Rattle.buffer_extent.specs.Writing.{IsFrameSince, AreWordsOf, PutsNumbers, HeadBytes, record_room};

use crate::eight::put_packed;
use crate::staged::{put_argument_text, put_number, split_argument};
use arg_records::{frame_id, frame_stamp};
use nibble_pack::pack_unsigned;
use printf_grammar::{ArgType, MAX_ARGUMENTS};

/// How many bytes are to be free where a record is written. No record has as many.
pub const RECORD_ROOM: usize = 8_192;

/// Writes the codes of the id and of the step, and the two.
fn put_head(id: u32, step: u64, body: &mut [u8], at: usize) -> usize
    requires id { id < MAX_MESSAGES }
    requires room { at + 11 ≤ length body.old }
    ensures written { (bytes : List ℕ) × HeadBytes id step bytes × (body.new ≡ with_words body.old at bytes)
        × (result ≡ at + length bytes) }
    ensures bound { (at < result) × (result ≤ at + 11) }
{
    let id_number = pack_unsigned(u64::from(id));
    let step_number = pack_unsigned(step);
    body[at] = id_number.code + 16 * step_number.code;
    let end = put_packed(&id_number, body, at + 1);
    put_packed(&step_number, body, end)
}

/// Writes the codes of the arguments' numbers, two to a byte, and the bytes of the numbers behind all codes.
fn put_numbers(types: &[ArgType], words: &[u64], body: &mut [u8], at: usize) -> usize
    requires words { (args : List Value) × AreWordsOf types.now args words.now }
    requires room { at + (length types.now + 1) / 2 + 8 * length types.now ≤ length body.old }
    ensures written { (args : List Value) → AreWordsOf types.now args words.now
        → PutsNumbers types.now args body.old at (at + (length types.now + 1) / 2) body.new result }
    ensures bound { result ≤ at + (length types.now + 1) / 2 + 8 * length types.now }
{
    let mut place = at;
    let mut end = at + types.len().div_ceil(2);
    let mut kinds = types;
    let mut rest = words;
    while let [low, high, more @ ..] = kinds {
        let (low, middle, between) = put_number(*low, rest, body, end);
        let (high, back, behind) = put_number(*high, middle, body, between);
        body[place] = low + 16 * high;
        place += 1;
        end = behind;
        kinds = more;
        rest = back;
    }
    if kinds.is_empty() {
        return end;
    }
    let (last, _, behind) = put_number(kinds[0], rest, body, end);
    body[place] = last;
    behind
}

/// Writes the texts of the arguments whose words these are.
fn put_texts(types: &[ArgType], words: &[u64], body: &mut [u8], at: usize) -> usize
    requires room { (args : List Value) × AreWordsOf types.now args words.now
        × (at + length (flat_map text_of args) + 8 ≤ length body.old) }
    ensures written { (args : List Value) → AreWordsOf types.now args words.now
        → body.new ≡ with_words body.old at (flat_map text_of args) }
    ensures end { (args : List Value) → AreWordsOf types.now args words.now
        → result ≡ at + length (flat_map text_of args) }
{
    // Where each argument has one word, no text has a byte.
    if words.len() == types.len() {
        return at;
    }
    let mut end = at;
    let mut rest = words;
    for kind in types {
        let (argument, more) = split_argument(*kind, rest);
        end = put_argument_text(*kind, argument, body, end);
        rest = more;
    }
    end
}

/// Writes the record of a call at a place, and answers the place behind it. Its step counts from
/// `before`. The frame is the call's, and the types are those that its message takes.
pub fn put_record(
    frame: &[u64],
    types: &[ArgType],
    before: u64,
    body: &mut [u8],
    at: usize,
) -> usize
    requires frame { IsFrameSince types.now before frame.now }
    requires few { length types.now ≤ MAX_ARGUMENTS }
    requires room { at + RECORD_ROOM ≤ length body.old }

    // All bytes but the record's stay.
    ensures written { (id stamp : ℕ) (args : List Value) → Fits args types.now → All HoldsBytes args
        → frame.now ≡ Frame id stamp args
        → (bytes : List ℕ)
        × RecordBytes types.now id stamp before args bytes
        × (length bytes ≤ record_room types.now args)
        × (body.new ≡ take at body.old ++ bytes ++ drop (at + length bytes) body.old)
        × (result ≡ at + length bytes) }
    ensures within { (at < result) × (result ≤ at + (27 + 8 * length frame.now)) }
{
    let words = &frame[2..];
    let step = frame_stamp(frame) - before;
    let end = put_head(frame_id(frame), step, body, at);
    let end = put_numbers(types, words, body, end);
    put_texts(types, words, body, end)
}
