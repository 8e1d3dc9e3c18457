//! Calls as frames.

ghost use Rattle.std.specs.Prelude.{◌≤◌, length, IfSome};

use crate::tables::{Told, check_rows, cut, text_of, times, values_of};
use arg_records::{frame_id, frame_stamp, frame_words, read_frame};
use printf_grammar::{ArgType, Format, Value, Values, fits, parse};
use std::alloc::{AllocError, Global};
use std::fmt::Write;
use std::test::Fail;

/// An id, a stamp, a format, its arguments, and the words of the frame in hexadecimal.
const FRAMES: &str = "\
0|1003|x=%d|i7| 3 3eb 7;;2|5|%d|i-1| 20003 5 ffffffffffffffff;;9|0|x|| 90002 0;;0|0||| 2 0
65535|18446744073709551615|%ld|i-9223372036854775808| ffff0003 ffffffffffffffff 8000000000000000
65535|18446744073709551615||| ffff0002 ffffffffffffffff;;1|9|%s%s%u|tab,t,u5| 10006 9 2 6261 0 5
1|9|%s%d|tabcdefghi,i-2| 10006 9 9 6867666564636261 69 fffffffffffffffe
1|9|%d%d|i-2147483648,i2147483647| 10004 9 ffffffff80000000 7fffffff;;1|9|%u%u|u0,u4294967295| 10004 9 0 ffffffff
1|9|%ld%ld|i-9223372036854775808,i9223372036854775807| 10004 9 8000000000000000 7fffffffffffffff
1|9|%lu%lu|u0,u18446744073709551615| 10004 9 0 ffffffffffffffff;;1|9|%*d|i-4095,i4095| 10004 9 fffffffffffff001 fff
1|9|%.*d|i-2147483648,i4095| 10004 9 ffffffff80000000 fff;;1|9|%.*d|i4095,i0| 10004 9 fff 0;;1|9|%s|t| 10003 9 0
1|9|%s|ta| 10004 9 1 61;;1|9|%s|tabcdefg| 10004 9 7 67666564636261;;1|9|%s|tabcdefgh| 10004 9 8 6867666564636261
1|9|%s%d%s%u%s|tab,i-1,t,u5,tä| 10009 9 2 6261 ffffffffffffffff 0 5 2 a4c3
0|6|64*%u|64*u5| 66 words;;0|9|%s%s|t4000*a,t| 504 words;;0|9|%s%s|t4000*a,t64*b| 512 words
0|0|%s%s|t4000*a,t4000*a|too long;;0|0|%s%s|t4000*a,t65*b|too long";

/// The words in hexadecimal, with a space before each. Of many, only how many they are.
fn words_shown(alloc: Global, words: &[u64]) -> Result<String, AllocError> {
    if words.len() > 20 {
        return format!(in alloc; " {} words", words.len());
    }
    let mut text = String::new(alloc);
    for word in words {
        write!(text, " {word:x}")?;
    }
    Ok(text)
}

/// Whether the words are read as a call with this id, this stamp and these values.
fn is_call(
    alloc: Global,
    types: &[ArgType],
    frame: &[u64],
    call: (u32, u64, &Values),
) -> Result<bool, Fail>
    requires { length types.now ≤ 64 }
{
    let (id, stamp, values) = call;
    let again = read_frame(alloc, frame, types)?;
    if frame_id(frame) != id || frame_stamp(frame) != stamp {
        return Ok(false);
    }
    Ok(format!(in alloc; "{again:?}")? == format!(in alloc; "{values:?}")?)
}

/// Writes the frame of a call, and answers its length.
fn framed(
    id: u32,
    stamp: u64,
    types: &[ArgType],
    args: &[Value],
    words: &mut [u64; 512],
) -> Option<usize>
    requires few { length types.now ≤ 64 }
    ensures { IfSome result (λ len. len ≤ 512) }
{
    if id >= 65536 || !fits(types, args) {
        return None;
    }
    frame_words(id, stamp, args, words).ok()
}

/// The words of the frame, if that is read as the same call.
fn frame_shown(
    alloc: Global,
    types: &[ArgType],
    id: u32,
    stamp: u64,
    values: &Values,
) -> Result<String, Fail> {
    if types.len() > 64 {
        return Err("too many types".into());
    }
    let mut words = [77; 512];
    let Some(len) = framed(id, stamp, types, values.as_slice(), &mut words) else {
        return Ok(String::from_str(alloc, "too long")?);
    };
    if !is_call(alloc, types, &words[..len], (id, stamp, values))? {
        return Err("another call is read".into());
    }
    Ok(words_shown(alloc, &words[..len])?)
}

/// The format that a word spells.
fn format_of(alloc: Global, word: &str) -> Result<Format, Fail> {
    let text = text_of(alloc, word)?;
    Ok(parse(alloc, text.as_bytes())?)
}

struct FrameWritten;

impl Told for FrameWritten {
    fn told(alloc: Global, row: &str) -> Result<String, Fail> {
        let (id, rest) = cut(row)?;
        let (stamp, rest) = cut(rest)?;
        let (format, args) = cut(rest)?;
        let id = id.parse::<u32>()?;
        let stamp = stamp.parse::<u64>()?;
        let format = format_of(alloc, format)?;
        let values = values_of(alloc, args)?;
        frame_shown(alloc, format.types(), id, stamp, &values)
    }
}

/// Formats, and words that are the frame of no arguments of theirs; the last ones are.
const READ: &str = "\
||Broken;;|2|Broken;;|0 9|Broken;;|3 9|Broken;;|1 9|Broken;;|3 9 0|Broken;;|100000002 9|Broken
|8000000000000002 9|Broken;;%d|2 9|Broken;;%d|10004 9 5 6|Broken;;%d|10003 9 80000000|Broken
%d|10003 9 ffffffff7fffffff|Broken;;%d|10003 9 ffffffff|Broken;;%u|10003 9 100000000|Broken;;%*d|10004 9 1000 0|Broken
%*d|10004 9 fffffffffffff000 0|Broken;;%.*d|10004 9 1000 0|Broken;;%.*d|10004 9 ffffffff7fffffff 0|Broken
%s|10003 9 1|Broken;;%s|10004 9 9 6867666564636261|Broken;;%s|10004 9 2 636261|Broken
%s|10004 9 1 6100000000000061|Broken;;%s|10005 9 9 6867666564636261 6a69|Broken;;%s|10004 9 0 0|Broken
%s|10005 9 8 6867666564636261 0|Broken;;%s|10004 9 3 630061|Broken;;%s|10004 9 8 67666564636261|Broken
%s|10003 9 fa1|Broken;;%s|10003 9 ffffffffffffffff|Broken;;%s%d|10004 9 1 61|Broken;;%d%s|10005 9 1 61 7|Broken
%s%s|201 9 fa0 500*6161616161616161 48 9*6262626262626262|Broken;;%s%s|1f9 9 fa8 501*6161616161616161 0|Broken
%s%s|200 9 fa0 500*6161616161616161 40 8*6262626262626262|a frame";

/// The words that are spelled in hexadecimal.
fn words_of(alloc: Global, words: &str) -> Result<Vec<u64>, Fail> {
    let mut frame = Vec::new(alloc);
    for word in words.split_ascii_whitespace() {
        let (count, word) = times(word);
        let word = u64::from_str_radix(word, 16)?;
        let len = frame.len().saturating_add(count);
        frame.resize(len, word)?;
    }
    Ok(frame)
}

/// Whether the words are the frame of such arguments, or why not.
fn frame_told(alloc: Global, types: &[ArgType], words: &[u64]) -> Result<String, Fail> {
    if types.len() > 64 {
        return Err("too many types".into());
    }
    match read_frame(alloc, words, types) {
        Ok(_) => Ok(String::from_str(alloc, "a frame")?),
        Err(fault) => Ok(format!(in alloc; "{fault:?}")?),
    }
}

struct FrameRead;

impl Told for FrameRead {
    fn told(alloc: Global, row: &str) -> Result<String, Fail> {
        let (format, words) = cut(row)?;
        let frame = words_of(alloc, words)?;
        let format = format_of(alloc, format)?;
        frame_told(alloc, format.types(), &frame)
    }
}

#[test]
fn frames_are_written_and_read(rt: HostRuntime) -> Result<(), Fail> {
    check_rows::<FrameWritten, _>(&rt, FRAMES)?;
    check_rows::<FrameRead, _>(&rt, READ)
}
