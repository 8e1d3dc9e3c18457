//! Reading the text of a dictionary, which is the front of a trace of version 1.

ghost use Rattle.std.specs.Prelude.{◌≡◌, ◌≤◌, ◌+◌, ◌∷◌, ◌++◌, length, IfSome, IfNone, IsErrOf};
ghost use Rattle.trace_text.specs.Dictionaries.{dictionary_line, DictionaryText, DictionaryBreak, LacksFirstLine};
ghost use Rattle.trace_text.specs.TraceReading.{IsAnswerTo, IsOnlyAnswerTo};

use crate::cause::TraceCause;
use crate::lines::Lines;
use crate::reading::{TOO_LARGE, TraceFault, message_fault};
use crate::trace::MAX_TRACE;
use log_dictionary::Dictionary;
use std::alloc::Global;

/// The first line of the text of a dictionary.
const FIRST_LINE: &[u8] = b"nanolog-trace 1";

// The lines behind the first one, if that is as it should be.
fn behind_first_line(lines: Lines<'_>) -> Option<Lines<'_>>
    ensures some { IfSome result (λ rest. lines.entry.bytes.now ≡ dictionary_line ++ 10 ∷ rest.bytes.now) }
    ensures next { IfSome result (λ rest. rest.number ≡ lines.entry.number + 1) }
    ensures none { IfNone result (LacksFirstLine lines.entry.bytes.now) }
{
    let (line, rest) = lines.split_first()?;
    if line != FIRST_LINE {
        return None;
    }
    Some(rest)
}

// The dictionary of a text that isn't too large.
fn dictionary_of(alloc: Global, text: &[u8]) -> Result<Dictionary, TraceFault>
    requires { length text.now ≤ MAX_TRACE }
    ensures answer { IsAnswerTo (DictionaryText text.now) (DictionaryBreak text.now) result }
    ensures read { ¬ (IsErrOf result TraceFault.ReadFault) }
{
    let all = Lines::of(text);
    let Some(mut lines) = behind_first_line(all) else {
        return Err(all.refused(TraceCause::Header));
    };
    let mut dictionary = Dictionary::make(alloc);
    while let Some((line, rest)) = lines.split_first() {
        if !line.starts_with(b"message ") {
            return Err(lines.refused(TraceCause::Message));
        }
        if let Err(fault) = dictionary.read_line(line) {
            return Err(message_fault(lines, fault));
        }
        lines = rest;
    }
    if !lines.is_empty() {
        return Err(lines.refused(TraceCause::Message));
    }
    Ok(dictionary)
}

/// The dictionary whose text it is: the first line of a trace of version 1 and lines of messages, and nothing else.
pub fn read_dictionary(alloc: Global, text: &[u8]) -> Result<Dictionary, TraceFault>
    // The text is that of the messages, or is refused so.
    ensures answer { IsAnswerTo (DictionaryText text.now) (DictionaryBreak text.now) result }
    ensures only { IsOnlyAnswerTo (DictionaryText text.now) (DictionaryBreak text.now) result }
    ensures read { ¬ (IsErrOf result TraceFault.ReadFault) }
{
    if text.len() > MAX_TRACE {
        return Err(TOO_LARGE);
    }
    dictionary_of(alloc, text)
}
