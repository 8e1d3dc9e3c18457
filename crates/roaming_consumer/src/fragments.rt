//! The fragments of messages that a log doesn't define yet.

ghost use Rattle.std.specs.Prelude.{◌+◌, ◌*◌, ◌<◌, ◌≤◌, length, take, drop};
ghost use Rattle.log_dictionary.specs.Messages.{AreFormed};
ghost use Rattle.checkpoint_io.specs.declared.heads.TheConstants.{MAX_FRAGMENT_MESSAGES};
ghost use Rattle.checkpoint_io.specs.Blocks.{SpellsEntries, SpellsFragment};
ghost use Rattle.roaming_consumer.specs.Sinks.{SendsFragments};

use checkpoint_io::{FRAGMENT_HEAD_LEN, MAX_FRAGMENT_MESSAGES, put_fragment_head};
use log_dictionary::{MAX_ENTRY, Message, entry_len, put_entry};
use nl_io::{Failed, Sink, write_all};

/// The most bytes of a fragment.
pub(crate) const MAX_FRAGMENT: usize = FRAGMENT_HEAD_LEN
    + MAX_FRAGMENT_MESSAGES as usize * MAX_ENTRY;

/// Puts the entries of messages, one behind the other, into the front, and answers their end.
fn put_entries(messages: &[Message], into: &mut [u8]) -> usize
    requires room { MAX_ENTRY * length messages.now ≤ length into.old }
    ensures spelled { SpellsEntries messages.now (take result into.new) }
    ensures within { result ≤ length into.old }
{
    let mut end = 0;
    for message in messages {
        let len = entry_len(message);
        put_entry(message, &mut into[end..end + len]);
        end += len;
    }
    end
}

/// Puts a fragment of so many messages, from 1 to 16, whose ids count from the first into the front, and answers its
/// end.
fn put_fragment(messages: &[Message], first: u32, count: u32, into: &mut [u8]) -> usize
    requires some { 1 ≤ count }
    requires few { count ≤ MAX_FRAGMENT_MESSAGES }
    requires within { first + count ≤ length messages.now }
    requires room { MAX_FRAGMENT ≤ length into.old }
    ensures spelled { SpellsFragment first (take count (drop first messages.now)) (take result into.new) }
    ensures within { result ≤ length into.old }
{
    let start = first as usize;
    let defined = &messages[start..start + count as usize];
    let head = put_fragment_head(first, count as u16, into);
    head + put_entries(defined, &mut into[head..])
}

/// Writes the fragments of the messages from the first one up to this end.
pub(crate) fn write_fragments<K: Sink>(
    messages: &[Message],
    first: u32,
    end: u32,
    buffer: &mut [u8],
    sink: &mut K,
) -> Result<(), Failed>
    requires forward { first ≤ end }
    requires within { end ≤ length messages.now }
    requires room { MAX_FRAGMENT ≤ length buffer.old }
    requires formed { AreFormed messages.now }
    ensures sent { SendsFragments result messages.now first end
        (K.put sink.old) (K.put sink.new) (K.faults sink.old) (K.faults sink.new) }
    ensures others { K.rest sink.old sink.new }
{
    let mut next = first;
    while next < end {
        let count = (end - next).min(u32::from(MAX_FRAGMENT_MESSAGES));
        let len = put_fragment(messages, next, count, buffer);
        write_all(sink, &buffer[..len])?;
        next += count;
    }
    Ok(())
}
