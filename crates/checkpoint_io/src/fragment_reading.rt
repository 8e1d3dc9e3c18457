//! Reading a fragment of a log: the messages that it defines.

ghost use Rattle.std.specs.Prelude.{◌≡◌, ◌+◌, ◌^◌, ◌<◌, ◌≤◌, length, take, IsErrOf, MatchResult};
ghost use Rattle.nl_io.specs.Count.{Rose};
ghost use Rattle.log_dictionary.specs.declared.dictionary.TheConstants.{MAX_MESSAGES};
ghost use Rattle.checkpoint_io.specs.Places.{log_place, Refuses, ReadsAs};
ghost use Rattle.checkpoint_io.specs.Reading.{message_at, new_message_at, new_messages_at, is_count, fragment_at};
ghost use Rattle.checkpoint_io.specs.Entries.{TakesMessage, TakesMessages, TakesFragment};

use crate::block::Block;
use crate::cause::Cause;
use crate::fault::BlockFault;
use crate::heads::MAX_FRAGMENT_MESSAGES;
use crate::pending::Pending;
use crate::steps::take_number;
use log_dictionary::{Added, Dictionary, EntryFault, MAX_MESSAGES, Message, read_entry};
use nl_io::Source;
use std::alloc::Global;

// The message whose entry is ahead.
fn next_message<S: Source>(
    alloc: Global,
    pending: &mut Pending,
    source: &mut S,
) -> Result<Message, BlockFault>
    ensures read { ReadsAs message_at
        (log_place pending.old (S.left source.old)) (log_place pending.new (S.left source.new)) (S.left source.new)
        result }
    ensures read_fault { IsErrOf result BlockFault.ReadFault
        → Rose (S.faults source.old) (S.faults source.new) }
    ensures counted { ¬ (IsErrOf result BlockFault.ReadFault)
        → S.faults source.new ≡ S.faults source.old }
    ensures count { S.faults source.old ≤ S.faults source.new }
    ensures others { S.rest source.old source.new }
{
    loop {
        match read_entry(alloc, pending.bytes()) {
            Ok((message, len)) => {
                pending.skip(len);
                return Ok(message);
            }
            Err(EntryFault::BadEntry) => return Err(BlockFault::Damaged(Cause::BadEntry)),
            Err(EntryFault::NoMemory) => return Err(BlockFault::NoMemory),
            Err(EntryFault::Cut) => {
                if pending.more(source)? == 0 {
                    return Err(BlockFault::Damaged(Cause::Cut));
                }
            }
        }
    }
}

// Adds the message whose entry is ahead, which is a new one.
fn take_message<S: Source>(
    alloc: Global,
    pending: &mut Pending,
    source: &mut S,
    dictionary: &mut Dictionary,
) -> Result<(), BlockFault>
    requires { length dictionary.old < MAX_MESSAGES }
    ensures read { MatchResult result
        (λ _. TakesMessage dictionary.old dictionary.new
        (log_place pending.old (S.left source.old)) (log_place pending.new (S.left source.new)))
        (Refuses (new_message_at dictionary.old) (log_place pending.old (S.left source.old)) (S.left source.new)) }
    ensures defined { take (length dictionary.old) dictionary.new ≡ dictionary.old }
    ensures read_fault { IsErrOf result BlockFault.ReadFault
        → Rose (S.faults source.old) (S.faults source.new) }
    ensures counted { ¬ (IsErrOf result BlockFault.ReadFault)
        → S.faults source.new ≡ S.faults source.old }
    ensures count { S.faults source.old ≤ S.faults source.new }
    ensures others { S.rest source.old source.new }
{
    let message = next_message(alloc, pending, source)?;
    match dictionary.add(message) {
        Ok(Added::New(_)) => Ok(()),
        Ok(Added::Old(_)) => Err(BlockFault::Damaged(Cause::BadEntry)),
        Err(_) => Err(BlockFault::NoMemory),
    }
}

// Adds the messages of so many entries, which are new ones.
fn take_messages<S: Source>(
    alloc: Global,
    pending: &mut Pending,
    source: &mut S,
    dictionary: &mut Dictionary,
    count: u64,
) -> Result<(), BlockFault>
    requires room { length dictionary.old + count ≤ MAX_MESSAGES }
    requires fits { pending.old.offset < 2 ^ 64 }
    ensures read { MatchResult result
        (λ _. TakesMessages dictionary.old count dictionary.new
        (log_place pending.old (S.left source.old)) (log_place pending.new (S.left source.new)))
        (Refuses (new_messages_at dictionary.old count)
        (log_place pending.old (S.left source.old)) (S.left source.new)) }
    ensures defined { take (length dictionary.old) dictionary.new ≡ dictionary.old }
    ensures read_fault { IsErrOf result BlockFault.ReadFault
        → Rose (S.faults source.old) (S.faults source.new) }
    ensures counted { ¬ (IsErrOf result BlockFault.ReadFault)
        → S.faults source.new ≡ S.faults source.old }
    ensures count { S.faults source.old ≤ S.faults source.new }
    ensures others { S.rest source.old source.new }
{
    if count == 0 {
        return Ok(());
    }
    take_message(alloc, pending, source, dictionary)?;
    take_messages(alloc, pending, source, dictionary, count - 1)
}

// Whether a fragment behind these messages may have so many.
fn may_have(dictionary: &Dictionary, count: u64) -> bool
    requires { count < 2 ^ 32 }
    ensures { result ≡ is_count dictionary.now count }
{
    (1..=u64::from(MAX_FRAGMENT_MESSAGES)).contains(&count)
        && u64::from(dictionary.len()) + count <= MAX_MESSAGES as u64
}

// The fragment behind its tag. Its messages are added, and in front of a fault some of them may be.
pub fn read_fragment<S: Source>(
    alloc: Global,
    pending: &mut Pending,
    source: &mut S,
    dictionary: &mut Dictionary,
) -> Result<Block, BlockFault>
    ensures read { MatchResult result
        (λ block. TakesFragment dictionary.old block dictionary.new
        (log_place pending.old (S.left source.old)) (log_place pending.new (S.left source.new)))
        (Refuses (fragment_at dictionary.old) (log_place pending.old (S.left source.old)) (S.left source.new)) }
    ensures defined { take (length dictionary.old) dictionary.new ≡ dictionary.old }
    ensures read_fault { IsErrOf result BlockFault.ReadFault
        → Rose (S.faults source.old) (S.faults source.new) }
    ensures counted { ¬ (IsErrOf result BlockFault.ReadFault)
        → S.faults source.new ≡ S.faults source.old }
    ensures count { S.faults source.old ≤ S.faults source.new }
    ensures others { S.rest source.old source.new }
{
    let first = take_number(pending, source, 4)?;
    let defined = dictionary.len();
    if first != u64::from(defined) {
        return Err(BlockFault::Damaged(Cause::FragmentOrder));
    }
    let count = take_number(pending, source, 2)?;
    if !may_have(dictionary, count) {
        return Err(BlockFault::Damaged(Cause::BadLength));
    }
    take_messages(alloc, pending, source, dictionary, count)?;
    Ok(Block::Fragment {
        first: defined,
        count: count as u32,
    })
}
