//! Messages that are found by what they say.

ghost use Rattle.std.specs.Prelude.{◌≡◌, ◌<◌, ◌≤◌, [], length, IfOk, IfErr, OnErr};
ghost use Rattle.indexmap.specs.IndexMap.{keys, values};
ghost use Rattle.log_dictionary.specs.declared.dictionary.TheConstants.{MAX_MESSAGES};
ghost use Rattle.log_dictionary.specs.Additions.{IsAdded};
ghost use Rattle.log_dictionary.specs.BinaryEntries.{SpellsEntry, entry_bytes};
ghost use Rattle.log_dictionary.specs.Messages.{HasMessage, HasId, AreDistinct, AreFormed};
ghost use Rattle.log_dictionary.specs.Places.{hash_of, IsPlace, IsFreeKey, AreKeys};

use crate::binary_entry::{MAX_ENTRY, entry_len, put_entry};
use crate::dictionary::{Added, MAX_MESSAGES};
use crate::message::Message;
use indexmap::IndexMap;
use std::alloc::{AllocError, Global};
use std::hash::{BuildHasherDefault, DefaultHasher, Hasher};
use std::marker::Model;

/// What a message is found by: the hash of its entry, and how many messages with this hash came before it.
#[derive(Clone, Copy, Debug, PartialEq, Eq, Hash)]
pub(crate) struct Key {
    hash: u64,
    nth: usize,
}

// Who hands in a log or a trace picks its messages, and knows what they hash to. So the table has keys, which are
// numbers, and a message is compared with those of its own hash alone.
type Messages = IndexMap<Key, Message, BuildHasherDefault<DefaultHasher>>;

/// Messages, no two of them equal, in the order in which they came.
#[derive(Debug, Drop)]
pub(crate) struct MessageSet {
    messages: Messages,
}

impl Model for MessageSet {
    ghost use Rattle.std.specs.Prelude.{List};
    ghost use Rattle.indexmap.specs.IndexMap.{keys, values};
    ghost use Rattle.log_dictionary.specs.declared.message.Message.{Message};
    ghost use Rattle.log_dictionary.specs.Messages.{AreDistinct, AreFormed};
    ghost use Rattle.log_dictionary.specs.Places.{AreKeys};

    ghost Value = { List Message };

    ghost view = { λ set. values set.messages };

    ghost invariant = { λ set. AreDistinct (values set.messages) × AreKeys (keys set.messages) (values set.messages)
        × AreFormed (values set.messages) };
}

// The hash of the message's entry.
fn hash_of(message: &Message) -> u64
    ensures value { result ≡ hash_of message.now }
    ensures spelled { SpellsEntry (entry_bytes message.now) message.now }
{
    let mut entry = [0; MAX_ENTRY];
    let len = entry_len(message);
    put_entry(message, &mut entry);
    let mut hasher = DefaultHasher::new();
    hasher.write(&entry[..len]);
    hasher.finish()
}

// The place of the message that equals this one, or else the key that this one is to have.
fn find(messages: &Messages, message: &Message) -> Result<usize, Key>
    requires { AreKeys (keys messages.now) (values messages.now) }
    ensures found { IfOk result (HasId (values messages.now) message.now) }
    ensures none { OnErr result (¬ (HasMessage (values messages.now) message.now)) }
    ensures free { IfErr result (IsFreeKey (keys messages.now) message.now) }
    ensures spelled { SpellsEntry (entry_bytes message.now) message.now }
{
    let hash = hash_of(message);
    let others = messages.values().as_slice();
    for nth in 0..others.len() {
        let key = Key { hash, nth };
        let Some(place) = messages.get_index_of(&key) else {
            return Err(key);
        };
        if *message == others[place] {
            return Ok(place);
        }
    }
    let nth = others.len();
    Err(Key { hash, nth })
}

impl MessageSet {
    pub(crate) fn new(alloc: Global) -> MessageSet
        ensures { result ≡ [] }
    {
        MessageSet {
            messages: IndexMap::with_hasher(alloc, BuildHasherDefault::new()),
        }
    }

    pub(crate) fn allocator(&self) -> Global {
        *self.messages.allocator()
    }

    pub(crate) fn len(&self) -> usize
        ensures { result ≡ length self.now }
    {
        self.messages.len()
    }

    pub(crate) fn as_slice(&self) -> &[Message]
        ensures value { result.now ≡ self.now }
        ensures distinct { AreDistinct self.now }
        ensures formed { AreFormed self.now }
    {
        self.messages.values().as_slice()
    }

    /// The place of the message that equals this one.
    pub(crate) fn place_of(&self, message: &Message) -> Option<u32>
        requires { length self.now ≤ MAX_MESSAGES }
        ensures { IsPlace self.now message.now result }
    {
        match find(&self.messages, message) {
            Ok(place) => Some(place as u32),
            Err(_) => None,
        }
    }

    /// Adds the message, unless an equal one is there.
    pub(crate) fn insert(&mut self, message: Message) -> Result<Added, AllocError>
        requires room { length self.old < MAX_MESSAGES }
        ensures ok { IfOk result (IsAdded self.old message self.new) }
        ensures err { OnErr result (self.new ≡ self.old) }
        ensures new { OnErr result (¬ (HasMessage self.old message)) }
    {
        let key = match find(&self.messages, &message) {
            Ok(place) => return Ok(Added::Old(place as u32)),
            Err(key) => key,
        };
        let place = self.messages.len() as u32;
        let Ok(_) = self.messages.insert(key, message) else {
            return Err(AllocError);
        };
        Ok(Added::New(place))
    }
}
