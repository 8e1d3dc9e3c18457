//! The messages that calls name by number.

ghost use Rattle.std.specs.Prelude.{List, ◌≡◌, ◌≤◌, ◌↔◌, [], length, map, slice_get, IsNone, Ok, Err, ℕ, IfOk, IfErr, IsTrue, OnErr, ◌<◌};
ghost use Rattle.std.specs.Option.{option_copied};
ghost use Rattle.std.specs.Slice.Iter.{iter_rest};
ghost use Rattle.printf_grammar.specs.declared.piece.Piece.{Piece};
ghost use Rattle.printf_grammar.specs.Spelling.{Spells};
ghost use Rattle.log_dictionary.specs.declared.message.Message.{Message};
ghost use Rattle.log_dictionary.specs.Messages.{SpellsMessage, HasMessage};
ghost use Rattle.log_dictionary.specs.Places.{IsPlace};
ghost use Rattle.log_dictionary.specs.Calls.{Takes};
ghost use Rattle.log_dictionary.specs.Additions.{IsAdded, SpellsNone, StopsMessage, ReadsLine};
ghost use Rattle.log_dictionary.specs.MessageLines.{IsMessageLine};
ghost use Rattle.log_dictionary.specs.Numbers.{natural_read};

use crate::formats::{FormatFault, format_of};
use crate::message::Message;
use crate::message_line::message_line_of;
use crate::message_set::MessageSet;
use crate::numbers::Natural;
use crate::text::SpelledText;
use printf_grammar::{Argument, Format, fits};
use std::alloc::{AllocError, Global};
use std::marker::Model;
use std::slice;

/// The most messages of a dictionary.
pub const MAX_MESSAGES: usize = 65_536;

/// At most 65,536 messages, no two of them equal. A message's id is its place, from 0.
#[derive(Debug, Drop)]
pub struct Dictionary {
    messages: MessageSet,
}

/// Why a line gave no message to a dictionary.
#[derive(Clone, Copy, Debug, PartialEq, Eq)]
pub enum LineFault {
    /// The dictionary has 65,536 messages.
    TooMany,
    /// The line is no message line, or its message is there already.
    BadEntry,
    /// The line's id isn't the number of messages.
    Order,
    NoMemory,
}

/// What became of a message that was to be added.
#[derive(Clone, Copy, Debug, PartialEq, Eq)]
pub enum Added {
    /// An equal message was there, with this id.
    Old(u32),
    /// The message is new, and has this id.
    New(u32),
}

/// Why a message wasn't added.
#[derive(Clone, Copy, Debug, PartialEq, Eq)]
pub enum AddFault {
    /// The message is new, and the dictionary has 65,536 messages.
    TooMany,
    NoMemory,
}

impl Model for Dictionary {
    ghost use Rattle.std.specs.Prelude.{◌≤◌, List, length};
    ghost use Rattle.log_dictionary.specs.declared.message.Message.{Message};
    ghost use Rattle.log_dictionary.specs.declared.dictionary.TheConstants.{MAX_MESSAGES};

    ghost Value = { List Message };

    ghost view = { λ d. d.messages };

    ghost invariant = { λ d. length d.messages ≤ MAX_MESSAGES };
}

fn format_of_text(alloc: Global, text: &SpelledText<'_>) -> Result<Format, FormatFault>
    ensures found { IfOk result (λ format. (format.bytes ≡ text.now) × Spells text.now format.pieces) }
    ensures bad { result ≡ Err FormatFault.Bad → (pieces : List Piece) → ¬ Spells text.now pieces }
{
    let Ok(bytes) = text.to_bytes(alloc) else {
        return Err(FormatFault::NoMemory);
    };
    format_of(alloc, bytes.as_slice())
}

// The id and the message that a message line spells.
fn message_of(alloc: Global, line: &[u8]) -> Result<(Natural, Message), LineFault>
    ensures found { IfOk result (λ pair. (id : ℕ) × (pair.0 ≡ natural_read id) × SpellsMessage line.now id pair.1) }
    ensures fault { IfErr result (λ fault. StopsMessage fault (SpellsNone line.now)) }

    // All but what the format spells is judged also where there is no memory.
    ensures no_message_line { ¬ (IsMessageLine line.now) → result ≡ Err LineFault.BadEntry }
{
    let Some(parts) = message_line_of(line) else {
        return Err(LineFault::BadEntry);
    };
    let format = match format_of_text(alloc, &parts.format) {
        Ok(format) => format,
        Err(FormatFault::Bad) => return Err(LineFault::BadEntry),
        Err(FormatFault::NoMemory) => return Err(LineFault::NoMemory),
    };
    let Ok(file) = parts.file.to_bytes(alloc) else {
        return Err(LineFault::NoMemory);
    };
    let message = Message {
        file,
        line: parts.line,
        severity: parts.severity,
        format,
    };
    Ok((parts.id, message))
}

// Whether the number that was read is this one.
fn is_number(read: Natural, number: usize) -> bool
    ensures { (n : ℕ) → read ≡ natural_read n → IsTrue result ↔ (n ≡ number) }
{
    match read {
        Natural::Small(read) => read == number as u64,
        Natural::Large => false,
    }
}

impl Dictionary {
    ghost use Rattle.log_dictionary.specs.Messages.{AreDistinct, AreFormed};

    /// A dictionary with no message.
    pub fn make(alloc: Global) -> Dictionary
        ensures { result ≡ [] }
    {
        Dictionary {
            messages: MessageSet::new(alloc),
        }
    }

    /// The number of messages.
    pub fn len(&self) -> u32
        ensures value { result ≡ length self.now }
        ensures bound { result ≤ MAX_MESSAGES }
    {
        self.messages.len() as u32
    }

    /// The message with the id, if the dictionary has one.
    pub fn get(&self, id: u32) -> Option<&Message>
        ensures value { option_copied result ≡ slice_get self.now id }
        ensures none { IsNone result ↔ (length self.now ≤ id) }
    {
        self.messages.as_slice().get(id as usize)
    }

    /// The message with an id that the dictionary has.
    pub fn message(&self, id: u32) -> &Message
        requires { id < length self.now }
        ensures { slice_get self.now id ≡ Some result.now }
    {
        &self.messages.as_slice()[id as usize]
    }

    /// The id of the message that equals this one, if the dictionary has one.
    pub fn id_of(&self, message: &Message) -> Option<u32>
        ensures { IsPlace self.now message.now result }
    {
        self.messages.place_of(message)
    }

    /// The messages, in the order of their ids.
    pub fn as_slice(&self) -> &[Message]
        ensures value { result.now ≡ self.now }
        ensures few { length self.now ≤ MAX_MESSAGES }
        ensures distinct { AreDistinct self.now }
        ensures formed { AreFormed self.now }
    {
        self.messages.as_slice()
    }

    /// The messages, in the order of their ids.
    pub fn iter(&self) -> slice::Iter<'_, Message>
        ensures { iter_rest result ≡ self.now }
    {
        self.messages.as_slice().iter()
    }

    /// Whether a call may have this id and these arguments.
    pub fn takes<A: Argument>(&self, id: u32, args: &[A]) -> bool
        ensures { IsTrue result ↔ Takes self.now id (map A.value args.now) }
    {
        match self.get(id) {
            Some(message) => fits(message.format.types(), args),
            None => false,
        }
    }

    /// Adds a message, unless an equal one is there. It is dropped where it isn't added.
    pub fn add(&mut self, message: Message) -> Result<Added, AddFault>
        ensures ok { IfOk result (IsAdded self.old message self.new) }

        // One that is there is found also where there is no memory.
        ensures old { HasMessage self.old message → (id : ℕ) × (result ≡ Ok (Added.Old id)) }
        ensures err { OnErr result (self.new ≡ self.old) }
        ensures too_many { (result ≡ Err AddFault.TooMany)
            ↔ ((¬ (HasMessage self.old message)) × (length self.old ≡ MAX_MESSAGES)) }
    {
        if self.messages.len() >= MAX_MESSAGES {
            let Some(id) = self.messages.place_of(&message) else {
                return Err(AddFault::TooMany);
            };
            return Ok(Added::Old(id));
        }
        let Ok(added) = self.messages.insert(message) else {
            return Err(AddFault::NoMemory);
        };
        Ok(added)
    }

    /// Adds the message that a message line spells, if it is new and its id is the next one.
    pub fn read_line(&mut self, line: &[u8]) -> Result<(), LineFault>
        ensures reads { ReadsLine self.old line.now self.new result }

        // A full dictionary is told, and all but what the format spells is judged, also where there is no memory.
        ensures too_many { (result ≡ Err LineFault.TooMany) ↔ (length self.old ≡ MAX_MESSAGES) }
        ensures no_message_line { ¬ (IsMessageLine line.now) → length self.old < MAX_MESSAGES
            → result ≡ Err LineFault.BadEntry }
    {
        if self.messages.len() >= MAX_MESSAGES {
            return Err(LineFault::TooMany);
        }
        let alloc = self.messages.allocator();
        let (id, message) = match message_of(alloc, line) {
            Ok(pair) => pair,
            Err(fault) => return Err(fault),
        };
        if !is_number(id, self.messages.len()) {
            if let Some(_) = self.messages.place_of(&message) {
                return Err(LineFault::BadEntry);
            }
            return Err(LineFault::Order);
        }
        match self.messages.insert(message) {
            Ok(Added::New(_)) => Ok(()),
            Ok(Added::Old(_)) => Err(LineFault::BadEntry),
            Err(_) => Err(LineFault::NoMemory),
        }
    }
}

impl<'a> IntoIterator for &'a Dictionary {
    type Item = &'a Message;

    type IntoIter = slice::Iter<'a, Message>;

    ghost into_iter_gives = { λ dictionary it. iter_rest it ≡ dictionary.now };

    fn into_iter(self) -> Self::IntoIter {
        self.iter()
    }
}
