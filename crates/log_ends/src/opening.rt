//! Opening a session.

ghost use Rattle.std.specs.Prelude.{◌≡◌, ◌⊎◌, ◌↔◌, ℕ, List, Err, map, All, IfOk, IsErrOf, IsTrue};
ghost use Rattle.log_dictionary.specs.declared.message.Message.{Message};
ghost use Rattle.trace_text.specs.Dictionaries.{DictionaryText};
ghost use Rattle.log_ends.specs.Openings.{IsSetupInRange, IsTextRefusedAt, IsOpened, open_fault};
ghost use Rattle.log_ends.specs.Ends.{IsWriterFor};
ghost use Rattle.log_ends.specs.PartEnds.{IsFirstPart};

use crate::backlog::Backlog;
use crate::consumer::{ConsumerEnd, VERSION};
use crate::part_end::PartEnd;
use crate::rooms::room_of;
use crate::session::SessionEnd;
use crate::setup::Setup;
use crate::writer::WriterEnd;
use log_dictionary::{Clocks, Dictionary};
use log_session::{Writer, open_rings};
use roaming_consumer::Roamer;
use std::alloc::{AllocError, Global};
use std::collections::VecDeque;
use trace_text::{TraceFault, read_dictionary};
use word_ring::{WordIn, WordOut, WordRing};

/// Why no session was opened.
#[derive(Clone, Copy, Debug, PartialEq, Eq)]
pub enum OpenFault {
    /// A number is out of its range.
    OutOfRange,
    /// The text isn't that of a dictionary. This line of it is the first that is refused, from 1; it is 0 where the text
    /// is too long.
    BadDictionary { line: u64 },
    NoMemory,
}

/// Why there is no session where a text isn't read.
fn fault_of(fault: TraceFault) -> OpenFault
    ensures { result ≡ open_fault fault }
{
    match fault {
        TraceFault::Refused { line, cause: _ } => OpenFault::BadDictionary { line },
        TraceFault::ReadFault | TraceFault::NoMemory => OpenFault::NoMemory,
    }
}

/// The dictionary of the text, which is kept for ever.
fn kept_dictionary(alloc: Global, text: &[u8]) -> Result<&'static Dictionary, OpenFault>
    ensures found { IfOk result (λ dictionary. DictionaryText text.now dictionary.now) }
    ensures refused { (line : ℕ) → result ≡ Err (OpenFault.BadDictionary line) → IsTextRefusedAt text.now line }
    ensures only { (line : ℕ) → IsTextRefusedAt text.now line
        → (result ≡ Err (OpenFault.BadDictionary line)) ⊎ (result ≡ Err OpenFault.NoMemory) }
    ensures in_range { ¬ (IsErrOf result OpenFault.OutOfRange) }
{
    let dictionary = match read_dictionary(alloc, text) {
        Ok(dictionary) => dictionary,
        Err(fault) => return Err(fault_of(fault)),
    };
    match Box::new(alloc, dictionary) {
        Ok(dictionary) => Ok(Box::leak(dictionary)),
        Err(_) => Err(OpenFault::NoMemory),
    }
}

/// The writers, each with the dictionary.
fn writer_ends(
    alloc: Global,
    writers: Vec<Writer<WordIn>>,
    dictionary: &'static Dictionary,
) -> Result<VecDeque<WriterEnd>, AllocError>
    requires { All (IsWriterFor dictionary.now) writers.items }
    ensures writers { IfOk result (λ left. map (λ end. end.writer) left.items ≡ writers.items) }
    ensures messages { IfOk result (λ left. All (λ end. end.dictionary.now ≡ dictionary.now) left.items) }
{
    let mut left = VecDeque::with_capacity(alloc, writers.len())?;
    for writer in writers {
        left.push_back(WriterEnd { writer, dictionary })?;
    }
    Ok(left)
}

/// The ends from which the consumer takes calls.
fn part_ends(alloc: Global, outs: Vec<WordOut>) -> Result<Vec<PartEnd>, AllocError>
    ensures rings { IfOk result (λ ends. map (λ end. end.out) ends.items ≡ outs.items) }
    ensures first { IfOk result (λ ends. All IsFirstPart ends.items) }
{
    let mut ends = Vec::with_capacity(alloc, outs.len())?;
    for out in outs {
        ends.push(PartEnd::over(out))?;
    }
    Ok(ends)
}

/// A session over the dictionary.
fn session_over(
    alloc: Global,
    setup: Setup,
    dictionary: &'static Dictionary,
) -> Result<(SessionEnd, ConsumerEnd), AllocError>
    requires { IsSetupInRange setup }
    ensures { IfOk result (λ ends. IsOpened dictionary.now setup ends.0 ends.1) }
{
    let clocks = Clocks::make(alloc, setup.clock)?;
    let (writers, outs) = open_rings::<WordRing>(
        alloc,
        setup.ring,
        setup.writers,
        dictionary,
        setup.clock.tick,
    )?;
    let ends = part_ends(alloc, outs)?;
    let mut roamer = Roamer::make(alloc, ends, dictionary, VERSION, &clocks, setup.batch)?;
    let mut backlog = Backlog::make(alloc, room_of(dictionary))?;
    let left = writer_ends(alloc, writers, dictionary)?;
    if roamer.begin(&mut backlog).is_err() {
        unreachable!();
    }
    let session = SessionEnd {
        left,
        ended: false,
        dictionary,
    };
    let consumer = ConsumerEnd {
        roamer,
        backlog,
        writers: setup.writers,
        next: 0,
        over: false,
        ending: false,
        earlier: 0,
    };
    Ok((session, consumer))
}

/// Opens a session for the calls of a dictionary, whose text it reads. All memory is taken that the session's ends ever
/// take.
///
/// # Errors
///
/// A number is out of range, or the text is refused, in this order; or there is no memory.
pub fn open(
    alloc: Global,
    text: &[u8],
    setup: Setup,
) -> Result<(SessionEnd, ConsumerEnd), OpenFault>
    ensures opened { IfOk result (λ ends. (messages : List Message) × DictionaryText text.now messages
        × IsOpened messages setup ends.0 ends.1) }
    ensures out_of_range { IsErrOf result OpenFault.OutOfRange ↔ (¬ (IsSetupInRange setup)) }
    ensures refused { (line : ℕ) → result ≡ Err (OpenFault.BadDictionary line) → IsTextRefusedAt text.now line }
    ensures only { IsSetupInRange setup → (line : ℕ) → IsTextRefusedAt text.now line
        → (result ≡ Err (OpenFault.BadDictionary line)) ⊎ (result ≡ Err OpenFault.NoMemory) }
{
    if !setup.is_in_range() {
        return Err(OpenFault::OutOfRange);
    }
    let dictionary = match kept_dictionary(alloc, text) {
        Ok(dictionary) => dictionary,
        Err(fault) => return Err(fault),
    };
    match session_over(alloc, setup, dictionary) {
        Ok(ends) => Ok(ends),
        Err(_) => Err(OpenFault::NoMemory),
    }
}
