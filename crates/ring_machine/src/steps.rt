//! What may happen in rings, and why it may not.

ghost use Rattle.std.specs.Prelude.{◌≡◌};

use std::alloc::AllocError;
use thiserror::Error;

/// One step of one end of a ring. Each loads or stores one word.
#[derive(Clone, Copy, Debug, PartialEq, Eq)]
pub enum StepKind {
    /// The writer loads the consumer word: it sees how far its words are released.
    Look,
    /// The writer stores a word of a frame.
    Store(u64),
    /// The writer stores a wrap mark, and skips the places up to the ring's end.
    Skip,
    /// The writer stores the producer word: all that it has stored is published.
    Publish,
    /// The writer stores the producer word with the closed bit.
    Close,
    /// The roamer loads the producer word: how far words are published, and whether the ring is closed.
    Load,
    /// The roamer loads the next word. At a wrap mark it goes on at the ring's beginning.
    Read,
    /// The roamer stores the consumer word: all that it has read is released.
    Release,
}

/// A step in one of several rings.
#[derive(Clone, Copy, Debug, PartialEq, Eq)]
pub struct Event {
    /// The number of the ring, from 0.
    pub ring: u32,
    /// What happens there.
    pub step: StepKind,
}

/// Why a step was not made. Where several causes hold, the first of them is given.
#[derive(Clone, Copy, Debug, PartialEq, Eq, Error)]
pub enum Barred {
    #[error("no such ring")]
    Ring,
    /// The writer has closed the ring.
    #[error("the ring is closed")]
    Closed,
    /// A frame isn't stored whole, or isn't read whole, or what is stored isn't published.
    #[error("in the middle of a frame")]
    MidFrame,
    /// No frame begins with this word.
    #[error("no frame begins with this word")]
    BadWord,
    /// The frame would cross the ring's end, or nothing is there to be skipped.
    #[error("at the ring's edge")]
    AtEdge,
    /// Not so many places are known to be free.
    #[error("too little room")]
    NoRoom,
    /// All that is known to be published was read.
    #[error("there is nothing to read")]
    Empty,
    /// There is nothing new to publish or to release.
    #[error("there is nothing to tell")]
    Nothing,
    #[error("there is no memory")]
    NoMemory,
}

impl From<AllocError> for Barred {
    ghost use Rattle.ring_machine.specs.declared.steps.Barred.TheVariants as bars;

    ghost from_gives = { λ _ barred. barred ≡ bars.NoMemory };

    fn from(_: AllocError) -> Barred {
        Barred::NoMemory
    }
}
