//! What the ends of a ring answer.

use thiserror::Error;

/// There was too little room in the ring, counted in places of a word.
#[derive(Clone, Copy, Debug, PartialEq, Eq)]
pub struct Full {
    /// How many places were wanted.
    pub need: u64,
    /// How many places were free.
    pub room: u64,
}

/// What became of an attempt to take a frame.
#[derive(Clone, Copy, Debug, PartialEq, Eq)]
pub enum Taken {
    /// A frame was taken, which has so many words.
    Frame(usize),
    /// There is no frame now.
    Nothing,
    /// The writer closed its end, and all its frames were taken.
    Ended,
}

/// Why no ring was made.
#[derive(Clone, Copy, Debug, PartialEq, Eq, Error)]
pub enum StageFault {
    /// The ring would have fewer words than [`MIN_RING`](session_options::MIN_RING), or more than
    /// [`MAX_RING`](session_options::MAX_RING).
    #[error("bad size of a ring")]
    BadSize,
    #[error("there is no memory")]
    NoMemory,
}
