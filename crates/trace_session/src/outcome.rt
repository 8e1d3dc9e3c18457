//! How a session ended.

use crate::drops::Drops;
use thiserror::Error;

/// What a session came to that was run to its end.
#[derive(Drop)]
pub struct Outcome<D> {
    /// The calls that were dropped, by writer and then by ordinal.
    pub drops: Drops,
    /// How many calls were logged.
    pub accepted: u64,
    /// How many calls the level didn't keep.
    pub filtered: u64,
    /// What is left of the rings, by writer.
    pub settled: Vec<D>,
}

/// Why a session wasn't run to its end.
#[derive(Clone, Copy, Debug, PartialEq, Eq, Error)]
pub enum RunFault {
    /// A ring would have fewer words than [`MIN_RING`](session_options::MIN_RING), or more than
    /// [`MAX_RING`](session_options::MAX_RING).
    #[error("bad size")]
    BadSize,
    /// Memory was wanting. Nothing was written.
    #[error("no memory")]
    NoMemory,
    /// The log couldn't be written.
    #[error("sink fault")]
    SinkFault,
}
