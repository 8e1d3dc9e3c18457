//! What is told of a visit.

/// What became of a visit of a writer.
#[derive(Clone, Copy, Debug, PartialEq, Eq)]
pub enum Visit {
    /// So many of its calls were taken and written.
    Wrote(u64),
    /// It had no call.
    Idle,
    /// It has ended: all its calls were taken, and its close mark was written.
    Ended,
    /// So many of its calls were taken and thrown away, since a write had failed before.
    Discarded(u64),
}

/// A write failed.
#[derive(Clone, Copy, Debug, PartialEq, Eq)]
pub struct SinkFault;
