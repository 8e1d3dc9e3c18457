//! Where a session may be held up, so that tests can say what comes first.

/// Is called by the threads of a session on their way.
pub trait Gate: Send + Sync + Drop {
    /// A writer is about to try a call for the first time, which has this place among all calls of the writer.
    fn before(&self, writer: u32, ordinal: u64);

    /// The call was logged or dropped.
    fn after(&self, writer: u32, ordinal: u64);

    /// The consumer is about to go round the writers, for this time, counted from 0.
    fn round(&self, number: u64);
}

/// Holds nothing up.
#[derive(Clone, Copy, Debug, Drop)]
pub struct FreeGate;

impl Gate for FreeGate {
    fn before(&self, _writer: u32, _ordinal: u64) {}

    fn after(&self, _writer: u32, _ordinal: u64) {}

    fn round(&self, _number: u64) {}
}
