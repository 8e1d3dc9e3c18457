//! What is shown of a ring.

/// The positions of a ring, how many frames were published and read whole, and how far it is closed.
#[derive(Clone, Copy, Debug, PartialEq, Eq)]
pub struct RingView {
    /// The position up to which the writer has stored.
    pub written: u64,
    /// That of the producer word.
    pub published: u64,
    /// That of the consumer word.
    pub released: u64,
    /// The released position, as the writer found it last.
    pub seen: u64,
    /// The published position, as the roamer found it last.
    pub loaded: u64,
    /// The position up to which the roamer has read.
    pub read: u64,
    /// How many frames were published.
    pub sent: u64,
    /// How many frames were read whole.
    pub got: u64,
    /// Whether the writer has closed the ring.
    pub closed: bool,
    /// Whether the roamer has learnt that, and has read all that it loaded.
    pub ended: bool,
}
