//! What each end of a ring has done, and what it knows of the other end.

use std::collections::LinkedList;

/// What the writer's end of a ring has done, and what it knows. No value of it is made.
pub struct WriterRecord {
    /// The words that it has stored, in order. A 0 where a frame would begin is a wrap mark.
    pub stream: LinkedList<u64>,
    /// The released position, as it found it last.
    pub seen: u64,
    /// The position that it published last.
    pub published: u64,
    /// Whether it has closed the ring.
    pub closed: bool,
    /// How often it looked for the released position.
    pub looks: u64,
    /// How many steps it has made.
    pub steps: u64,
}

/// What the roamer's end of a ring has done, and what it knows. No value of it is made.
pub struct RoamerRecord {
    /// The words that it has read, in order.
    pub stream: LinkedList<u64>,
    /// The published position, as it found it last.
    pub loaded: u64,
    /// Whether it found the ring closed.
    pub learnt: bool,
    /// The position that it released last.
    pub released: u64,
    /// How often it loaded the published position.
    pub loads: u64,
    /// How many steps it has made.
    pub steps: u64,
}
