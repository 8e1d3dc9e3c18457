use log_dictionary::Clock;

/// A block that was read.
#[derive(Debug, Drop)]
pub enum Block {
    /// Messages, whose ids count from the first one.
    Fragment { first: u32, count: u32 },
    /// Records of a writer. The reader has their body.
    Extent { writer: u32 },
    /// A clock, which counts from its tick on.
    Clock(Clock),
    /// The mark that closes a writer.
    Closed { writer: u32 },
}
