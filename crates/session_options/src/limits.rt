//! How great runs and what they are told may be.

/// The most words of all rings of a session.
pub const MAX_SESSION_WORDS: u64 = 67_108_864;

/// The most writers of a generated trace.
pub const MAX_GENERATED_WRITERS: u32 = 64;

/// The fewest words of a ring.
pub const MIN_RING: u64 = 1_024;

/// The most words of a ring.
pub const MAX_RING: u64 = 1_048_576;

/// The most frames of a visit of the consumer, and so the most records of an extent.
pub const MAX_BATCH: u32 = 65_536;

/// The most calls of a generated trace.
pub const MAX_GENERATED: u32 = 1_000_000;
