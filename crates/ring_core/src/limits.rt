//! How great positions may be.

/// No position in the stream of a ring goes beyond this one.
pub const MAX_POSITION: u64 = 4_611_686_018_427_387_904;

/// How many places below [`MAX_POSITION`] are to be left where a frame is offered. No frame takes as many.
pub const OFFER_ROOM: u64 = 1_024;
