//! What a line of the log is made of.

use log_dictionary::Message;

/// What a line is made of beside the clock: a call, and what the lines of its message have in
/// common ([`crate::Origins`]).
#[derive_where(Clone, Copy)]
pub struct LineParts<'a, A> {
    pub writer: u32,
    pub message: &'a Message,
    pub origin: &'a [u8],
    pub stamp: u64,
    pub args: &'a [A],
}
