//! Why a call isn't logged.

use ring_core::Full;

/// Why a call wasn't logged.
#[derive(Clone, Copy, Debug, PartialEq, Eq)]
pub enum LogRefusal {
    /// The ring had too little room.
    Full(Full),
    /// The frame of the call would have more than [`MAX_FRAME_WORDS`](arg_records::MAX_FRAME_WORDS) words.
    TooLong,
}

/// Why a call wasn't logged whose arguments were judged with it.
#[derive(Clone, Copy, Debug, PartialEq, Eq)]
pub enum JudgedRefusal {
    /// The arguments don't fit the types of the call's message.
    Misfit,
    /// The frame of the call would have more than [`MAX_FRAME_WORDS`](arg_records::MAX_FRAME_WORDS) words.
    TooLong,
    /// The ring had too little room.
    Full(Full),
}
