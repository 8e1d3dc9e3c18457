//! Calls, and the frames in which they are staged, as 64-bit words.
#![tactic(auto)]

mod call;
mod frame;
pub mod laws;
mod read;
mod words;

pub use call::{Call, Calls};
pub use frame::{
    MAX_FRAME_WORDS, NoFrame, TooLong, fitting_frame, frame_id, frame_len, frame_stamp, frame_words,
};
pub use read::{FrameFault, read_frame};
pub use words::text_words;
