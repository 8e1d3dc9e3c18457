//! Rings of atomic words between the thread of a writer and that of a roamer. No end waits for the other one.
#![tactic(auto)]

mod frames;
mod known;
pub mod laws;
mod places;
mod steps;
mod word_done;
mod word_in;
mod word_out;
mod word_ring;

pub use word_done::WordDone;
pub use word_in::WordIn;
pub use word_out::WordOut;
pub use word_ring::WordRing;
