//! Byte strings that wait, in order, in few pieces of memory.
#![tactic(auto)]

mod chunk;
mod queue;

pub use queue::BytesQueue;
