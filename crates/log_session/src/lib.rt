//! Sessions: threads that log into rings of their own, and the consumer that writes their log.
#![tactic(auto)]

pub mod laws;
mod refusal;
mod settling;
mod starting;
mod writer;

pub use refusal::{JudgedRefusal, LogRefusal};
pub use settling::settle;
pub use starting::{open_rings, start};
pub use writer::Writer;
