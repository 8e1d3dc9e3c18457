//! The commands that make something of the text of a dictionary.
#![tactic(auto)]

mod counting;
mod heading;
mod injecting;
pub mod laws;

pub use heading::header;
pub use injecting::inject;
