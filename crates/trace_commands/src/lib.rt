//! The commands over traces, and the reading of a trace, or of the text of a dictionary, from a file.
#![tactic(auto)]

mod directing;
mod generating;
pub mod laws;
mod lines;
mod reading;

pub use directing::direct;
pub use generating::generate;
pub use reading::{dictionary_of_file, trace_of_file};
