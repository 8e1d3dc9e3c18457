//! Traces whose calls are drawn from a seed.
#![tactic(auto)]

mod generating;
mod generator;
pub mod laws;

pub use generating::generate;
