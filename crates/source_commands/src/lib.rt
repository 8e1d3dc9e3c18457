//! The commands over sources.
#![tactic(auto)]

pub mod laws;
mod preprocessing;
mod sources;

pub use preprocessing::preprocess;
