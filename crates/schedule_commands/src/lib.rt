//! The command over schedules.
#![tactic(auto)]

pub mod laws;
mod playing;
mod reading;

pub use playing::schedule;
