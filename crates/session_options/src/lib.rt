//! How a session runs, and the limits of runs: what a command line can ask for.
#![tactic(auto)]

pub mod laws;
mod limits;
mod options;
mod version;

pub use limits::{
    MAX_BATCH, MAX_GENERATED, MAX_GENERATED_WRITERS, MAX_RING, MAX_SESSION_WORDS, MIN_RING,
};
pub use options::{DEFAULT_BATCH, DEFAULT_RING, Options, Policy};
pub use version::{MAX_WRITERS, has_clocks, is_known, most_writers};
