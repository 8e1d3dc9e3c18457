//! Sessions over recorded runs: each writer's calls are made in a thread of its own, and one consumer writes their log.
#![tactic(auto)]

mod consuming;
mod drops;
mod finishing;
mod gate;
pub mod laws;
mod level;
mod outcome;
mod preparing;
mod session;
mod worker;
mod workplace;

pub use drops::{Dropped, Drops};
pub use gate::{FreeGate, Gate};
pub use outcome::{Outcome, RunFault};
pub use session::run;
