//! Schedules: steps of rings as text, a line for each, and what is printed of them. A schedule shows by hand what the
//! two ends of a ring do to its words, one load or store at a time.
#![tactic(auto)]

mod cause;
mod head_line;
pub mod laws;
mod playing;
mod printing;
mod step_line;
mod stepping;

pub use cause::ScheduleCause;
pub use head_line::MAX_WORDS;
pub use playing::{MAX_STEPS, MAX_TEXT, ScheduleFault, play};
