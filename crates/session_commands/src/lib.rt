//! The commands that run sessions: the only ones that ask for threads.
#![tactic(auto)]

mod replaying;
mod selftesting;
mod telling;

pub use replaying::replay;
pub use selftesting::selftest;
