//! Logging from C: the calls of `nanolog.h`, which says what each does.
#![tactic(auto)]

mod answers;
mod exports;
mod handle;
pub mod laws;
