//! C++ sources in which each log statement is a call by the number of its message, and a header for
//! the program that they are compiled into.
#![tactic(auto)]

mod headers;
mod injection;
pub mod laws;
mod outcomes;
mod rewrite;

pub use headers::header;
pub use injection::{InjectFault, inject};
