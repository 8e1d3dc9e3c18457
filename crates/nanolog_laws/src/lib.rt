//! Laws about the whole: what follows of any command, and of commands one after the other.
#![tactic(auto)]

pub mod laws;
