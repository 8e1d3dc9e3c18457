//! The program `nanolog`, from its words to its answer.
#![tactic(auto)]

mod commands;

pub use command_base::Status;
pub use commands::{nanolog, quick};
