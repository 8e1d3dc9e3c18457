//! What the words of the command line ask for.
#![tactic(auto)]

mod command;
pub mod laws;
mod numbers;
mod operands;
mod options;
mod reading;
mod table;
mod usage_text;

pub use command::{Command, command_of};
pub use numbers::{MAX_DIGITS, MAX_ID, MAX_SEED};
pub use operands::MAX_SOURCES;
pub use usage_text::usage;
