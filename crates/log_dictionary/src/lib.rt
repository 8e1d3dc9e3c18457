//! The messages that the calls of a logger name, their severities, and the clock of a trace.
#![tactic(auto)]

mod binary_entry;
mod clock;
mod clocks;
mod dictionary;
mod fields;
mod formats;
pub mod laws;
mod message;
mod message_line;
mod message_set;
mod numbers;
mod severity;
mod text;
mod writing;

pub use binary_entry::{EntryFault, MAX_ENTRY, entry_len, put, put_entry, read_entry};
pub use clock::Clock;
pub use clocks::{ClockFault, Clocks, MAX_CLOCKS};
pub use dictionary::{AddFault, Added, Dictionary, LineFault, MAX_MESSAGES};
pub use fields::{ends_field, first_field, split_at_byte};
pub use message::{MAX_FILE_NAME, Message};
pub use numbers::{Integer, read_integer, read_number, read_signed, split_integer, split_number};
pub use severity::{Severity, severity_named};
pub use text::{SpelledText, split_text};
pub use writing::push_text;
