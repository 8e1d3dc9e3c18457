//! The text that printf writes for a call, and the line of the log that the call makes.
#![tactic(auto)]

mod conversion;
mod digits;
mod field;
pub mod laws;
mod line_parts;
mod log_line;
mod origins;
mod padding;
mod text;

pub use line_parts::LineParts;
pub use log_line::{LineWriter, line};
pub use origins::Origins;
pub use text::render;
