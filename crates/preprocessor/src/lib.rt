//! What the statements of a program's C++ sources come to: their messages, each once and with a
//! number, and what of the sources is refused.
#![tactic(auto)]

pub mod laws;
mod numbering;
mod refusal;
mod words;

pub use numbering::{Numbering, message_of};
pub use refusal::{RefusalCause, SourceRefusal};
pub use source_scan::MAX_SOURCE;
pub use words::{push_refusal, refusal_lines};
