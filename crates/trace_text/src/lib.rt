//! Recorded runs of logging programs, and the text in which they are kept.
#![tactic(auto)]

mod call_fields;
mod call_line;
mod cause;
mod dictionaries;
mod head_lines;
pub mod laws;
mod lines;
mod order;
mod reading;
mod trace;
mod writer_calls;
mod writing;

pub use arg_records::{Call, Calls};
pub use cause::TraceCause;
pub use dictionaries::read_dictionary;
pub use order::{CallPlace, call_count, places_in_order};
pub use reading::{TraceFault, read_text, read_trace};
pub use trace::{MAX_CALLS, MAX_TRACE, Trace};
pub use writer_calls::WriterCalls;
pub use writing::{WriteTraceFault, write_trace};
