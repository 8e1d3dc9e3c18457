//! The formats of `fprintf` without floating conversions: their grammar, and the arguments that they take.
#![tactic(auto)]

mod arg_type;
mod argument;
mod bytes;
mod fault;
mod format;
pub mod laws;
mod limits;
mod parsing;
mod parts;
mod piece;
mod short_bytes;

pub use arg_type::{ArgType, fits};
pub use argument::{Arg, Argument, Value, Values};
pub use bytes::Bytes;
pub use fault::{FormatCause, ParseFault};
pub use format::{Format, parse};
pub use limits::{MAX_ARGUMENTS, MAX_FORMAT, MAX_SIZE, MAX_TEXT};
pub use piece::{Conversion, Length, Piece, Size, Spec};
