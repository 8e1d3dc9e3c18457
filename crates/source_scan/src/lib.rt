//! The statements of a logger in C++ sources.
#![tactic(auto)]

mod arguments;
mod cursor;
mod escape;
mod found;
mod items;
pub mod laws;
mod line_change;
mod literals;
mod position;
mod pri_word;
mod reading;
mod severity;
mod statement;
mod text;
mod unescape;

pub use arguments::{
    Arguments, arguments_of, closing_place, count_arguments, is_mark, split_argument,
};
pub use cursor::Cursor;
pub use escape::Meaning;
pub use found::{BadStatement, Found, Statement, StatementCause};
pub use items::format_bytes;
pub use line_change::{LineChange, MAX_LINE, read_directive};
pub use literals::{raw_bytes, string_bytes};
pub use position::{PlacedChange, SourcePosition, line_changes};
pub use pri_word::{PriConversion, pri_conversion};
pub use reading::StatementReading;
pub use severity::named_severity;
pub use statement::{MAX_SOURCE, ScanInput, scan};
pub use text::{bytes_of, is_text, is_word, unspliced};
pub use unescape::literal_bytes;
