//! Reading and writing as contracts see them: sources, sinks and sets of files, real ones and ones in memory.
#![tactic(auto)]

mod failed;
mod file_sink;
mod file_source;
mod files;
pub mod laws;
mod mem_files;
mod mem_sink;
mod mem_source;
mod open_ids;
mod reading;
mod readings;
mod script;
mod shelf;
mod sink;
mod source;
mod std_calls;
mod std_files;
mod std_sink;
mod std_source;
mod std_tables;
mod text_writer;
mod titles;

pub use failed::Failed;
pub use file_sink::FileSink;
pub use file_source::FileSource;
pub use files::Files;
pub use mem_files::MemFiles;
pub use mem_sink::MemSink;
pub use mem_source::MemSource;
pub use sink::{Sink, write_all};
pub use source::{ReadAllFault, Source, read_to_limit};
pub use std_files::StdFiles;
pub use std_sink::StdSink;
pub use std_source::StdSource;
pub use text_writer::{MAX_HELD, TextWriter};
