//! Log files: a header, and blocks behind it.
#![tactic(auto)]

mod block;
mod block_reading;
mod cause;
mod clock_reading;
mod fault;
mod fragment_reading;
mod header;
mod header_reading;
mod heads;
pub mod laws;
mod pending;
mod reader;
mod steps;
mod times;
mod version;
mod writers;

pub use block::Block;
pub use cause::Cause;
pub use fault::BlockFault;
pub use header::Header;
pub use heads::{
    CLOCK_LEN, FRAGMENT_HEAD_LEN, MAX_FRAGMENT_MESSAGES, MAX_LOG, put_clock, put_close,
    put_extent_head, put_fragment_head, put_header,
};
pub use reader::Reader;
pub use version::{
    MAX_BODY, MAX_CLOSE_LEN, MAX_EXTENT_HEAD_LEN, MAX_HEADER_LEN, MAX_READ_BODY, MAX_WRITERS,
    close_len, extent_head_len, has_clocks, header_len, is_known, most_body, most_writers,
    writer_len,
};
