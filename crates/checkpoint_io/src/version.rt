//! What depends on the version of a log: all of it stands here.

ghost use Rattle.std.specs.Prelude.{◌≡◌};
ghost use Rattle.checkpoint_io.specs.Versions as versions;

pub use session_options::{MAX_WRITERS, has_clocks, is_known, most_writers};

/// The most bytes of an extent's body in version 1.
pub const MAX_BODY: u32 = 65_536;

/// At least as many bytes as an extent's body has, in any version.
pub const MAX_READ_BODY: usize = 1_048_576;

/// At least as many bytes as a header has, in any version.
pub const MAX_HEADER_LEN: usize = 31;

/// At least as many bytes as stand in front of an extent's body, in any version.
pub const MAX_EXTENT_HEAD_LEN: usize = 7;

/// At least as many bytes as a close mark has, in any version.
pub const MAX_CLOSE_LEN: usize = 3;

/// The bytes of the number of writers, and of each writer.
pub fn writer_len(version: u8) -> usize
    ensures { result ≡ versions.writer_len version }
{
    match version {
        1 => 1,
        _ => 2,
    }
}

/// The most bytes of an extent's body.
pub fn most_body(version: u8) -> u32
    ensures { result ≡ versions.most_body version }
{
    match version {
        1 => MAX_BODY,
        _ => 1_048_576,
    }
}

/// The bytes of a header.
pub fn header_len(version: u8) -> usize
    ensures { result ≡ versions.header_len version }
{
    29 + writer_len(version)
}

/// The bytes in front of an extent's body.
pub fn extent_head_len(version: u8) -> usize
    ensures { result ≡ versions.extent_head_len version }
{
    5 + writer_len(version)
}

/// The bytes of a close mark.
pub fn close_len(version: u8) -> usize
    ensures { result ≡ versions.close_len version }
{
    1 + writer_len(version)
}
