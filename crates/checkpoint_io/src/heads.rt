//! The parts of a log that have one length in its version, in bytes: its header, the heads of
//! fragments and extents, clocks, and close marks. Numbers stand with the low byte first.

ghost use Rattle.std.specs.Prelude.{◌≡◌, ◌+◌, ◌<◌, ◌≤◌, ◌++◌, length, take, drop, true};
ghost use Rattle.std.specs.Hash.{le_bytes};
ghost use Rattle.checkpoint_io.specs.Blocks.{header_bytes, fragment_head_bytes, extent_head_bytes, clock_bytes, close_bytes};
ghost use Rattle.checkpoint_io.specs.Versions.{is_known, header_len, extent_head_len, close_len, most_writers, most_body};
ghost use Rattle.checkpoint_io.specs.Versions as versions;

use crate::header::Header;
use crate::version::writer_len;
use log_dictionary::{Clock, put};

/// The most messages of a fragment.
pub const MAX_FRAGMENT_MESSAGES: u16 = 16;

/// The most bytes of a log that are read.
pub const MAX_LOG: u64 = 134_217_728;

/// The bytes in front of a fragment's entries.
pub const FRAGMENT_HEAD_LEN: usize = 7;

/// The bytes of a clock.
pub const CLOCK_LEN: usize = 25;

pub(crate) const MAGIC: &[u8] = b"NLOG";

pub(crate) const FRAGMENT: u8 = 1;

pub(crate) const EXTENT: u8 = 2;

pub(crate) const CLOCK: u8 = 3;

pub(crate) const CLOSE: u8 = 4;

// Copies a writer, or a number of writers, and gives where it ends.
fn put_writer(version: u8, writer: u32, at: usize, into: &mut [u8]) -> usize
    requires room { at + versions.writer_len version ≤ length into.now }
    ensures put { into.new ≡ take at into.old ++ le_bytes (versions.writer_len version) writer ++ drop result into.old }
    ensures after { result ≡ at + versions.writer_len version }
    ensures kept { length into.new ≡ length into.old }
{
    put(into, at, &writer.to_le_bytes()[..writer_len(version)])
}

/// Writes the header of a log to the front, and gives its length.
pub fn put_header(header: &Header, into: &mut [u8]) -> usize
    requires known_version { is_known header.now.version ≡ true }
    requires some_writer { 1 ≤ header.now.writers }
    requires few_writers { header.now.writers ≤ most_writers header.now.version }
    requires rate { 1 ≤ header.now.clock.rate }
    requires room { header_len header.now.version ≤ length into.now }
    ensures put { into.new ≡ header_bytes header.now ++ drop (header_len header.now.version) into.old }
    ensures len { result ≡ header_len header.now.version }
{
    let at = put(into, 0, MAGIC);
    let at = put(into, at, &[header.version]);
    let at = put_writer(header.version, header.writers, at, into);
    let at = put(into, at, &header.clock.tick.to_le_bytes());
    let at = put(into, at, &header.clock.nanos.to_le_bytes());
    put(into, at, &header.clock.rate.to_le_bytes())
}

/// Writes what stands in front of a fragment's entries to the front, and gives its length, which is
/// 7: the id of the first message, and the number of messages, from 1 to 16.
pub fn put_fragment_head(first: u32, count: u16, into: &mut [u8]) -> usize
    requires some { 1 ≤ count }
    requires few { count ≤ MAX_FRAGMENT_MESSAGES }
    requires room { 7 ≤ length into.now }
    ensures put { into.new ≡ fragment_head_bytes first count ++ drop 7 into.old }
    ensures len { result ≡ 7 }
{
    let at = put(into, 0, &[FRAGMENT]);
    let at = put(into, at, &first.to_le_bytes());
    put(into, at, &count.to_le_bytes())
}

/// Writes what stands in front of an extent's body to the front, and gives its length: the writer,
/// and the length of the body, which is at least 1 and within the version's limit.
pub fn put_extent_head(version: u8, writer: u32, len: u32, into: &mut [u8]) -> usize
    requires known_version { is_known version ≡ true }
    requires known { writer < most_writers version }
    requires some { 1 ≤ len }
    requires short { len ≤ most_body version }
    requires room { extent_head_len version ≤ length into.now }
    ensures put { into.new ≡ extent_head_bytes version writer len ++ drop (extent_head_len version) into.old }
    ensures len { result ≡ extent_head_len version }
{
    let at = put(into, 0, &[EXTENT]);
    let at = put_writer(version, writer, at, into);
    put(into, at, &len.to_le_bytes())
}

/// Writes a clock, which ticks, to the front, and gives its length, which is 25. A log has it in front of
/// all records that have reached its tick.
pub fn put_clock(clock: &Clock, into: &mut [u8]) -> usize
    requires rate { 1 ≤ clock.now.rate }
    requires room { 25 ≤ length into.now }
    ensures put { into.new ≡ clock_bytes clock.now ++ drop 25 into.old }
    ensures len { result ≡ 25 }
{
    let at = put(into, 0, &[CLOCK]);
    let at = put(into, at, &clock.tick.to_le_bytes());
    let at = put(into, at, &clock.nanos.to_le_bytes());
    put(into, at, &clock.rate.to_le_bytes())
}

/// Writes the close mark of a writer to the front, and gives its length.
pub fn put_close(version: u8, writer: u32, into: &mut [u8]) -> usize
    requires known_version { is_known version ≡ true }
    requires known { writer < most_writers version }
    requires room { close_len version ≤ length into.now }
    ensures put { into.new ≡ close_bytes version writer ++ drop (close_len version) into.old }
    ensures len { result ≡ close_len version }
{
    let at = put(into, 0, &[CLOSE]);
    put_writer(version, writer, at, into)
}
