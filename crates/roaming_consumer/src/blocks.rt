//! The other parts of a log, as they are written to a sink: its header, extents and close marks.

ghost use Rattle.std.specs.Prelude.{◌≡◌, ◌<◌, ◌≤◌, ◌++◌, true, length};
ghost use Rattle.checkpoint_io.specs.Versions.{is_known, most_writers, most_body};
ghost use Rattle.checkpoint_io.specs.Blocks.{header_bytes, extent_head_bytes, close_bytes};
ghost use Rattle.roaming_consumer.specs.Sinks.{Sends};

use checkpoint_io::{
    Header, MAX_CLOSE_LEN, MAX_EXTENT_HEAD_LEN, MAX_HEADER_LEN, put_close, put_extent_head,
    put_header,
};
use nl_io::{Failed, Sink, write_all};

/// Writes the header of a log.
pub(crate) fn write_header<K: Sink>(header: &Header, sink: &mut K) -> Result<(), Failed>
    requires known_version { is_known header.now.version ≡ true }
    requires some_writer { 1 ≤ header.now.writers }
    requires few_writers { header.now.writers ≤ most_writers header.now.version }
    requires rate { 1 ≤ header.now.clock.rate }
    ensures sent { Sends result (header_bytes header.now)
        (K.put sink.old) (K.put sink.new) (K.faults sink.old) (K.faults sink.new) }
    ensures others { K.rest sink.old sink.new }
{
    let mut head = [0; MAX_HEADER_LEN];
    let len = put_header(header, &mut head);
    write_all(sink, &head[..len])
}

/// Writes an extent of the writer with this body.
pub(crate) fn write_extent<K: Sink>(
    version: u8,
    writer: u32,
    body: &[u8],
    sink: &mut K,
) -> Result<(), Failed>
    requires known_version { is_known version ≡ true }
    requires known { writer < most_writers version }
    requires some { 1 ≤ length body.now }
    requires short { length body.now ≤ most_body version }
    ensures sent { Sends result (extent_head_bytes version writer (length body.now) ++ body.now)
        (K.put sink.old) (K.put sink.new) (K.faults sink.old) (K.faults sink.new) }
    ensures others { K.rest sink.old sink.new }
{
    let mut head = [0; MAX_EXTENT_HEAD_LEN];
    let len = put_extent_head(version, writer, body.len() as u32, &mut head);
    write_all(sink, &head[..len])?;
    write_all(sink, body)
}

/// Writes the close mark of the writer.
pub(crate) fn write_close<K: Sink>(version: u8, writer: u32, sink: &mut K) -> Result<(), Failed>
    requires known_version { is_known version ≡ true }
    requires known { writer < most_writers version }
    ensures sent { Sends result (close_bytes version writer)
        (K.put sink.old) (K.put sink.new) (K.faults sink.old) (K.faults sink.new) }
    ensures others { K.rest sink.old sink.new }
{
    let mut mark = [0; MAX_CLOSE_LEN];
    let len = put_close(version, writer, &mut mark);
    write_all(sink, &mark[..len])
}
