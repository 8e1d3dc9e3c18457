//! The parts of a log of version 2, as they are put into a new log.

ghost use Rattle.std.specs.Prelude.{◌+◌, ◌<◌, ◌≤◌, ◌++◌, length, take, drop};
ghost use Rattle.std.specs.List.{flat_map};
ghost use Rattle.log_dictionary.specs.BinaryEntries.{entry_bytes};
ghost use Rattle.checkpoint_io.specs.declared.heads.TheConstants.{MAX_FRAGMENT_MESSAGES};
ghost use Rattle.checkpoint_io.specs.Versions.{most_writers, most_body};
ghost use Rattle.checkpoint_io.specs.Blocks.{header_bytes, extent_head_bytes, close_bytes, SpellsFragment};
ghost use Rattle.log_migration.specs.Migrating.{version_2};
ghost use Rattle.log_migration.specs.Migrations.{fragment_bytes, PutsPart};

use crate::new_log::NewLog;
use checkpoint_io::{
    FRAGMENT_HEAD_LEN, Header, MAX_CLOSE_LEN, MAX_EXTENT_HEAD_LEN, MAX_HEADER_LEN, put_close,
    put_extent_head, put_fragment_head, put_header,
};
use log_dictionary::{Dictionary, MAX_ENTRY, Message, entry_len, put_entry};
use std::alloc::AllocError;

/// The version of the new log.
const NEW_VERSION: u8 = 2;

/// Puts the header with its numbers.
pub(crate) fn add_header(header: &Header, log: &mut NewLog) -> Result<(), AllocError>
    requires some_writer { 1 ≤ header.now.writers }
    requires few_writers { header.now.writers ≤ most_writers 2 }
    requires rate { 1 ≤ header.now.clock.rate }
    ensures { PutsPart result log.old log.new (header_bytes (version_2 header.now)) }
{
    let header = Header {
        version: NEW_VERSION,
        writers: header.writers,
        clock: header.clock,
    };
    let mut head = [0; MAX_HEADER_LEN];
    let len = put_header(&header, &mut head);
    log.put(&head[..len])
}

// Puts the entry of a message.
fn add_entry(message: &Message, log: &mut NewLog) -> Result<(), AllocError>
    ensures { PutsPart result log.old log.new (entry_bytes message.now) }
{
    let mut entry = [0; MAX_ENTRY];
    let len = entry_len(message);
    put_entry(message, &mut entry);
    log.put(&entry[..len])
}

// Puts the entries of messages, one behind the other.
fn add_entries(messages: &[Message], log: &mut NewLog) -> Result<(), AllocError>
    ensures { PutsPart result log.old log.new (flat_map entry_bytes messages.now) }
{
    for message in messages {
        add_entry(message, log)?;
    }
    Ok(())
}

/// Puts a fragment of so many messages, from 1 to 16, whose ids count from the first.
pub(crate) fn add_fragment(
    dictionary: &Dictionary,
    first: u32,
    count: u32,
    log: &mut NewLog,
) -> Result<(), AllocError>
    requires some { 1 ≤ count }
    requires few { count ≤ MAX_FRAGMENT_MESSAGES }
    requires within { first + count ≤ length dictionary.now }
    ensures added { PutsPart result log.old log.new (fragment_bytes first (take count (drop first dictionary.now))) }
    ensures spelled { let messages = take count (drop first dictionary.now) in
        SpellsFragment first messages (fragment_bytes first messages) }
{
    let start = first as usize;
    let defined = &dictionary.as_slice()[start..start + count as usize];
    let mut head = [0; FRAGMENT_HEAD_LEN];
    put_fragment_head(first, count as u16, &mut head);
    log.put(&head)?;
    add_entries(defined, log)
}

/// Puts an extent of the writer with this body.
pub(crate) fn add_extent(writer: u32, body: &[u8], log: &mut NewLog) -> Result<(), AllocError>
    requires known { writer < most_writers 2 }
    requires some { 1 ≤ length body.now }
    requires short { length body.now ≤ most_body 2 }
    ensures { PutsPart result log.old log.new (extent_head_bytes 2 writer (length body.now) ++ body.now) }
{
    let mut head = [0; MAX_EXTENT_HEAD_LEN];
    let len = put_extent_head(NEW_VERSION, writer, body.len() as u32, &mut head);
    log.put(&head[..len])?;
    log.put(body)
}

/// Puts the close mark of the writer.
pub(crate) fn add_close(writer: u32, log: &mut NewLog) -> Result<(), AllocError>
    requires known { writer < most_writers 2 }
    ensures { PutsPart result log.old log.new (close_bytes 2 writer) }
{
    let mut mark = [0; MAX_CLOSE_LEN];
    let len = put_close(NEW_VERSION, writer, &mut mark);
    log.put(&mark[..len])
}
