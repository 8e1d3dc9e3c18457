//! Reading a block of a log.

ghost use Rattle.std.specs.Prelude.{◌≡◌, ◌<◌, ◌≤◌, IfOk, List, length, take, IsErrOf, MatchResult};
ghost use Rattle.nl_io.specs.Count.{Rose};
ghost use Rattle.checkpoint_io.specs.declared.version.TheConstants.{MAX_READ_BODY};
ghost use Rattle.checkpoint_io.specs.Blocks.{Block as LogBlock, messages_of};
ghost use Rattle.checkpoint_io.specs.Places.{log_place, Refuses, ReadsAs};
ghost use Rattle.checkpoint_io.specs.Reading.{open_writer_at, close_at, sized_body_at, long_body_at, extent_at, block_at};
ghost use Rattle.checkpoint_io.specs.Writers.{AreStatesOf};
ghost use Rattle.checkpoint_io.specs.Times.{AreTimesOf};
ghost use Rattle.checkpoint_io.specs.NextBlocks.{TakesClose, TakesBody, TakesExtent, TakesBlock};

use crate::block::Block;
use crate::cause::Cause;
use crate::clock_reading::read_clock;
use crate::fault::BlockFault;
use crate::fragment_reading::read_fragment;
use crate::header::Header;
use crate::heads::{CLOCK, CLOSE, EXTENT, FRAGMENT};
use crate::pending::Pending;
use crate::steps::{take_byte, take_number};
use crate::times::Times;
use crate::version::{has_clocks, most_body, writer_len};
use crate::writers::Writers;
use buffer_extent::judge_body;
use log_dictionary::Dictionary;
use nl_io::Source;
use std::alloc::Global;

// A writer that may still write.
fn take_writer<S: Source>(
    pending: &mut Pending,
    source: &mut S,
    header: &Header,
    writers: &Writers,
) -> Result<u32, BlockFault>
    ensures known { IfOk result (λ writer. writer < header.now.writers) }
    ensures read { (before : List LogBlock) → AreStatesOf writers.now header.now before
        → ReadsAs (open_writer_at header.now before)
        (log_place pending.old (S.left source.old)) (log_place pending.new (S.left source.new)) (S.left source.new)
        result }
    ensures read_fault { IsErrOf result BlockFault.ReadFault
        → Rose (S.faults source.old) (S.faults source.new) }
    ensures counted { ¬ (IsErrOf result BlockFault.ReadFault)
        → S.faults source.new ≡ S.faults source.old }
    ensures count { S.faults source.old ≤ S.faults source.new }
    ensures others { S.rest source.old source.new }
{
    let name = take_number(pending, source, writer_len(header.version))?;
    if name >= u64::from(header.writers) {
        return Err(BlockFault::Damaged(Cause::UnknownWriter));
    }
    let writer = name as u32;
    if writers.is_closed(writer) {
        return Err(BlockFault::Damaged(Cause::AfterClose));
    }
    Ok(writer)
}

// The writer of the close mark behind its tag, which is closed.
fn read_close<S: Source>(
    pending: &mut Pending,
    source: &mut S,
    header: &Header,
    writers: &mut Writers,
) -> Result<u32, BlockFault>
    ensures read { (before : List LogBlock) → AreStatesOf writers.old header.now before
        → MatchResult result
        (λ writer. TakesClose header.now before writer writers.new
        (log_place pending.old (S.left source.old)) (log_place pending.new (S.left source.new)))
        (Refuses (close_at header.now before) (log_place pending.old (S.left source.old)) (S.left source.new)) }
    ensures read_fault { IsErrOf result BlockFault.ReadFault
        → Rose (S.faults source.old) (S.faults source.new) }
    ensures counted { ¬ (IsErrOf result BlockFault.ReadFault)
        → S.faults source.new ≡ S.faults source.old }
    ensures count { S.faults source.old ≤ S.faults source.new }
    ensures others { S.rest source.old source.new }
{
    let writer = take_writer(pending, source, header, writers)?;
    writers.close(writer);
    Ok(writer)
}

// Keeps a body of so many bytes, and tells the stamp of its last record.
fn take_body<S: Source>(
    pending: &mut Pending,
    source: &mut S,
    dictionary: &Dictionary,
    tick: u64,
    last: u64,
    len: usize,
    body: &mut Vec<u8>,
) -> Result<u64, BlockFault>
    requires { 1 ≤ len }
    ensures few { length body.old.items ≤ MAX_READ_BODY → len ≤ MAX_READ_BODY → length body.new.items ≤ MAX_READ_BODY }
    ensures read { MatchResult result
        (λ stamp. TakesBody (sized_body_at dictionary.now tick last len) dictionary.now tick last stamp body.new.items
        (log_place pending.old (S.left source.old)) (log_place pending.new (S.left source.new)))
        (Refuses (sized_body_at dictionary.now tick last len)
        (log_place pending.old (S.left source.old)) (S.left source.new)) }
    ensures read_fault { IsErrOf result BlockFault.ReadFault
        → Rose (S.faults source.old) (S.faults source.new) }
    ensures counted { ¬ (IsErrOf result BlockFault.ReadFault)
        → S.faults source.new ≡ S.faults source.old }
    ensures count { S.faults source.old ≤ S.faults source.new }
    ensures others { S.rest source.old source.new }
{
    if !pending.fill(source, len)? {
        return Err(BlockFault::Damaged(Cause::Cut));
    }
    let bytes = &pending.bytes()[..len];
    let stamp = match judge_body(bytes, dictionary, tick, last) {
        Ok(stamp) => stamp,
        Err(cause) => return Err(BlockFault::Damaged(Cause::Body(cause))),
    };
    body.clear();
    let Ok(()) = body.extend_from_slice(bytes) else {
        return Err(BlockFault::NoMemory);
    };
    pending.skip(len);
    Ok(stamp)
}

// Keeps the body behind the writer of an extent, which has its length in front, and tells the stamp of its last record.
fn read_records<S: Source>(
    pending: &mut Pending,
    source: &mut S,
    dictionary: &Dictionary,
    header: &Header,
    last: u64,
    body: &mut Vec<u8>,
) -> Result<u64, BlockFault>
    ensures few { length body.old.items ≤ MAX_READ_BODY → length body.new.items ≤ MAX_READ_BODY }
    ensures read { MatchResult result
        (λ stamp. TakesBody (long_body_at dictionary.now header.now last) dictionary.now header.now.clock.tick last
        stamp body.new.items
        (log_place pending.old (S.left source.old)) (log_place pending.new (S.left source.new)))
        (Refuses (long_body_at dictionary.now header.now last)
        (log_place pending.old (S.left source.old)) (S.left source.new)) }
    ensures read_fault { IsErrOf result BlockFault.ReadFault
        → Rose (S.faults source.old) (S.faults source.new) }
    ensures counted { ¬ (IsErrOf result BlockFault.ReadFault)
        → S.faults source.new ≡ S.faults source.old }
    ensures count { S.faults source.old ≤ S.faults source.new }
    ensures others { S.rest source.old source.new }
{
    let len = take_number(pending, source, 4)?;
    if len == 0 || len > u64::from(most_body(header.version)) {
        return Err(BlockFault::Damaged(Cause::BadLength));
    }
    take_body(
        pending,
        source,
        dictionary,
        header.clock.tick,
        last,
        len as usize,
        body,
    )
}

// The writer of the extent behind its tag, and the stamp of its last record, which is kept, as its body is.
fn read_extent<S: Source>(
    pending: &mut Pending,
    source: &mut S,
    header: &Header,
    dictionary: &Dictionary,
    writers: &mut Writers,
    body: &mut Vec<u8>,
) -> Result<(u32, u64), BlockFault>
    ensures few { length body.old.items ≤ MAX_READ_BODY → length body.new.items ≤ MAX_READ_BODY }
    ensures read { (before : List LogBlock) → dictionary.now ≡ messages_of before
        → AreStatesOf writers.old header.now before
        → MatchResult result
        (λ extent. TakesExtent header.now before dictionary.now extent.0 extent.1 body.new.items writers.new
        (log_place pending.old (S.left source.old)) (log_place pending.new (S.left source.new)))
        (Refuses (extent_at header.now before) (log_place pending.old (S.left source.old)) (S.left source.new)) }
    ensures read_fault { IsErrOf result BlockFault.ReadFault
        → Rose (S.faults source.old) (S.faults source.new) }
    ensures counted { ¬ (IsErrOf result BlockFault.ReadFault)
        → S.faults source.new ≡ S.faults source.old }
    ensures count { S.faults source.old ≤ S.faults source.new }
    ensures others { S.rest source.old source.new }
{
    let writer = take_writer(pending, source, header, writers)?;
    let last = writers.last(writer);
    let stamp = read_records(pending, source, dictionary, header, last, body)?;
    writers.go_on(writer, stamp);
    Ok((writer, stamp))
}

// The block that stands ahead. What it defines, closes or says last is kept, as its body is, but for a clock; in front
// of a fault some of it may be.
pub fn read_block<S: Source>(
    alloc: Global,
    pending: &mut Pending,
    source: &mut S,
    header: &Header,
    dictionary: &mut Dictionary,
    writers: &mut Writers,
    times: &mut Times,
    body: &mut Vec<u8>,
) -> Result<Block, BlockFault>
    ensures read { (before : List LogBlock) → dictionary.old ≡ messages_of before
        → AreStatesOf writers.old header.now before → AreTimesOf times.old header.now before
        → MatchResult result
        (λ block. TakesBlock header.now before block dictionary.new writers.new times.new body.new.items
        (log_place pending.old (S.left source.old)) (log_place pending.new (S.left source.new)))
        (Refuses (block_at header.now before) (log_place pending.old (S.left source.old)) (S.left source.new)) }
    ensures defined { take (length dictionary.old) dictionary.new ≡ dictionary.old }
    ensures clocks { times.new.clocks ≡ times.old.clocks }
    ensures few { length body.old.items ≤ MAX_READ_BODY → length body.new.items ≤ MAX_READ_BODY }
    ensures read_fault { IsErrOf result BlockFault.ReadFault
        → Rose (S.faults source.old) (S.faults source.new) }
    ensures counted { ¬ (IsErrOf result BlockFault.ReadFault)
        → S.faults source.new ≡ S.faults source.old }
    ensures count { S.faults source.old ≤ S.faults source.new }
    ensures others { S.rest source.old source.new }
{
    let tag = take_byte(pending, source)?;
    if tag == FRAGMENT {
        return read_fragment(alloc, pending, source, dictionary);
    }
    if tag == EXTENT {
        let (writer, last) = read_extent(pending, source, header, dictionary, writers, body)?;
        times.go_on(last);
        return Ok(Block::Extent { writer });
    }
    if tag == CLOCK && has_clocks(header.version) {
        let clock = read_clock(pending, source, times)?;
        return Ok(Block::Clock(clock));
    }
    if tag == CLOSE {
        let writer = read_close(pending, source, header, writers)?;
        return Ok(Block::Closed { writer });
    }
    Err(BlockFault::Damaged(Cause::BadBlock))
}
