//! Logs: their parts, and the most that they may hold.

ghost use Rattle.std.specs.Prelude.{None};

use crate::tables::{Told, bytes_of, check_rows, joined};
use checkpoint_io::{
    BlockFault, FRAGMENT_HEAD_LEN, Header, MAX_CLOSE_LEN, MAX_EXTENT_HEAD_LEN, MAX_HEADER_LEN,
    Reader, put_close, put_extent_head, put_fragment_head, put_header,
};
use log_dictionary::{Clock, Dictionary, MAX_ENTRY, Message, entry_len, put_entry};
use nl_io::{Failed, MemSource, Source};
use std::alloc::{AllocError, Global};
use std::test::Fail;

/// A log of 68 bytes in hexadecimal: the header up to byte 30, a message up to 56, a record of it up to 66, and the
/// close mark of its writer.
const LOG: &str =
    "4e 4c 4f 47 01 01 e8 03 00 00 00 00 00 00 00 00 44 5e 8f 86 05 15 00 94 35 77 00 00 00 00 \
    01 00 00 00 00 01 00 03 0c 00 00 00 06 00 73 72 76 2e 63 63 04 00 78 3d 25 64 02 00 04 00 00 00 10 03 01 07 04 00";

/// Its header, and that of the other logs.
const HEADER: Header = Header {
    version: 1,
    writers: 1,
    clock: Clock {
        tick: 1000,
        nanos: 1_514_764_800_000_000_000,
        rate: 2_000_000_000,
    },
};

/// Puts the header behind the log.
fn push_header(log: &mut Vec<u8>) -> Result<(), AllocError> {
    let mut head = [0; MAX_HEADER_LEN];
    let len = put_header(&HEADER, &mut head);
    log.extend_from_slice(&head[..len])
}

/// Puts a fragment that has this message alone behind the log.
pub(crate) fn push_message(message: &Message, log: &mut Vec<u8>) -> Result<(), AllocError> {
    let mut head = [0; FRAGMENT_HEAD_LEN];
    put_fragment_head(0, 1, &mut head);
    log.extend_from_slice(&head)?;
    let mut room = [0; MAX_ENTRY];
    let entry = &mut room[..entry_len(message)];
    put_entry(message, entry);
    log.extend_from_slice(entry)
}

/// Puts an extent of the first writer with this body of four bytes, and its close mark, behind the log.
fn push_records(body: &[u8; 4], log: &mut Vec<u8>) -> Result<(), AllocError> {
    let mut head = [0; MAX_EXTENT_HEAD_LEN];
    let len = put_extent_head(1, 0, 4, &mut head);
    log.extend_from_slice(&head[..len])?;
    log.extend_from_slice(body)?;
    let mut mark = [0; MAX_CLOSE_LEN];
    let len = put_close(1, 0, &mut mark);
    log.extend_from_slice(&mark[..len])
}

/// The log of one message, made part by part.
fn log_of(alloc: Global, line: &str) -> Result<Vec<u8>, Fail> {
    let mut dictionary = Dictionary::make(alloc);
    dictionary.read_line(line.as_bytes())?;
    let mut log = Vec::new(alloc);
    push_header(&mut log)?;
    for message in dictionary.iter() {
        push_message(message, &mut log)?;
    }
    push_records(&[0x10, 3, 1, 7], &mut log)?;
    Ok(log)
}

/// Whether the log of one message is that log.
fn is_log(alloc: Global, line: &str) -> Result<bool, Fail> {
    let wanted = bytes_of(alloc, LOG)?;
    Ok(log_of(alloc, line)? == wanted)
}

#[test]
fn parts_make_a_log(rt: HostRuntime) -> Result<(), Fail> {
    assert!(rt; is_log(rt.alloc(), "message 0 NOTICE 12 \"srv.cc\" \"x=%d\"")?);
    Ok(())
}

/// How reading ended: how many blocks were read, the offset, and the fault.
fn ending(
    alloc: Global,
    blocks: u64,
    offset: u64,
    fault: BlockFault,
) -> Result<String, AllocError> {
    match fault {
        BlockFault::Damaged(cause) => {
            let number = cause.number();
            let name = cause.name();
            format!(in alloc; "{blocks} to {offset}: {number} {name}")
        }
        _ => format!(in alloc; "{blocks} to {offset}: {fault:?}"),
    }
}

/// How many blocks of a source are read, to its end or to a fault, or till there are very many.
pub(crate) fn count_blocks<S: Source>(
    reader: &mut Reader,
    source: &mut S,
) -> (u64, Option<BlockFault>) {
    for count in 0..10_000u64 {
        if reader.failed() {
            break;
        }
        match reader.next_block(source) {
            Ok(Some(_)) => {}
            Ok(None) => return (count, None),
            Err(fault) => return (count, Some(fault)),
        }
    }
    (10_000, None)
}

/// How the blocks of a source are read, to its end or to a fault.
fn read_blocks<S: Source>(
    alloc: Global,
    reader: &mut Reader,
    source: &mut S,
) -> Result<String, AllocError> {
    let (count, fault) = count_blocks(reader, source);
    let offset = reader.offset();
    match fault {
        Some(fault) => ending(alloc, count, offset, fault),
        None => format!(in alloc; "{count} to {offset}"),
    }
}

/// How a source is read to its end or to a fault.
pub(crate) fn read_all<S: Source>(alloc: Global, source: &mut S) -> Result<String, AllocError> {
    match Reader::start(alloc, source) {
        Ok(mut reader) => read_blocks(alloc, &mut reader, source),
        Err(fault) => ending(alloc, 0, 0, fault),
    }
}

/// Appends a fragment of 16 messages, each of which has its id as its line.
fn push_fragment(log: &mut Vec<u8>, first: u32) -> Result<(), AllocError> {
    let [a, b, c, d] = first.to_le_bytes();
    log.extend_from_slice(&[1, a, b, c, d, 16, 0])?;
    for place in 0..16 {
        let [a, b, c, d] = first.saturating_add(place).to_le_bytes();
        log.extend_from_slice(&[1, a, b, c, d, 1, 0, b'f', 0, 0])?;
    }
    Ok(())
}

/// The bytes of so many such fragments.
fn full_fragments(alloc: Global, count: u16) -> Result<Vec<u8>, AllocError> {
    let mut log = Vec::new(alloc);
    push_header(&mut log)?;
    for fragment in 0..count {
        push_fragment(&mut log, 16 * u32::from(fragment))?;
    }
    Ok(log)
}

/// A log that is made as it is read: a front, the same extent so many times, and a back.
#[derive(Drop)]
struct LongLog {
    front: Vec<u8>,
    extent: Vec<u8>,
    back: Vec<u8>,
    times: u32,
    /// How many of these parts were read.
    part: u32,
    /// How much of the next one.
    at: usize,
}

impl LongLog {
    /// The part that is read.
    fn part(&self) -> &[u8] {
        if self.part == 0 {
            &self.front
        } else if self.part <= self.times {
            &self.extent
        } else {
            &self.back
        }
    }
}

impl Source for LongLog {
    ghost left = { λ _. None };

    ghost faults = { λ _. 0 };

    ghost rest = { λ _ _. Unit {0} };

    ghost rest_same = { λ _. tt };

    ghost rest_then = { λ _ _ _ _ _. tt };

    fn read(&mut self, into: &mut [u8]) -> Result<usize, Failed> {
        let left = self.part().get(self.at..).unwrap_or(&[]);
        let count = left.len().min(into.len());
        into[..count].copy_from_slice(&left[..count]);
        let is_whole = count == left.len();
        self.at = self.at.saturating_add(count);
        if is_whole && self.part <= self.times {
            self.part = self.part.saturating_add(1);
            self.at = 0;
        }
        Ok(count)
    }
}

/// An extent of 65,542 bytes in hexadecimal.
const EXTENT: &str = "02 00 00 00 01 00§16* 00 02 a0 0f 4000*61§ 00 02 bc 05 1468*61";

/// An extent of 53,205 bytes, and a close mark.
const BACK: &str = "02 00 cf cf 00 00§13* 00 02 a0 0f 4000*61§ 00 02 77 04 1143*61 04 00";

fn bytes_joined(alloc: Global, words: &str) -> Result<Vec<u8>, Fail> {
    let words = joined(alloc, words)?;
    bytes_of(alloc, &words)
}

/// The header and the message `%s`.
fn long_front(alloc: Global) -> Result<Vec<u8>, AllocError> {
    let mut front = Vec::new(alloc);
    push_header(&mut front)?;
    front.extend_from_slice(&[
        1, 0, 0, 0, 0, 1, 0, 1, 0, 0, 0, 0, 1, 0, b'f', 2, 0, b'%', b's',
    ])?;
    Ok(front)
}

/// The header, the message `%s`, 2,047 extents of 65,542 bytes, which together take 134,164,474, an extent of the
/// 53,205 bytes that are left to the limit, and a close mark.
fn long_log(alloc: Global) -> Result<LongLog, Fail> {
    let front = long_front(alloc)?;
    let extent = bytes_joined(alloc, EXTENT)?;
    let back = bytes_joined(alloc, BACK)?;
    Ok(LongLog {
        front,
        extent,
        back,
        times: 2047,
        part: 0,
        at: 0,
    })
}

/// The bytes of so many fragments of 16 messages and one message more.
fn one_message_more(alloc: Global, fragments: u16) -> Result<Vec<u8>, AllocError> {
    let mut log = full_fragments(alloc, fragments)?;
    let [a, b, c, d] = (16 * u32::from(fragments)).to_le_bytes();
    log.extend_from_slice(&[1, a, b, c, d, 1, 0, 1, 0, 0, 0, 0, 1, 0, b'g', 0, 0])?;
    Ok(log)
}

/// How a log is read that has so many fragments of 16 messages and one message more.
struct MessagesRead;

impl Told for MessagesRead {
    fn told(alloc: Global, fragments: &str) -> Result<String, Fail> {
        let log = one_message_more(alloc, fragments.parse()?)?;
        let mut source = MemSource::make(alloc, &log, 65_536, &[])?;
        Ok(read_all(alloc, &mut source)?)
    }
}

/// How many fragments, and how the log is read.
const FRAGMENTS: &str = "4095|4096 to 683912;;4096|4096 to 684062: 10 BadLength";

#[test]
fn a_log_has_65_536_messages_at_most(rt: HostRuntime) -> Result<(), Fail> {
    check_rows::<MessagesRead, _>(&rt, FRAGMENTS)
}

#[test]
fn a_log_has_134_217_728_bytes_at_most(rt: HostRuntime) -> Result<(), Fail> {
    let told = read_all(rt.alloc(), &mut long_log(rt.alloc())?)?;
    assert_eq!(rt; told.as_str(), "2049 to 134217728: 20 TooLarge");
    Ok(())
}
