//! Logs of version 2: their parts, their clocks, and what they may hold, beside those of version 1.

use crate::logs::{count_blocks, push_message, read_all};
use crate::tables::{Told, bytes_of, check_rows, cut};
use checkpoint_io::{
    CLOCK_LEN, Header, MAX_CLOSE_LEN, MAX_EXTENT_HEAD_LEN, MAX_HEADER_LEN, Reader, put_clock,
    put_close, put_extent_head, put_header,
};
use log_dictionary::{Clock, Clocks, Dictionary};
use nl_io::MemSource;
use std::alloc::{AllocError, Global};
use std::test::Fail;

/// A log of 97 bytes in hexadecimal: the header up to byte 30, a clock up to 55, a message up to 81, a record of it up
/// to 93, and the close mark of its writer.
const LOG: &str =
    "4e 4c 4f 47 02 01 00 e8 03 00 00 00 00 00 00 00 00 44 5e 8f 86 05 15 00 94 35 77 00 00 00 00 \
    03 d0 07 00 00 00 00 00 00 00 ca de 99 8f 86 05 15 00 ca 9a 3b 00 00 00 00 \
    01 00 00 00 00 01 00 03 0c 00 00 00 06 00 73 72 76 2e 63 63 04 00 78 3d 25 64 \
    02 00 00 05 00 00 00 20 eb 03 01 07 04 00 00";

/// Its header.
const HEADER: Header = Header {
    version: 2,
    writers: 1,
    clock: Clock {
        tick: 1000,
        nanos: 1_514_764_800_000_000_000,
        rate: 2_000_000_000,
    },
};

/// Its second clock.
const SECOND: Clock = Clock {
    tick: 2000,
    nanos: 1_514_764_801_000_000_000,
    rate: 1_000_000_000,
};

/// Puts the header behind the log.
fn push_header(log: &mut Vec<u8>) -> Result<(), AllocError> {
    let mut head = [0; MAX_HEADER_LEN];
    let len = put_header(&HEADER, &mut head);
    log.extend_from_slice(&head[..len])
}

/// Puts the second clock behind the log.
fn push_second(log: &mut Vec<u8>) -> Result<(), AllocError> {
    let mut clock = [0; CLOCK_LEN];
    put_clock(&SECOND, &mut clock);
    log.extend_from_slice(&clock)
}

/// Puts an extent of the first writer with one record, and its close mark, behind the log.
fn push_record(log: &mut Vec<u8>) -> Result<(), AllocError> {
    let mut head = [0; MAX_EXTENT_HEAD_LEN];
    let len = put_extent_head(2, 0, 5, &mut head);
    log.extend_from_slice(&head[..len])?;
    log.extend_from_slice(&[0x20, 0xeb, 3, 1, 7])?;
    let mut mark = [0; MAX_CLOSE_LEN];
    let len = put_close(2, 0, &mut mark);
    log.extend_from_slice(&mark[..len])
}

/// The log of two clocks and one message, made part by part.
fn log_of(alloc: Global, line: &str) -> Result<Vec<u8>, Fail> {
    let mut dictionary = Dictionary::make(alloc);
    dictionary.read_line(line.as_bytes())?;
    let mut log = Vec::new(alloc);
    push_header(&mut log)?;
    push_second(&mut log)?;
    for message in dictionary.iter() {
        push_message(message, &mut log)?;
    }
    push_record(&mut log)?;
    Ok(log)
}

/// Whether the log of this message is that log.
fn is_log(alloc: Global, line: &str) -> Result<bool, Fail> {
    let wanted = bytes_of(alloc, LOG)?;
    Ok(log_of(alloc, line)? == wanted)
}

/// Whether these are the two clocks.
fn are_both(clocks: &Clocks) -> bool {
    clocks.len() == 2 && clocks.get(0) == Some(HEADER.clock) && clocks.get(1) == Some(SECOND)
}

/// Whether a reader of the log has its two clocks behind the last block.
fn both_are_read(alloc: Global) -> Result<bool, Fail> {
    let log = bytes_of(alloc, LOG)?;
    let mut source = MemSource::make(alloc, &log, 7, &[])?;
    let Ok(mut reader) = Reader::start(alloc, &mut source) else {
        return Err("the log has no header".into());
    };
    let (count, fault) = count_blocks(&mut reader, &mut source);
    Ok(count == 4 && fault.is_none() && are_both(reader.clocks()))
}

#[test]
fn parts_make_a_log_of_two_clocks(rt: HostRuntime) -> Result<(), Fail> {
    assert!(rt; is_log(rt.alloc(), "message 0 NOTICE 12 \"srv.cc\" \"x=%d\"")?);
    assert!(rt; both_are_read(rt.alloc())?);
    Ok(())
}

/// Puts so many clocks behind the log, the first of which has the tick 1.
fn push_clocks(count: u64, log: &mut Vec<u8>) -> Result<(), AllocError> {
    let mut room = [0; CLOCK_LEN];
    for past in 0..count {
        let tick = past.saturating_add(1);
        let clock = Clock {
            tick,
            nanos: 0,
            rate: 1,
        };
        put_clock(&clock, &mut room);
        log.extend_from_slice(&room)?;
    }
    Ok(())
}

/// The log with this version and number of writers, whose clock has the tick 0, with a message that is empty, so many
/// clocks, and these blocks.
fn limited_log(alloc: Global, front: &str, clocks: u64, blocks: &str) -> Result<Vec<u8>, Fail> {
    let words = format!(in alloc;
        "4e 4c 4f 47 {front} 16*00 01 7*00 01 4*00 01 00 01 4*00 01 00 66 00 00"
    )?;
    let mut log = bytes_of(alloc, &words)?;
    push_clocks(clocks, &mut log)?;
    let back = bytes_of(alloc, blocks)?;
    log.extend_from_slice(&back)?;
    Ok(log)
}

/// How such a log is read.
struct LimitsTold;

impl Told for LimitsTold {
    fn told(alloc: Global, row: &str) -> Result<String, Fail> {
        let (front, rest) = cut(row)?;
        let (clocks, blocks) = cut(rest)?;
        let log = limited_log(alloc, front, clocks.parse()?, blocks)?;
        let mut source = MemSource::make(alloc, &log, 65_536, &[])?;
        Ok(read_all(alloc, &mut source)?)
    }
}

/// Version and writers, clocks, blocks, and how the log is read: the most writers, clocks and bytes of a body, and one
/// more of each. A body has a record in each byte.
const LIMITS: &str = "\
01 40|0||1 to 47;;01 41|0||0 to 0: 3 BadHeader;;02 00 04|0||1 to 48;;02 01 04|0||0 to 0: 3 BadHeader
01 01|1||1 to 47: 5 BadBlock;;02 01 00|255||256 to 6423;;02 01 00|256||256 to 6423: 24 ClockCount
01 01|0|02 00 00 00 01 00 65536*00|2 to 65589;;01 01|0|02 00 01 00 01 00 65537*00|1 to 47: 10 BadLength
02 01 00|0|02 00 00 01 00 01 00 65537*00|2 to 65592;;02 01 00|0|02 00 00 00 00 10 00 1048576*00|2 to 1048631
02 01 00|0|02 00 00 01 00 10 00 1048577*00|1 to 48: 10 BadLength";

#[test]
fn logs_of_each_version_have_limits(rt: HostRuntime) -> Result<(), Fail> {
    check_rows::<LimitsTold, _>(&rt, LIMITS)
}
