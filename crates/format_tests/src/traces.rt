//! Traces as they are written, and the order of stamps.

use crate::tables::{Told, check_rows, joined};
use nl_io::MemSink;
use stamp_merge::merge_order;
use std::alloc::Global;
use std::test::Fail;
use trace_text::{read_text, write_trace};

/// What stands before the calls, and how it is written.
const HEAD: &str = r#"nanolog-trace 1
message 0 NOTICE 4294967295 "a\x41" "%d %u %ld %lu %*.*s"
message 1 DEBUG 0 "\xC3b" "\x25s\x09"
clock 1000 18446744073709551615 7
writers 2
"#;

const WRITTEN_HEAD: &str = r#"nanolog-trace 1
message 0 NOTICE 4294967295 "aA" "%d %u %ld %lu %*.*s"
message 1 DEBUG 0 "\xc3b" "%s\t"
clock 1000 18446744073709551615 7
writers 2
"#;

/// Lines of calls, and what is written of them; `=` is the same.
const WRITTEN: &str = r#"
call 0 1000 0 -2147483648 0 -9223372036854775808 0 -4095 -2147483648 ""␊|=
call 1 1000 0 2147483647 4294967295 9223372036854775807 18446744073709551615 4095 4095 "a b"␊|=
call 1 18446744073709551615 0 0 1 -1 10 0 -1 "0"␊|=;;call 0 1003 1 ""␊|=;;call 0 1003 1 "\"\\\n\t"␊|=;;|=
call 0 1003 1 "a\x41\n"␊|call 0 1003 1 "aA\n"␊
call 0 1003 1 "\x22\x5C\x5c\x0a\x0A\x09"␊|call 0 1003 1 "\"\\\\\n\n\t"␊
call 0 1003 1 "\x01\x08\x0b\x0D\x1F\x20"␊|call 0 1003 1 "\x01\x08\x0b\x0d\x1f "␊
call 0 1003 1 "\x7e\x7F\x7f\x80\xFf"␊|call 0 1003 1 "~\x7f\x7f\x80\xff"␊"#;

/// Calls of both writers in the order of a file, and as they are written.
const MIXED: &str = "\
call 1 1003 1 \"2\"␊call 0 1005 1 \"5\"␊call 1 1003 1 \"3\"␊call 1 1004 1 \"4\"␊\
call 0 1005 1 \"6\"␊call 1 1005 1 \"7\"␊|\
call 1 1003 1 \"2\"␊call 1 1003 1 \"3\"␊call 1 1004 1 \"4\"␊\
call 0 1005 1 \"5\"␊call 0 1005 1 \"6\"␊call 1 1005 1 \"7\"␊";

/// A call whose text has all bytes but 0, as it is written.
const ALL_BYTES: &str = "\
call 0 1000 1 \"\\x01\\x02\\x03\\x04\\x05\\x06\\x07\\x08\\t\\n\\x0b\\x0c\\x0d\\x0e\\x0f\\x10\\x11\\x12\\x13\\x14\\x15\\x16\\x17\
\\x18\\x19\\x1a\\x1b\\x1c\\x1d\\x1e\\x1f !\\\"#$%&'()*+,-./0123456789:;<=>?@ABCDEFGHIJKLMNOPQRSTUVWXYZ[\\\\]^_\
`abcdefghijklmnopqrstuvwxyz{|}~\\x7f\
\\x80\\x81\\x82\\x83\\x84\\x85\\x86\\x87\\x88\\x89\\x8a\\x8b\\x8c\\x8d\\x8e\\x8f\
\\x90\\x91\\x92\\x93\\x94\\x95\\x96\\x97\\x98\\x99\\x9a\\x9b\\x9c\\x9d\\x9e\\x9f\
\\xa0\\xa1\\xa2\\xa3\\xa4\\xa5\\xa6\\xa7\\xa8\\xa9\\xaa\\xab\\xac\\xad\\xae\\xaf\
\\xb0\\xb1\\xb2\\xb3\\xb4\\xb5\\xb6\\xb7\\xb8\\xb9\\xba\\xbb\\xbc\\xbd\\xbe\\xbf\
\\xc0\\xc1\\xc2\\xc3\\xc4\\xc5\\xc6\\xc7\\xc8\\xc9\\xca\\xcb\\xcc\\xcd\\xce\\xcf\
\\xd0\\xd1\\xd2\\xd3\\xd4\\xd5\\xd6\\xd7\\xd8\\xd9\\xda\\xdb\\xdc\\xdd\\xde\\xdf\
\\xe0\\xe1\\xe2\\xe3\\xe4\\xe5\\xe6\\xe7\\xe8\\xe9\\xea\\xeb\\xec\\xed\\xee\\xef\
\\xf0\\xf1\\xf2\\xf3\\xf4\\xf5\\xf6\\xf7\\xf8\\xf9\\xfa\\xfb\\xfc\\xfd\\xfe\\xff\"␊|=";

/// What is written of the trace that a text spells.
fn rewritten(alloc: Global, text: &str) -> Result<String, Fail> {
    let trace = read_text(alloc, text.as_bytes())?;
    let mut sink = MemSink::make(alloc, 1_000_000, &[])?;
    write_trace(alloc, &trace, &mut sink)?;
    Ok(String::from_utf8(sink.bytes().to_vec(alloc)?)?)
}

/// The calls of a text, or `=` where they are those lines.
fn calls_shown(alloc: Global, text: &str, lines: &str) -> Result<String, Fail> {
    let calls = text.strip_prefix(WRITTEN_HEAD).ok_or("another head")?;
    let calls = calls.strip_suffix("end\n").ok_or("no end")?;
    Ok(String::from_str(alloc, if calls == lines { "=" } else { calls })?)
}

struct CallsWritten;

impl Told for CallsWritten {
    fn told(alloc: Global, words: &str) -> Result<String, Fail> {
        let lines = joined(alloc, words)?;
        let text = format!(in alloc; "{HEAD}{lines}end\n")?;
        calls_shown(alloc, &rewritten(alloc, &text)?, &lines)
    }
}

#[test]
fn traces_are_written(rt: HostRuntime) -> Result<(), Fail> {
    check_rows::<CallsWritten, _>(&rt, WRITTEN.trim_start())?;
    check_rows::<CallsWritten, _>(&rt, MIXED)?;
    check_rows::<CallsWritten, _>(&rt, ALL_BYTES)
}

/// Lists of stamps between `/`, and the numbers of the lists in order.
const ORDERS: &str = "\
|[];;/|[];;3 4 4 9|[0, 0, 0, 0];;/2//1|[3, 1];;5 7 7/7 9/5 5 7|[0, 2, 2, 0, 0, 1, 2, 1];;9/8/7/6|[3, 2, 1, 0]
0 18446744073709551615/18446744073709551615/0|[0, 2, 0, 1]";

/// The order of at most 64 lists.
fn merged(alloc: Global, lists: &[Vec<u64>]) -> Result<Vec<u32>, Fail> {
    if lists.len() > 64 {
        return Err("more than 64 lists".into());
    }
    Ok(merge_order(alloc, lists)?)
}

/// The numbers that stand between spaces.
fn list_of(alloc: Global, words: &str) -> Result<Vec<u64>, Fail> {
    let mut list = Vec::new(alloc);
    for word in words.split_whitespace() {
        list.push(word.parse::<u64>()?)?;
    }
    Ok(list)
}

fn lists_of(alloc: Global, row: &str) -> Result<Vec<Vec<u64>>, Fail> {
    let mut lists = Vec::new(alloc);
    for words in row.split('/') {
        lists.push(list_of(alloc, words)?)?;
    }
    Ok(lists)
}

struct OrderOf;

impl Told for OrderOf {
    fn told(alloc: Global, row: &str) -> Result<String, Fail> {
        let lists = lists_of(alloc, row)?;
        let order = merged(alloc, &lists)?;
        Ok(format!(in alloc; "{order:?}")?)
    }
}

#[test]
fn stamps_are_put_in_order(rt: HostRuntime) -> Result<(), Fail> {
    check_rows::<OrderOf, _>(&rt, ORDERS)
}
