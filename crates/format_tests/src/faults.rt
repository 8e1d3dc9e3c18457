//! The texts of faults.

use checkpoint_io::Cause;
use decompressor::DecodeFault;
use printf_grammar::{FormatCause, ParseFault};
use std::alloc::{AllocError, Global};
use std::test::Fail;

/// The words for the variants' names, in the order of `texts`.
const NAMES: &str = "bad|no memory|write fault|damaged|read fault|no memory";

/// The texts of all variants.
fn texts(
    alloc: Global,
    cause: FormatCause,
    place: usize,
    offset: u64,
) -> Result<String, AllocError> {
    let bad = ParseFault::Bad { cause, place };
    let damaged = DecodeFault::Damaged {
        offset,
        cause: Cause::Cut,
    };
    let unread = ParseFault::NoMemory;
    let [write, read, memory] = [
        DecodeFault::WriteFault,
        DecodeFault::ReadFault,
        DecodeFault::NoMemory,
    ];
    format!(in alloc; "{bad}|{unread}|{write}|{damaged}|{read}|{memory}")
}

#[test]
fn each_variant_has_one_text(rt: HostRuntime) -> Result<(), Fail> {
    let first = texts(rt.alloc(), FormatCause::Long, 4095, 7)?;
    let second = texts(rt.alloc(), FormatCause::Nul, 1, 56)?;
    assert_eq!(rt; first, second);
    for (text, name) in first.split('|').zip(NAMES.split('|')) {
        assert!(rt; text.contains(name), "{text}");
    }
    Ok(())
}
