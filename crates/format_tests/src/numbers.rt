//! Numbers: packed ones, and those that fields of lines spell.

use crate::tables::{Told, bytes_of, check_rows, cut};
use log_dictionary::{read_integer, read_number, read_signed};
use nibble_pack::{signed_len, unpack_signed, unpack_unsigned, unsigned_len};
use std::alloc::{AllocError, Global};
use std::test::Fail;

/// Codes of unsigned and of signed numbers, the bytes behind them, how many a code has, and what is read.
const PACKED: &str = "\
u|1|07 09|Some(1) Ok(7);;u|2|07 00|Some(2) Err(NotShortest);;u|2|07|Some(2) Err(Cut);;u|9||None Err(BadCode)
s|9|07|Some(0) Ok(-1);;s|10|00|Some(1) Err(NotShortest);;s|8|07 7*00|Some(8) Err(NotShortest)
s|15|5*00|Some(6) Err(Cut);;s|16||None Err(BadCode)";

fn unsigned_read(alloc: Global, code: u8, bytes: &[u8]) -> Result<String, AllocError> {
    let number = unpack_unsigned(code, bytes);
    format!(in alloc; "{:?} {number:?}", unsigned_len(code))
}

fn signed_read(alloc: Global, code: u8, bytes: &[u8]) -> Result<String, AllocError> {
    let number = unpack_signed(code, bytes);
    format!(in alloc; "{:?} {number:?}", signed_len(code))
}

/// How many bytes a code has, and the number that is read.
struct NumberUnpacked;

impl Told for NumberUnpacked {
    fn told(alloc: Global, row: &str) -> Result<String, Fail> {
        let (kind, rest) = cut(row)?;
        let (code, words) = cut(rest)?;
        let code = code.parse::<u8>()?;
        let bytes = bytes_of(alloc, words)?;
        let told = match kind {
            "u" => unsigned_read(alloc, code, &bytes)?,
            _ => signed_read(alloc, code, &bytes)?,
        };
        Ok(told)
    }
}

/// A field, and what it is as a number of any size, below 2^64, and from -2^63 to 2^63-1.
const FIELDS: &str = "\
0|Some(Unsigned(0)) Some(0) Some(0);;7|Some(Unsigned(7)) Some(7) Some(7);;-1|Some(Signed(-1)) None Some(-1)
18446744073709551610|Some(Unsigned(18446744073709551610)) Some(18446744073709551610) None
18446744073709551615|Some(Unsigned(18446744073709551615)) Some(18446744073709551615) None
18446744073709551616|Some(Beyond) None None;;18446744073709551620|Some(Beyond) None None
99999999999999999999|Some(Beyond) None None;;-9223372036854775809|Some(Beyond) None None
9223372036854775807|Some(Unsigned(9223372036854775807)) Some(9223372036854775807) Some(9223372036854775807)
9223372036854775808|Some(Unsigned(9223372036854775808)) Some(9223372036854775808) None
-9223372036854775808|Some(Signed(-9223372036854775808)) None Some(-9223372036854775808)
-184467440737095516160000|Some(Beyond) None None;;1000000000000000000000000000000000000000|Some(Beyond) None None
00|None None None;;007|None None None;;-0|None None None;;-01|None None None;;+1|None None None;;-|None None None
--1|None None None;;|None None None;;1a|None None None;;99999999999999999999x|None None None;; 1|None None None
1:|None None None;;1/|None None None";

struct NumbersRead;

impl Told for NumbersRead {
    fn told(alloc: Global, field: &str) -> Result<String, Fail> {
        let integer = read_integer(field.as_bytes());
        let number = read_number(field.as_bytes());
        let signed = read_signed(field.as_bytes());
        Ok(format!(in alloc; "{integer:?} {number:?} {signed:?}")?)
    }
}

#[test]
fn numbers_are_read(rt: HostRuntime) -> Result<(), Fail> {
    check_rows::<NumberUnpacked, _>(&rt, PACKED)?;
    check_rows::<NumbersRead, _>(&rt, FIELDS)
}
