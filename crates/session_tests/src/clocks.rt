//! A roamer that is told a further clock.

use crate::expecting::expect;
use crate::visits::{CLOCK, NUMBER, hexadecimal, one_message};
use log_dictionary::{Clock, Clocks};
use nl_io::MemSink;
use printf_grammar::Arg;
use ring_core::StoredOut;
use roaming_consumer::{ClockRefusal, Roamer, Visit};
use std::test::Fail;

const LATER: Clock = Clock {
    tick: 2000,
    nanos: 1_514_764_801_000_000_000,
    rate: 1_000_000_000,
};

/// The log of a call behind the tick of the later clock, in hexadecimal: the header up to byte 31, the clock up to 56,
/// the message up to 82, the record up to 94, and the close mark.
const LOG: &str = "4e 4c 4f 47 02 01 00 e8 03 00 00 00 00 00 00 00 00 44 5e 8f 86 05 15 \
    00 94 35 77 00 00 00 00 03 d0 07 00 00 00 00 00 00 00 ca de 99 8f 86 05 15 00 ca 9a 3b 00 00 00 00 \
    01 00 00 00 00 01 00 03 0c 00 00 00 06 00 73 72 76 2e 63 63 04 00 78 3d 25 64 \
    02 00 00 05 00 00 00 20 eb 03 01 07 04 00 00 ";

#[test]
fn logs_of_two_clocks(rt: HostRuntime) -> Result<(), Fail> {
    let alloc = rt.alloc();
    let dictionary = one_message(alloc, NUMBER)?;
    let mut end = StoredOut::make(alloc, &dictionary, 1000);
    end.push(2003, 0, &[Arg::Signed(7)])?;
    end.close();
    let mut ends = Vec::new(alloc);
    ends.push(end)?;
    let clocks = Clocks::make(alloc, CLOCK)?;
    let mut sink = MemSink::make(alloc, 100, &[])?;
    let mut roamer = Roamer::make(alloc, ends, &dictionary, 2, &clocks, 1)?;
    expect(&rt, &roamer.begin(&mut sink), &Ok(()));
    expect(&rt, &roamer.add_clock(CLOCK), &Err(ClockRefusal::Misfit));
    expect(&rt, &roamer.add_clock(LATER), &Ok(()));
    expect(&rt, &roamer.visit(0, &mut sink), &Ok(Visit::Wrote(1)));
    expect(&rt, &roamer.visit(0, &mut sink), &Ok(Visit::Ended));
    let at = |tick| Clock { tick, ..LATER };
    expect(
        &rt,
        &roamer.add_clock(at(2003)),
        &Err(ClockRefusal::Reached),
    );
    expect(&rt, &roamer.add_clock(at(2004)), &Ok(()));
    expect(&rt, &hexadecimal(alloc, sink.bytes())?.as_str(), &LOG);
    Ok(())
}
