//! Runs of which one call of the files fails, whichever it is.

use crate::runs::{Machine, expect, expect_lines, expect_ran, run_failing, run_over};
use nanolog_cli::Status;
use std::alloc::Global;
use std::test::Fail;

/// A trace of three writers, of which the last one logs nothing.
const TRACE: &str = "nanolog-trace 1
message 0 NOTICE 12 \"srv.cc\" \"x=%d\"
clock 1000 1514764800000000000 2000000000
writers 3
call 1 1003 0 2
call 0 1003 0 1
call 1 1003 0 3
end
";

/// Its lines.
const LINES: &str = "1514764800.000000001 srv.cc:12 NOTICE[0]: x=1
1514764800.000000001 srv.cc:12 NOTICE[1]: x=2
1514764800.000000001 srv.cc:12 NOTICE[1]: x=3
";

/// More calls of the files than a run makes.
const MANY_CALLS: u64 = 1_000;

/// Asserts that these bytes are a log, or cut off inside one.
fn expect_front(rt: &impl Machine, alloc: Global, log: &[u8]) -> Result<(), Fail> {
    let read = run_over(rt, alloc, "decompress l", ("l", log))?;
    let (status, _, err) = read.shown();
    if status != Status::Done {
        let is_cut = err.ends_with(": damaged: 4 Cut\n");
        expect(rt, &(status, is_cut), &(Status::Damaged, true));
    }
    Ok(())
}

#[test]
fn a_failed_call_leaves_the_front_of_a_log(rt: HostRuntime) -> Result<(), Fail> {
    let alloc = rt.alloc();
    for number in 0..MANY_CALLS {
        let ran = run_failing(&rt, alloc, "replay t l", ("t", TRACE.as_bytes()), number)?;
        if ran.status == Status::Done {
            let told = "accepted 3 dropped 0 filtered 0\n";
            expect_ran(&rt, &ran, Status::Done, told, "");
            return expect_lines(&rt, alloc, &ran, LINES);
        }
        expect(&rt, &ran.out.as_str(), &"");
        match &ran.log {
            Some(log) => {
                expect(&rt, &ran.status, &Status::WriteFault);
                expect_front(&rt, alloc, log)?;
            }
            None => {
                let is_told = ran.status == Status::ReadFault || ran.status == Status::WriteFault;
                assert!(rt; is_told);
            }
        }
    }
    Err("each run fails".into())
}
