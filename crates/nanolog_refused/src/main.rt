//! The program `nanolog`, with a run of its own.
#![tactic(auto)]

use nanolog_main::{Ended, run};

fn main(rt: HostRuntime) -> Ended {
    run(rt, rt.stdout(), rt.stderr())
}
