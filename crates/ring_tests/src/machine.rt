//! The pure machine of rings, whose schedules are cases.

use crate::expecting::expect;
use ring_core::StageFault;
use ring_machine::{Barred, Event, RingView, Rings, StepKind};
use std::test::Fail;

/// What is shown of a ring.
fn view(rings: &Rings, ring: u32) -> Result<RingView, Fail> {
    if ring as usize >= rings.len() {
        return Err("no such ring".into());
    }
    Ok(rings.view(ring))
}

/// Makes a step of a ring.
fn make_step(rings: &mut Rings, ring: u32, step: StepKind) -> Result<Result<(), Barred>, Fail> {
    if !rings.has_room(ring) {
        return Err("the positions are used up".into());
    }
    Ok(rings.step(Event { ring, step }))
}

/// A step of one ring leaves the other, and there is no third one.
#[test]
fn rings_apart(rt: HostRuntime) -> Result<(), Fail> {
    let mut rings = Rings::make(rt.alloc(), 2, 1_024)?;
    let store = StepKind::Store(3);
    expect(&rt, &make_step(&mut rings, 1, store)?, &Ok(()));
    expect(&rt, &view(&rings, 0)?.written, &0);
    expect(&rt, &view(&rings, 1)?.written, &1);
    expect(&rt, &make_step(&mut rings, 2, store)?, &Err(Barred::Ring));
    for words in [1_023, 1_048_577] {
        let made = Rings::make(rt.alloc(), 1, words);
        expect(&rt, &made.err(), &Some(StageFault::BadSize));
    }
    Ok(())
}
