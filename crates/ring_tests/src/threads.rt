//! Frames that go from one thread to another, and rings side by side.

use crate::expecting::expect;
use crate::feed::{Feed, TICK, is_frame, one_ring};
use arg_records::MAX_FRAME_WORDS;
use ring_core::{StageOut, Taken};
use std::sync::Wait;
use std::test::Fail;
use std::thread::{self, Threads};
use word_ring::WordOut;

/// How many frames go from one thread to the other.
const MANY: u64 = 100_000;

/// How many words the frame of this number has.
fn words_of(number: u64) -> usize {
    [2, 3, 4, 9][(number % 4) as usize]
}

/// Logs the calls in turn, each as often as is needed, and closes the writer.
fn put_all<R: Wait + Copy>(rt: R, mut feed: Feed) -> bool {
    for number in 0..MANY {
        for _turn in rt.forever() {
            match feed.log(TICK + number, words_of(number)) {
                Some(Ok(())) => break,
                Some(Err(_)) => thread::yield_now(),
                None => return false,
            }
        }
    }
    feed.close()
}

/// Takes frames until the ring has ended. It answers how many were, in order, those of the calls.
fn take_all<R: Wait + Copy>(rt: R, mut end: WordOut) -> u64 {
    let mut right = 0;
    let mut into = [0; MAX_FRAME_WORDS];
    for _turn in rt.forever() {
        match end.take(&mut into) {
            Taken::Frame(len) => {
                if is_frame(&into[..len], TICK.saturating_add(right), words_of(right)) {
                    right = right.saturating_add(1);
                }
            }
            Taken::Nothing => thread::yield_now(),
            Taken::Ended => break,
        }
    }
    right
}

fn both<R: Threads + Wait + Sync>(rt: &R, feed: Feed, end: WordOut) -> (bool, u64) {
    thread::join(rt, move || put_all(rt, feed), move || take_all(rt, end))
}

#[test]
fn frames_between_two_threads(rt: HostRuntime) -> Result<(), Fail> {
    let (feed, end) = one_ring(rt.alloc())?;
    expect(&rt, &both(&rt, feed, end), &(true, MANY));
    Ok(())
}

/// What goes into one of 64 rings comes out of it, and of no other.
#[test]
fn sixty_four_rings(rt: HostRuntime) -> Result<(), Fail> {
    let mut rings = Vec::new(rt.alloc());
    for number in 0..64_u64 {
        let (mut feed, end) = one_ring(rt.alloc())?;
        expect(&rt, &feed.log(TICK + number, 3), &Some(Ok(())));
        rings.push((feed, end))?;
    }
    let mut into = [0; MAX_FRAME_WORDS];
    for (number, (_feed, end)) in rings.iter_mut().enumerate() {
        expect(&rt, &end.take(&mut into), &Taken::Frame(3));
        assert!(rt; is_frame(&into[..3], TICK + number as u64, 3));
        expect(&rt, &end.take(&mut into), &Taken::Nothing);
    }
    Ok(())
}
