//! What is put into a ring and taken from it on one thread.

use crate::expecting::expect;
use crate::feed::{Feed, TICK, is_frame, one_ring};
use arg_records::MAX_FRAME_WORDS;
use log_session::LogRefusal;
use ring_core::{Full, StageOut, Taken};
use std::alloc::Global;
use std::test::Fail;
use word_ring::WordOut;

/// Schedules of a ring of 1,024 words. A number logs a call that makes so many words, `3:5,4` one that is refused, as it
/// needs 5 places and 4 are free. `take` takes the next frame, `none` and `ended` take none, `close` closes the writer,
/// and `at=7` tells its position. `511*2` is 511 times `2`.
const SCHEDULES: [&str; 9] = [
    "none 2 3 512 at=517 take take take none",
    "511*2 take 3:5,4 at=1022",
    "3 3 508*2 take at=1022 3 at=1027 510*take none",
    "3 3 508*2 take 3 take 3 510*take none",
    "341*3 3:4,1 3:4,1 take 3 at=1027",
    "512 512 2:2,0 take 2 take take none",
    "512 512 2:2,0 close take take ended",
    "512 511 2:3,1 take 2 at=1026 take take none close ended ended",
    "close ended ended",
];

/// A ring, and what was logged of which how many calls were taken. Stamps follow one another.
#[derive(Drop)]
struct Run {
    feed: Feed,
    end: WordOut,
    logged: Vec<usize>,
    taken: usize,
}

impl Run {
    fn make(alloc: Global) -> Result<Run, Fail> {
        let (feed, end) = one_ring(alloc)?;
        Ok(Run {
            feed,
            end,
            logged: Vec::new(alloc),
            taken: 0,
        })
    }

    /// Logs a call that makes so many words. It answers whether that is answered which is wanted.
    fn log(&mut self, words: usize, want: Result<(), LogRefusal>) -> Result<bool, Fail> {
        let answer = self.feed.log(TICK + self.logged.len() as u64, words);
        if want.is_ok() {
            self.logged.push(words)?;
        }
        Ok(answer == Some(want))
    }

    /// Takes the next frame, and answers whether it is that of the next call.
    fn take(&mut self) -> bool {
        let mut into = [0; MAX_FRAME_WORDS];
        let Some(words) = self.logged.get(self.taken) else {
            return false;
        };
        let stamp = TICK + self.taken as u64;
        self.taken += 1;
        match self.end.take(&mut into) {
            Taken::Frame(len) => is_frame(&into[..len], stamp, *words),
            _ => false,
        }
    }

    /// Takes nothing, and answers whether that is answered which is wanted.
    fn take_none(&mut self, want: Taken) -> bool {
        self.end.take(&mut [0; MAX_FRAME_WORDS]) == want
    }

    /// One word of a schedule. It answers whether all was as it says.
    fn step(&mut self, word: &str) -> Result<bool, Fail> {
        if let Some((_, at)) = word.split_once('=') {
            return Ok(self.feed.writer.sent() == at.parse()?);
        }
        if let Some((words, wanting)) = word.split_once(':') {
            let (need, room) = wanting.split_once(',').ok_or("need and room")?;
            let full = Full {
                need: need.parse()?,
                room: room.parse()?,
            };
            return self.log(words.parse()?, Err(LogRefusal::Full(full)));
        }
        Ok(match word {
            "take" => self.take(),
            "none" => self.take_none(Taken::Nothing),
            "ended" => self.take_none(Taken::Ended),
            "close" => self.feed.close(),
            _ => self.log(word.parse()?, Ok(()))?,
        })
    }

    /// The same word so many times. It answers whether all was as it says.
    fn repeat(&mut self, count: usize, word: &str) -> Result<bool, Fail> {
        for _time in 0..count {
            if !self.step(word)? {
                return Ok(false);
            }
        }
        Ok(true)
    }

    /// A schedule, whose words one space each stands between. It answers with the first word at which something isn't as
    /// it says.
    fn play<'s>(&mut self, schedule: &'s str) -> Result<Option<&'s str>, Fail> {
        for unit in schedule.split(' ') {
            let (count, word) = match unit.split_once('*') {
                Some((count, word)) => (count.parse()?, word),
                None => (1, unit),
            };
            if !self.repeat(count, word)? {
                return Ok(Some(unit));
            }
        }
        Ok(None)
    }
}

#[test]
fn schedules(rt: HostRuntime) -> Result<(), Fail> {
    for schedule in SCHEDULES {
        let mut run = Run::make(rt.alloc())?;
        expect(&rt, &(schedule, run.play(schedule)?), &(schedule, None));
    }
    Ok(())
}

/// Frames of 512 words and of 2 begin at each place near the ring's end at which a frame can begin.
#[test]
fn frames_at_the_edge(rt: HostRuntime) -> Result<(), Fail> {
    for place in 500..1_024 {
        let mut run = Run::make(rt.alloc())?;
        let (odd, twos) = (place % 2, (place - 3 * (place % 2)) / 2);
        let begun = run.repeat(odd, "3")?
            && run.repeat(twos, "2")?
            && run.repeat(odd + twos, "take")?;
        let at = run.feed.writer.sent();
        let rest = run.play("2 take 512 take none 512 take none")?;
        expect(&rt, &(begun, at, rest), &(true, place as u64, None));
    }
    Ok(())
}
