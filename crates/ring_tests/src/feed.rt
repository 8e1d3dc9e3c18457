//! A session over one ring whose writer is fed with calls, of which each has as many words as are asked for.

ghost use Rattle.std.specs.Prelude.{◌≡◌, ◌≤◌, ◌∷◌, [], false, IfOk, length, map};
ghost use Rattle.log_dictionary.specs.Clocks.{first_tick};
ghost use Rattle.ring_core.specs.Plans.{plan_of};
ghost use Rattle.roaming_consumer.specs.Roamers.{ends_of, is_begun, ArePlanned};
ghost use Rattle.ring_tests.specs.declared.feed.TheConstants.{TICK};

use arg_records::{MAX_FRAME_WORDS, frame_words};
use log_dictionary::{Clock, Clocks, Dictionary};
use log_session::{LogRefusal, Writer, start};
use printf_grammar::Arg;
use roaming_consumer::Roamer;
use session_options::MAX_BATCH;
use std::alloc::{AllocError, Global};
use std::test::Fail;
use word_ring::{WordIn, WordOut, WordRing};

/// The stamp that no call is before.
pub(crate) const TICK: u64 = 1_000;

/// What the texts of calls are cut from.
const TEXT: [u8; 2_032] = [b'x'; 2_032];

/// The clock of the sessions.
pub(crate) fn one_clock(alloc: Global) -> Result<Clocks, AllocError>
    ensures { IfOk result (λ clocks. (first_tick clocks ≡ TICK) × (length clocks ≡ 1)) }
{
    let clock = Clock {
        tick: TICK,
        nanos: 0,
        rate: 1,
    };
    Clocks::make(alloc, clock)
}

/// A dictionary of three messages: one without arguments, one that takes a number, and one that takes two texts.
pub(crate) fn three_messages(alloc: Global) -> Result<Dictionary, Fail> {
    let mut dictionary = Dictionary::make(alloc);
    dictionary.read_line(b"message 0 NOTICE 1 \"a.cc\" \"tick\"")?;
    dictionary.read_line(b"message 1 NOTICE 2 \"a.cc\" \"%d\"")?;
    dictionary.read_line(b"message 2 NOTICE 3 \"a.cc\" \"%s%s\"")?;
    Ok(dictionary)
}

/// How many bytes the two texts of a call have that makes so many words, from 4 to 512.
fn text_lens(words: usize) -> (usize, usize)
    ensures { (result.0 ≤ 2032) × (result.1 ≤ 2032) }
{
    let both = words.saturating_sub(4).min(508);
    let first = both.min(254);
    (first * 8, (both - first) * 8)
}

/// A writer, and the dictionary whose messages it logs.
#[derive(Drop)]
pub(crate) struct Feed {
    pub(crate) writer: Writer<WordIn>,
    pub(crate) dictionary: &'static Dictionary,
    ghost planned: { writer.end.plan ≡ plan_of dictionary.now TICK },
}

/// A session over one ring of so many words: its writer, which is fed, and its roamer. The dictionary is never freed,
/// so no lifetime binds them.
pub(crate) fn one_session(
    alloc: Global,
    ring: u64,
    batch: u32,
) -> Result<(Feed, Roamer<'static, WordOut>), Fail>
    requires batch { (1 ≤ batch) × (batch ≤ MAX_BATCH) }
    ensures one_ring { IfOk result (λ session.
        map (λ end. end.pair) (ends_of session.1) ≡ session.0.writer.end.pair ∷ []) }
    ensures roamer { IfOk result (λ session. ArePlanned (λ end. end.plan) session.1
        × (is_begun session.1 ≡ false)) }
{
    let dictionary: &'static Dictionary = Box::leak(Box::new(alloc, three_messages(alloc)?)?);
    let clocks = one_clock(alloc)?;
    let (mut writers, roamer) = start::<WordRing>(alloc, ring, 1, batch, 1, &clocks, dictionary)?;
    let writer = writers.pop().ok_or("there is a writer")?;
    Ok((Feed { writer, dictionary }, roamer))
}

/// The two ends of a ring of 1,024 words, of which one is fed.
pub(crate) fn one_ring(alloc: Global) -> Result<(Feed, WordOut), Fail> {
    let (feed, roamer) = one_session(alloc, 1_024, 1)?;
    let end = roamer.into_ends().pop().ok_or("there is an end")?;
    Ok((feed, end))
}

impl Feed {
    /// Logs a call, if the writer takes it.
    pub(crate) fn log_args(
        &mut self,
        stamp: u64,
        id: u32,
        args: &[Arg],
    ) -> Option<Result<(), LogRefusal>>
        ensures { self.new.writer.end.pair ≡ self.old.writer.end.pair }
    {
        if !self.writer.takes(self.dictionary, stamp, id, args) {
            return None;
        }
        Some(self.writer.log(stamp, id, args))
    }

    /// Logs a call with a number, which makes three words.
    pub(crate) fn log_number(&mut self, stamp: u64, number: i64) -> Option<Result<(), LogRefusal>>
        ensures { self.new.writer.end.pair ≡ self.old.writer.end.pair }
    {
        self.log_args(stamp, 1, &[Arg::Signed(number)])
    }

    /// Logs a call that makes so many words.
    pub(crate) fn log(&mut self, stamp: u64, words: usize) -> Option<Result<(), LogRefusal>> {
        let (first, second) = text_lens(words);
        match words {
            2 => self.log_args(stamp, 0, &[]),
            3 => self.log_number(stamp, 7),
            _ => {
                let texts = [Arg::Text(&TEXT[..first]), Arg::Text(&TEXT[..second])];
                self.log_args(stamp, 2, &texts)
            }
        }
    }

    /// Closes the writer, if it isn't closed, and answers whether it is.
    pub(crate) fn close(&mut self) -> bool
        ensures { self.new.writer.end.pair ≡ self.old.writer.end.pair }
    {
        if !self.writer.is_closed() {
            self.writer.close();
        }
        self.writer.is_closed()
    }
}

/// Whether the words that were taken are the frame of the call with this stamp that makes so many.
pub(crate) fn is_frame(taken: &[u64], stamp: u64, words: usize) -> bool {
    let (first, second) = text_lens(words);
    let mut frame = [0; MAX_FRAME_WORDS];
    let spelled = match words {
        2 => frame_words::<Arg>(0, stamp, &[], &mut frame),
        3 => frame_words(1, stamp, &[Arg::Signed(7)], &mut frame),
        _ => {
            let texts = [Arg::Text(&TEXT[..first]), Arg::Text(&TEXT[..second])];
            frame_words(2, stamp, &texts, &mut frame)
        }
    };
    match spelled {
        Ok(n) => taken == &frame[..n],
        Err(_) => false,
    }
}
