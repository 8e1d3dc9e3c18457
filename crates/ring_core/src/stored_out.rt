//! A roamer's end over frames that were stored beforehand, for tests.

ghost use Rattle.std.specs.Prelude.{◌≡◌, ◌≤◌, ◌↔◌, ◌∷◌, ◌++◌, [], true, false, Some, None, length, take, slice_get, IsErrOf, OnOk, OnErr};
ghost use Rattle.printf_grammar.specs.Types.{values_of};
ghost use Rattle.arg_records.specs.declared.frame.TheConstants.{MAX_FRAME_WORDS};
ghost use Rattle.arg_records.specs.Frames.{Frame};
ghost use Rattle.ring_core.specs.declared.stored_out.StoreFault.TheVariants as faults;
ghost use Rattle.ring_core.specs.Answers.{IfFrame};
ghost use Rattle.ring_core.specs.Plans.{Lawful, MayFollow, call_of};
ghost use Rattle.ring_core.specs.Stored.{empty_end, answer_in, end_after};

use crate::answers::Taken;
use crate::planned::planned_frame;
use crate::stage_out::StageOut;
use arg_records::MAX_FRAME_WORDS;
use log_dictionary::Dictionary;
use printf_grammar::Arg;
use std::alloc::{AllocError, AllocFailed, Global};
use std::marker::Model;
use thiserror::Error;

/// One answer that is stored.
#[derive(Debug, Drop)]
enum StoredAnswer {
    /// The words of a frame.
    Frame(Vec<u64>),
    /// There is no frame just then.
    Pause,
}

/// Why nothing was stored.
#[derive(Clone, Copy, Debug, PartialEq, Eq, Error)]
pub enum StoreFault {
    /// The end was closed.
    #[error("the end was closed")]
    Closed,
    /// It is no call of the dictionary that may come behind the others: the id is unknown, the arguments don't fit, the
    /// frame would be too long, or the stamp is below the one before.
    #[error("no call of the dictionary that may come next")]
    NoCall,
    #[error("there is no memory")]
    NoMemory,
}

impl From<AllocError> for StoreFault {
    ghost from_gives = { λ _ fault. fault ≡ faults.NoMemory };

    fn from(_: AllocError) -> StoreFault {
        StoreFault::NoMemory
    }
}

impl<T: Drop> From<AllocFailed<T>> for StoreFault {
    ghost from_gives = { λ _ fault. fault ≡ faults.NoMemory };

    fn from(_: AllocFailed<T>) -> StoreFault {
        StoreFault::NoMemory
    }
}

/// The end of no ring: it gives the frames of calls that were stored in it, in order, and at the places that were
/// chosen it has nothing to give.
#[derive(Drop)]
pub struct StoredOut<'d> {
    dictionary: &'d Dictionary,
    first: u64,
    last: u64,
    answers: Vec<StoredAnswer>,
    next: usize,
    closed: bool,
    ended: bool,
    loads: u64,
}

impl<'d> Model for StoredOut<'d> {
    ghost use Rattle.ring_core.specs.Stored.{StoredEnd};

    ghost Value = { StoredEnd };

    ghost use Rattle.ring_core.specs.StoredInside.{end_of, IsStored};

    ghost view = { end_of };

    ghost invariant = { IsStored };
}

/// Copies words to the front.
fn copy_words(words: &[u64], into: &mut [u64; MAX_FRAME_WORDS])
    requires { length words.now ≤ MAX_FRAME_WORDS }
    ensures { take (length words.now) into.new ≡ words.now }
{
    into[..words.len()].copy_from_slice(words);
}

impl<'d> StoredOut<'d> {
    /// An end over no frames, for calls of the dictionary whose stamps aren't below `first`.
    pub fn make(alloc: Global, dictionary: &'d Dictionary, first: u64) -> StoredOut<'d>
        ensures { result ≡ empty_end dictionary.now first }
    {
        StoredOut {
            dictionary,
            first,
            last: first,
            answers: Vec::new(alloc),
            next: 0,
            closed: false,
            ended: false,
            loads: 0,
        }
    }

    /// Stores the frame of a call behind the others.
    pub fn push(&mut self, stamp: u64, id: u32, args: &[Arg]) -> Result<(), StoreFault>
        ensures ok { OnOk result (self.new ≡ record self.old {
          last = stamp;
          ahead = self.old.ahead ++ Some (Frame id stamp (values_of args.now)) ∷ [];
        }) }
        ensures closed { IsErrOf result StoreFault.Closed ↔ (self.old.closed ≡ true) }
        ensures no_call { IsErrOf result StoreFault.NoCall
            → ¬ (MayFollow self.old.plan self.old.last (call_of stamp id (values_of args.now))) }
        ensures call { OnOk result (MayFollow self.old.plan self.old.last (call_of stamp id (values_of args.now))) }
        ensures err { OnErr result (self.new ≡ self.old) }
    {
        if self.closed {
            return Err(StoreFault::Closed);
        }
        let mut words = [0; MAX_FRAME_WORDS];
        let Some(len) = planned_frame(self.dictionary, stamp, id, args, &mut words) else {
            return Err(StoreFault::NoCall);
        };
        if stamp < self.last {
            return Err(StoreFault::NoCall);
        }
        let frame = Vec::from_slice(*self.answers.allocator(), &words[..len])?;
        self.answers.push(StoredAnswer::Frame(frame))?;
        self.last = stamp;
        Ok(())
    }

    /// Has nothing to give once, behind the frames that were stored so far.
    pub fn pause(&mut self) -> Result<(), StoreFault>
        ensures ok { OnOk result (self.new ≡ record self.old { ahead = self.old.ahead ++ None ∷ [] }) }
        ensures closed { IsErrOf result StoreFault.Closed ↔ (self.old.closed ≡ true) }
        ensures err { OnErr result (self.new ≡ self.old) }
    {
        if self.closed {
            return Err(StoreFault::Closed);
        }
        self.answers.push(StoredAnswer::Pause)?;
        Ok(())
    }

    /// Closes the end: once all that was stored is taken, it has ended.
    pub fn close(&mut self)
        ensures { self.new ≡ record self.old { closed = true } }
    {
        self.closed = true;
    }

    /// The next answer. A frame comes into the front of `into`.
    fn answer(&mut self, into: &mut [u64; MAX_FRAME_WORDS]) -> Taken
        ensures answer { result ≡ answer_in self.old.ahead self.old.closed }
        ensures after { self.new ≡ end_after self.old.ahead self.old }
        ensures frame { IfFrame result (λ n. (n ≤ MAX_FRAME_WORDS)
            × (slice_get self.old.ahead 0 ≡ Some (Some (take n into.new)))) }
        ensures lawful { Lawful self.new.plan self.new.got }
        ensures ended { self.old.ended ≡ true → result ≡ Taken.Ended }
        ensures loads_never_fall { self.old.loads ≤ self.new.loads }
    {
        if self.next >= self.answers.len() {
            if self.closed {
                self.ended = true;
                return Taken::Ended;
            }
            self.loads = self.loads.saturating_add(1);
            return Taken::Nothing;
        }
        let answer = &self.answers[self.next];
        self.next += 1;
        match answer {
            StoredAnswer::Frame(words) => {
                copy_words(words.as_slice(), into);
                Taken::Frame(words.len())
            }
            StoredAnswer::Pause => {
                self.loads = self.loads.saturating_add(1);
                Taken::Nothing
            }
        }
    }
}

impl<'d> StageOut for StoredOut<'d> {
    ghost got = { λ end. end.got };

    ghost ended = { λ end. end.ended };

    ghost loads = { λ end. end.loads };

    ghost pair = { λ _. [] };

    ghost plan = { λ end. end.plan };

    ghost steps = { λ _. 0 };

    fn take(&mut self, into: &mut [u64; MAX_FRAME_WORDS]) -> Taken {
        self.answer(into)
    }
}
