//! The roamer: what it keeps between its visits.

ghost use Rattle.std.specs.Prelude.{◌≡◌, ◌≤◌, true, length, slice_get, Some, vec_len};
ghost use Rattle.checkpoint_io.specs.Versions.{is_known, most_writers, most_body};
ghost use Rattle.roaming_consumer.specs.declared.fragments.TheConstants.{MAX_FRAGMENT};
ghost use Rattle.session_options.specs.Versions.{MayHaveClocks};

use crate::fragments::MAX_FRAGMENT;
use arg_records::MAX_FRAME_WORDS;
use log_dictionary::{Clock, Clocks, Dictionary};

/// Goes from one writer to the next, takes the frames of its calls, and writes the log of the calls.
///
/// It keeps no sink: each call is lent one, and all of them are to be lent the same.
#[derive(Drop)]
pub struct Roamer<'d, S> {
    pub(crate) dictionary: &'d Dictionary,
    /// The version of the log.
    pub(crate) version: u8,
    /// The clocks that were told so far.
    pub(crate) clocks: Clocks,
    /// The first of them, which the header has.
    pub(crate) clock: Clock,
    pub(crate) batch: u32,
    /// The ends of the writers, by their numbers.
    pub(crate) ends: Vec<S>,
    /// How many messages the log defines.
    pub(crate) defined: u32,
    /// How many clocks the log has, with that of its header.
    pub(crate) written: usize,
    /// The greatest stamp of a call that was to be written, and 0 where there is none.
    pub(crate) latest: u64,
    /// Whether the close mark of a writer was written, by its number.
    pub(crate) closed: Vec<bool>,
    pub(crate) begun: bool,
    pub(crate) faulted: bool,
    pub(crate) frame: [u64; MAX_FRAME_WORDS],
    pub(crate) body: Vec<u8>,
    pub(crate) fragment: Vec<u8>,
    ghost some_end: { 1 ≤ length ends.items },
    ghost known_version: { is_known version ≡ true },
    ghost few_ends: { length ends.items ≤ most_writers version },
    ghost some_batch: { 1 ≤ batch },
    ghost may_have: { MayHaveClocks version clocks },
    ghost first: { slice_get clocks 0 ≡ Some clock },
    ghost few_written: { written ≤ length clocks },
    ghost known: { defined ≤ length dictionary.now },
    ghost each_closed: { length closed.items ≡ length ends.items },
    ghost body_room: { vec_len body ≡ most_body version },
    ghost fragment_room: { vec_len fragment ≡ MAX_FRAGMENT },
}

impl<'d, S> Roamer<'d, S> {
    ghost use Rattle.roaming_consumer.specs.Roamers.{ends_of, is_faulted};

    /// Whether a call answered that a write failed.
    pub fn faulted(&self) -> bool
        ensures { result ≡ is_faulted self.now }
    {
        self.faulted
    }

    /// The ends, in the order of their writers' numbers.
    pub fn into_ends(self) -> Vec<S>
        ensures { result.items ≡ ends_of self.entry }
    {
        let Roamer {
            dictionary: _,
            version: _,
            clocks: _,
            clock: _,
            batch: _,
            ends,
            defined: _,
            written: _,
            latest: _,
            closed: _,
            begun: _,
            faulted: _,
            frame: _,
            body: _,
            fragment: _,
        } = self;
        ends
    }
}
