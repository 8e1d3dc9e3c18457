//! The words of a stream.

ghost use Rattle.std.specs.Prelude.{◌≡◌, ◌≤◌, ◌++◌, ◌∷◌, [], length, OnOk, OnErr};
ghost use Rattle.ring_core.specs.declared.limits.TheConstants.{MAX_POSITION};
ghost use Rattle.session_options.specs.declared.limits.TheConstants.{MAX_RING};
ghost use Rattle.ring_machine.specs.Streams.{MayCome};
ghost use Rattle.ring_machine.specs.Steps.{is_inside};
ghost use Rattle.ring_machine.specs.Tracks.{tracked, walk_of};

use crate::reach::Reach;
use std::alloc::{AllocError, Global};
use std::marker::Model;

/// Words of a stream in a ring of so many words, and how far they come.
#[derive(Drop)]
pub struct Track {
    size: u64,
    words: Vec<u64>,
    reach: Reach,
}

impl Model for Track {
    ghost use Rattle.ring_machine.specs.Tracks.{Tracked};

    ghost Value = { Tracked };

    ghost use Rattle.ring_machine.specs.TracksInside.{track_of, IsTrack};

    ghost view = { track_of };

    ghost invariant = { IsTrack };
}

impl Track {
    /// No words.
    pub(crate) fn make(alloc: Global, size: u64) -> Track
        requires { (1 ≤ size) × (size ≤ MAX_RING) }
        ensures { result ≡ tracked size [] }
    {
        Track {
            size,
            words: Vec::new(alloc),
            reach: Reach {
                at: 0,
                left: 0,
                frames: 0,
            },
        }
    }

    /// The position behind the words.
    pub(crate) fn at(&self) -> u64
        ensures { result ≡ (walk_of self.now).at }
    {
        self.reach.at
    }

    /// How many frames are whole.
    pub(crate) fn frames(&self) -> u64
        ensures { result ≡ length (walk_of self.now).frames }
    {
        self.reach.frames
    }

    /// Whether a frame isn't whole.
    pub(crate) fn is_inside(&self) -> bool
        ensures { result ≡ is_inside (walk_of self.now).part }
    {
        self.reach.left > 0
    }

    /// One word more.
    pub(crate) fn push(&mut self, word: u64) -> Result<(), AllocError>
        requires may { MayCome self.old.size (walk_of self.old) word }
        requires position { (walk_of self.old).at ≤ MAX_POSITION }
        ensures ok { OnOk result (self.new ≡ tracked self.old.size (self.old.words ++ word ∷ [])) }
        ensures err { OnErr result (self.new ≡ self.old) }
    {
        self.words.push(word)?;
        self.reach = self.reach.onward(self.size, word);
        Ok(())
    }
}
