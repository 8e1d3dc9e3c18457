//! Calls that were dropped.

ghost use Rattle.std.specs.Prelude.{◌≡◌, ◌≤◌, ◌↔◌, [], ◌∷◌, ◌++◌, length, slice_get, IsNone, OnOk, OnErr};
ghost use Rattle.std.specs.Option.{option_copied};
ghost use Rattle.std.specs.Slice.Iter.{iter_rest};

use std::alloc::{AllocError, Global};
use std::marker::Model;
use std::slice;

/// A call that was dropped, since the ring of its writer had too little room.
#[derive(Clone, Copy, Debug, PartialEq, Eq)]
pub struct Dropped {
    /// The number of its writer.
    pub writer: u32,
    /// Its place, from 0, among all calls of its writer, kept or not.
    pub ordinal: u64,
    /// How many places of the ring it wanted.
    pub need: u64,
    /// How many places were free, as far as its writer knew.
    pub room: u64,
}

/// Calls that were dropped.
#[derive(Debug, Drop)]
pub struct Drops {
    pub(crate) items: Vec<Dropped>,
}

impl Model for Drops {
    ghost use Rattle.std.specs.Prelude.{List};
    ghost use Rattle.trace_session.specs.declared.drops.Dropped.{Dropped};

    ghost Value = { List Dropped };

    ghost view = { λ d. d.items.items };
}

impl Drops {
    /// No drops.
    pub fn make(alloc: Global) -> Drops
        ensures { result ≡ [] }
    {
        Drops {
            items: Vec::new(alloc),
        }
    }

    /// Adds a drop at the end.
    pub fn push(&mut self, drop: Dropped) -> Result<(), AllocError>
        ensures ok { OnOk result (self.new ≡ self.old ++ drop ∷ []) }
        ensures err { OnErr result (self.new ≡ self.old) }
    {
        self.items.push(drop)?;
        Ok(())
    }

    /// The number of drops.
    pub fn len(&self) -> usize
        ensures { result ≡ length self.now }
    {
        self.items.len()
    }

    /// The drop at a place, from 0.
    pub fn get(&self, place: usize) -> Option<&Dropped>
        ensures value { option_copied result ≡ slice_get self.now place }
        ensures none { IsNone result ↔ (length self.now ≤ place) }
    {
        self.items.get(place)
    }

    /// The drops, one after the other.
    pub fn iter(&self) -> slice::Iter<'_, Dropped>
        ensures { iter_rest result ≡ self.now }
    {
        self.items.iter()
    }
}

impl<'a> IntoIterator for &'a Drops {
    type Item = &'a Dropped;

    type IntoIter = slice::Iter<'a, Dropped>;

    ghost into_iter_gives = { λ drops it. iter_rest it ≡ drops.now };

    fn into_iter(self) -> Self::IntoIter {
        self.iter()
    }
}
