//! What is kept of the writers of a log while it is read.

ghost use Rattle.std.specs.Prelude.{◌≡◌, ◌≢◌, ◌<◌, ℕ, true, false, length, IfOk};
ghost use Rattle.checkpoint_io.specs.Writers.{last_kept, closed_kept};

use std::alloc::{AllocError, Global};
use std::marker::Model;

/// The stamp of a writer's last record, and whether it is closed.
#[derive(Clone, Copy, Debug)]
pub struct WriterState {
    last: u64,
    closed: bool,
}

/// The state of each writer, by its number.
#[derive(Debug, Drop)]
pub struct Writers {
    states: Vec<WriterState>,
}

impl Model for Writers {
    ghost use Rattle.std.specs.Prelude.{List};
    ghost use Rattle.checkpoint_io.specs.declared.writers.WriterState.{WriterState};

    ghost Value = { List WriterState };

    ghost view = { λ w. w.states.items };
}

impl Writers {
    /// So many, of which none is closed, and each has this stamp.
    pub fn make(alloc: Global, count: u32, stamp: u64) -> Result<Writers, AllocError>
        ensures many { IfOk result (λ writers. length writers ≡ count) }
        ensures lasts { IfOk result (λ writers. (writer : ℕ) → writer < count → last_kept writers writer ≡ stamp) }
        ensures closed { IfOk result (λ writers. (writer : ℕ) → closed_kept writers writer ≡ false) }
    {
        let state = WriterState {
            last: stamp,
            closed: false,
        };
        let states = Vec::from_elem(alloc, state, count as usize)?;
        Ok(Writers { states })
    }

    /// The stamp of its last record.
    pub fn last(&self, writer: u32) -> u64
        ensures { result ≡ last_kept self.now writer }
    {
        match self.states.get(writer as usize) {
            Some(state) => state.last,
            None => 0,
        }
    }

    /// Whether it is closed.
    pub fn is_closed(&self, writer: u32) -> bool
        ensures { result ≡ closed_kept self.now writer }
    {
        match self.states.get(writer as usize) {
            Some(state) => state.closed,
            None => false,
        }
    }

    /// Its records go on, and the last one has this stamp.
    pub fn go_on(&mut self, writer: u32, last: u64)
        ensures many { length self.new ≡ length self.old }
        ensures own { writer < length self.old → last_kept self.new writer ≡ last }
        ensures others { (other : ℕ) → other ≢ writer → last_kept self.new other ≡ last_kept self.old other }
        ensures closed { (other : ℕ) → closed_kept self.new other ≡ closed_kept self.old other }
    {
        let Some(state) = self.states.get_mut(writer as usize) else {
            return;
        };
        state.last = last;
    }

    /// Closes it.
    pub fn close(&mut self, writer: u32)
        ensures many { length self.new ≡ length self.old }
        ensures own { writer < length self.old → closed_kept self.new writer ≡ true }
        ensures others { (other : ℕ) → other ≢ writer → closed_kept self.new other ≡ closed_kept self.old other }
        ensures lasts { (other : ℕ) → last_kept self.new other ≡ last_kept self.old other }
    {
        let Some(state) = self.states.get_mut(writer as usize) else {
            return;
        };
        state.closed = true;
    }
}
