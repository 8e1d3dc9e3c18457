//! What is kept of clocks and stamps of a log while it is read.

ghost use Rattle.std.specs.Prelude.{◌≡◌, ◌↔◌, ◌≤◌, max, [], ◌∷◌, length, IfOk, IsTrue};
ghost use Rattle.log_dictionary.specs.declared.clocks.TheConstants.{MAX_CLOCKS};
ghost use Rattle.log_dictionary.specs.Clocks.{last_tick as last_tick_of};
ghost use Rattle.checkpoint_io.specs.NextBlocks.{times_behind, MayCount};

use crate::block::Block;
use log_dictionary::{Clock, Clocks, MAX_CLOCKS};
use std::alloc::{AllocError, Global};
use std::marker::Model;

/// The clocks, and the greatest stamp of a record.
#[derive(Debug, Drop)]
pub struct Times {
    clocks: Clocks,
    greatest: u64,
}

impl Model for Times {
    ghost use Rattle.checkpoint_io.specs.Times.{TimeState};

    ghost Value = { TimeState };

    ghost view = { λ t. record {
      clocks = t.clocks;
      greatest = t.greatest;
    } };
}

impl Times {
    /// Those of a log that has no records so far. The clock is that of its header.
    pub fn make(alloc: Global, clock: Clock) -> Result<Times, AllocError>
        requires { 1 ≤ clock.rate }
        ensures { IfOk result (λ times. times ≡ record { clocks = clock ∷ []; greatest = clock.tick }) }
    {
        let clocks = Clocks::make(alloc, clock)?;
        Ok(Times {
            clocks,
            greatest: clock.tick,
        })
    }

    /// The clocks.
    pub fn clocks(&self) -> &Clocks
        ensures { result.now ≡ self.now.clocks }
    {
        &self.clocks
    }

    /// Whether no clock may follow, since there are 256.
    pub fn is_full(&self) -> bool
        ensures { IsTrue result ↔ (MAX_CLOCKS ≤ length self.now.clocks) }
    {
        self.clocks.len() >= MAX_CLOCKS
    }

    /// The tick of the last clock.
    pub fn last_tick(&self) -> u64
        ensures { result ≡ last_tick_of self.now.clocks }
    {
        match self.clocks.get(self.clocks.len() - 1) {
            Some(clock) => clock.tick,
            None => 0,
        }
    }

    /// The greatest stamp of a record, or the header's tick where there is none.
    pub fn greatest(&self) -> u64
        ensures { result ≡ self.now.greatest }
    {
        self.greatest
    }

    /// Records follow, of which the last one has this stamp. None has a greater one.
    pub fn go_on(&mut self, last: u64)
        ensures clocks { self.new.clocks ≡ self.old.clocks }
        ensures greatest { self.new.greatest ≡ max self.old.greatest last }
    {
        self.greatest = self.greatest.max(last);
    }

    /// A block was read. If it is a clock that may follow the others, it counts from now on.
    pub fn add(&mut self, block: &Block)
        ensures { MayCount block.now self.old → self.new ≡ times_behind block.now self.old }
    {
        if let Block::Clock(clock) = block {
            let _added = self.clocks.add(*clock);
        }
    }
}
