//! The clocks that a run goes by.

ghost use Rattle.std.specs.Prelude.{◌≡◌, ◌↔◌, ◌<◌, ◌≤◌, [], ◌∷◌, ◌++◌, length, slice_get, Some, All, Err, IsNone, IfOk, OnOk, OnErr};
ghost use Rattle.std.specs.List.Sorted.{IsPartitionPoint};
ghost use Rattle.log_dictionary.specs.Clocks.{AreClocks, FitsClock, FollowsClocks, first_tick, StopsClock};
ghost use Rattle.log_dictionary.specs.Times.{clock_at};

use crate::clock::Clock;
use std::alloc::{AllocError, Global};
use std::marker::Model;
use thiserror::Error;

/// The most clocks of a run.
pub const MAX_CLOCKS: usize = 256;

/// One to 256 clocks, whose ticks rise strictly and whose rates are at least 1.
#[derive(Debug, Drop)]
pub struct Clocks {
    clocks: Vec<Clock>,
}

/// Why a clock wasn't added: the first of these that holds.
#[derive(Clone, Copy, Debug, PartialEq, Eq, Error)]
pub enum ClockFault {
    /// There are 256 clocks.
    #[error("there are too many clocks")]
    TooMany,
    /// The clock's tick isn't above that of the last clock.
    #[error("the clock is out of order")]
    Order,
    /// The clock's rate is 0.
    #[error("the clock has no rate")]
    Rate,
}

impl Model for Clocks {
    ghost use Rattle.std.specs.Prelude.{◌≤◌, List, All};
    ghost use Rattle.std.specs.Vec.{vec_capacity};
    ghost use Rattle.log_dictionary.specs.declared.clock.Clock.{Clock};
    ghost use Rattle.log_dictionary.specs.declared.clocks.TheConstants.{MAX_CLOCKS};
    ghost use Rattle.log_dictionary.specs.Clocks.{AreClocks, FitsClock};

    ghost Value = { List Clock };

    ghost view = { λ c. c.clocks.items };

    // The room for all clocks is there.
    ghost invariant = { λ c. AreClocks c.clocks.items × All FitsClock c.clocks.items × (MAX_CLOCKS ≤ vec_capacity c.clocks) };
}

// The number of clocks whose ticks are at most the stamp. They stand first.
fn counted(clocks: &[Clock], stamp: u64) -> usize
    requires { AreClocks clocks.now }
    ensures bound { result ≤ length clocks.now }
    ensures value { IsPartitionPoint (λ clock. clock.tick ≤ stamp) (λ clock. stamp < clock.tick) clocks.now result }
{
    clocks.partition_point(|clock| clock.tick <= stamp)
}

impl Clocks {
    /// The clocks of a run that has this one so far. The room for all that may follow is taken here.
    pub fn make(alloc: Global, first: Clock) -> Result<Clocks, AllocError>
        requires { 1 ≤ first.rate }
        ensures { IfOk result (λ clocks. clocks ≡ first ∷ []) }
    {
        let mut clocks = Vec::with_capacity(alloc, MAX_CLOCKS)?;
        clocks.push_reserved(first);
        Ok(Clocks { clocks })
    }

    /// A copy, with the room for all that may follow.
    pub fn copy(&self, alloc: Global) -> Result<Clocks, AllocError>
        ensures value { IfOk result (λ clocks. clocks ≡ self.now) }
        ensures clocks { IfOk result (λ clocks. AreClocks clocks) }
        ensures fit { IfOk result (λ clocks. All FitsClock clocks) }
    {
        let mut clocks = Vec::with_capacity(alloc, MAX_CLOCKS)?;
        clocks.extend_from_slice(self.clocks.as_slice())?;
        Ok(Clocks { clocks })
    }

    /// The number of clocks.
    pub fn len(&self) -> usize
        ensures value { result ≡ length self.now }
        ensures clocks { AreClocks self.now }
    {
        self.clocks.len()
    }

    /// The clock at the place, counted from 0, if there is one.
    pub fn get(&self, place: usize) -> Option<Clock>
        ensures value { result ≡ slice_get self.now place }
        ensures none { IsNone result ↔ (length self.now ≤ place) }
    {
        self.clocks.as_slice().get(place).copied()
    }

    /// The clock that counts at a stamp: the last one whose tick is at most the stamp.
    pub fn at(&self, stamp: u64) -> Clock
        requires { first_tick self.now ≤ stamp }
        ensures counts { clock_at self.now stamp ≡ Some result }

        // The clock has a time at the stamp.
        ensures not_before { result.tick ≤ stamp }
        ensures rate { 1 ≤ result.rate }
    {
        let clocks = self.clocks.as_slice();
        let last = clocks[clocks.len() - 1];
        if last.tick <= stamp {
            return last;
        }
        clocks[counted(clocks, stamp) - 1]
    }

    /// The clocks, in their order.
    pub fn as_slice(&self) -> &[Clock]
        ensures value { result.now ≡ self.now }
        ensures clocks { AreClocks result.now }
    {
        self.clocks.as_slice()
    }

    /// How many of the clocks a stamp has reached: their ticks are at most the stamp. They stand first.
    pub fn reached(&self, stamp: u64) -> usize
        ensures bound { result ≤ length self.now }
        ensures value { IsPartitionPoint (λ clock. clock.tick ≤ stamp) (λ clock. stamp < clock.tick) self.now result }
    {
        counted(self.clocks.as_slice(), stamp)
    }

    /// The first clock.
    pub fn first(&self) -> Clock
        ensures { slice_get self.now 0 ≡ Some result }
    {
        self.clocks.as_slice()[0]
    }

    /// Whether the clock may follow the others.
    ///
    /// # Errors
    ///
    /// Why it may not.
    pub fn check(&self, clock: &Clock) -> Result<(), ClockFault>
        ensures ok { OnOk result (FollowsClocks self.now clock.now) }
        ensures too_many { (result ≡ Err ClockFault.TooMany) ↔ StopsClock self.now clock.now ClockFault.TooMany }
        ensures order { (result ≡ Err ClockFault.Order) ↔ StopsClock self.now clock.now ClockFault.Order }
        ensures rate { (result ≡ Err ClockFault.Rate) ↔ StopsClock self.now clock.now ClockFault.Rate }
    {
        let clocks = self.clocks.as_slice();
        if clocks.len() == MAX_CLOCKS {
            return Err(ClockFault::TooMany);
        }
        if clock.tick <= clocks[clocks.len() - 1].tick {
            return Err(ClockFault::Order);
        }
        if clock.rate == 0 {
            return Err(ClockFault::Rate);
        }
        Ok(())
    }

    /// Adds a clock behind the others, in room that is there.
    pub fn add(&mut self, clock: Clock) -> Result<(), ClockFault>
        ensures ok { IfOk result (λ _. self.new ≡ self.old ++ clock ∷ []) }
        ensures err { OnErr result (self.new ≡ self.old) }
        ensures too_many { (result ≡ Err ClockFault.TooMany) ↔ StopsClock self.old clock ClockFault.TooMany }
        ensures order { (result ≡ Err ClockFault.Order) ↔ StopsClock self.old clock ClockFault.Order }
        ensures rate { (result ≡ Err ClockFault.Rate) ↔ StopsClock self.old clock ClockFault.Rate }
    {
        self.check(&clock)?;
        self.clocks.push_reserved(clock);
        Ok(())
    }
}
