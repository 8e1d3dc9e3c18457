//! Finding the clocks of records that come by their stamps.

ghost use Rattle.std.specs.Prelude.{◌≡◌, ◌<◌, ◌≤◌, Some, IfSome};
ghost use Rattle.log_dictionary.specs.declared.clocks.TheConstants.{MAX_CLOCKS};
ghost use Rattle.log_dictionary.specs.Clocks.{AreClocks, first_tick};
ghost use Rattle.log_dictionary.specs.Times.{clock_at as clock_at_stamp};

use log_dictionary::{Clock, Clocks};
use std::marker::Model;

/// The place of the clock by which the last line was made. The next line mostly goes by this one, or by the one behind
/// it.
#[derive(Debug, Drop)]
pub struct ClockPlace {
    place: usize,
}

impl Model for ClockPlace {
    ghost use Rattle.std.specs.Prelude.{◌<◌, ℕ};
    ghost use Rattle.log_dictionary.specs.declared.clocks.TheConstants.{MAX_CLOCKS};

    ghost Value = { ℕ };

    ghost view = { λ p. p.place };

    ghost invariant = { λ p. p.place < MAX_CLOCKS };
}

// The clock at the place, if it is the one that counts at the stamp.
fn counting(clocks: &Clocks, place: usize, stamp: u64) -> Option<Clock>
    requires formed { AreClocks clocks.now }
    requires within { place < MAX_CLOCKS }
    ensures counts { IfSome result (λ clock. clock_at_stamp clocks.now stamp ≡ Some clock) }
    ensures not_before { IfSome result (λ clock. clock.tick ≤ stamp) }
    ensures rate { IfSome result (λ clock. 1 ≤ clock.rate) }
{
    let clock = clocks.get(place)?;
    if stamp < clock.tick {
        return None;
    }
    match clocks.get(place + 1) {
        Some(next) if next.tick <= stamp => None,
        _ => Some(clock),
    }
}

impl ClockPlace {
    /// That of the first clock.
    pub fn first() -> ClockPlace {
        ClockPlace { place: 0 }
    }

    /// The clock that counts at a stamp: the last one whose tick is at most the stamp. Where stamps rise it is found
    /// without a search.
    pub fn clock_at(&mut self, clocks: &Clocks, stamp: u64) -> Clock
        requires { first_tick clocks.now ≤ stamp }
        ensures counts { clock_at_stamp clocks.now stamp ≡ Some result }
        ensures not_before { result.tick ≤ stamp }
        ensures rate { 1 ≤ result.rate }
    {
        let count = clocks.len();
        if let Some(clock) = counting(clocks, self.place, stamp) {
            return clock;
        }
        if self.place + 1 < count {
            self.place += 1;
        }
        match counting(clocks, self.place, stamp) {
            Some(clock) => clock,
            None => clocks.at(stamp),
        }
    }
}
