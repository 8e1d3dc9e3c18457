//! Several rings.

ghost use Rattle.std.specs.Prelude.{◌≡◌, ◌<◌, ◌≤◌, ◌↔◌, ◌⊎◌, None, Some, length, slice_get, IfOk, IfErr, IfSome, IsErrOf, IsTrue, OnOk, OnErr};
ghost use Rattle.session_options.specs.declared.limits.TheConstants.{MIN_RING, MAX_RING};
ghost use Rattle.ring_core.specs.declared.limits.TheConstants.{MAX_POSITION};
ghost use Rattle.ring_core.specs.declared.answers.StageFault.TheVariants as faults;
ghost use Rattle.ring_machine.specs.RingStates.{RingOk, written};
ghost use Rattle.ring_machine.specs.Steps.{event_barred, IsEvent};
ghost use Rattle.ring_machine.specs.Rings.{new_rings, view_of};

use crate::ring::Ring;
use crate::steps::{Barred, Event};
use crate::view::RingView;
use ring_core::{MAX_POSITION, StageFault};
use session_options::{MAX_RING, MIN_RING};
use std::alloc::Global;
use std::marker::Model;

/// The most rings.
pub const MAX_RINGS: u32 = 64;

/// Rings of one size, each with one writer and one roamer, whose steps come one at a time.
#[derive(Drop)]
pub struct Rings {
    rings: Vec<Ring>,
}

impl Model for Rings {
    ghost use Rattle.std.specs.Prelude.{List};
    ghost use Rattle.ring_machine.specs.RingStates.{RingState};

    ghost Value = { List RingState };

    ghost view = { λ r. r.rings.items };
}

impl Rings {
    /// So many new rings of so many words.
    pub fn make(alloc: Global, rings: u32, words: u64) -> Result<Rings, StageFault>
        requires { (1 ≤ rings) × (rings ≤ MAX_RINGS) }
        ensures bad_size { IsErrOf result StageFault.BadSize ↔ ((words < MIN_RING) ⊎ (MAX_RING < words)) }
        ensures ok { IfOk result (λ made. made ≡ new_rings rings words) }
    {
        if words < MIN_RING || words > MAX_RING {
            return Err(StageFault::BadSize);
        }
        let mut made = Vec::new(alloc);
        for _ in 0..rings {
            let Ok(ring) = Ring::make(alloc, words) else {
                return Err(StageFault::NoMemory);
            };
            if made.push(ring).is_err() {
                return Err(StageFault::NoMemory);
            }
        }
        Ok(Rings { rings: made })
    }

    /// How many rings there are.
    pub fn len(&self) -> usize
        ensures { result ≡ length self.now }
    {
        self.rings.len()
    }

    /// Whether a step may be tried in the ring: it hasn't come to the greatest position, or isn't there.
    pub fn has_room(&self, ring: u32) -> bool
        ensures { IsTrue result ↔ IfSome (slice_get self.now ring) (λ s. (written s).at ≤ MAX_POSITION) }
    {
        match self.rings.get(ring as usize) {
            Some(ring) => ring.view().written <= MAX_POSITION,
            None => true,
        }
    }

    /// One step of one ring. Where it is barred, nothing changes.
    pub fn step(&mut self, event: Event) -> Result<(), Barred>
        requires { IfSome (slice_get self.old event.ring) (λ s. (written s).at ≤ MAX_POSITION) }
        ensures ok { OnOk result (IsEvent self.old event self.new) }
        ensures barred { IfErr result (λ cause. (event_barred self.old event ≡ Some cause)
            ⊎ ((cause ≡ Barred.NoMemory) × (event_barred self.old event ≡ None))) }
        ensures err { OnErr result (self.new ≡ self.old) }
    {
        let number = event.ring as usize;
        if number >= self.rings.len() {
            return Err(Barred::Ring);
        }
        let ring = &mut self.rings[number];
        if let Some(cause) = ring.barred(event.step) {
            return Err(cause);
        }
        ring.go(event.step)?;
        Ok(())
    }

    /// What is shown of a ring.
    pub fn view(&self, ring: u32) -> RingView
        requires { ring < length self.now }
        ensures view { IfSome (slice_get self.now ring) (λ s. result ≡ view_of s) }
        ensures ok { IfSome (slice_get self.now ring) RingOk }
    {
        self.rings[ring as usize].view()
    }
}
