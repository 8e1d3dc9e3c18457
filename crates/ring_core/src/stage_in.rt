//! The writer's end of a ring.

ghost use Rattle.std.specs.Prelude.{◌≡◌, ◌+◌, ◌≤◌, ◌∷◌, ◌++◌, [], ℕ, Bool, true, false, List, length, OnOk, OnErr, IfErr};
ghost use Rattle.nl_io.specs.Count.{Rose};
ghost use Rattle.ring_core.specs.declared.limits.TheConstants.{MAX_POSITION, OFFER_ROOM};
ghost use Rattle.ring_core.specs.Positions.{Need};
ghost use Rattle.ring_core.specs.Plans.{Plan, Lawful};
ghost use Rattle.ring_core.specs.Answers.{IsFull, HasRoom};
ghost use Rattle.ring_core.specs.Counts.{RisesBy};

use crate::answers::Full;

/// The end of a ring into which a writer puts the frames of its calls.
pub trait StageIn {
    /// The frames that were accepted.
    ghost sent: { Self → List (List ℕ) };

    /// Whether the end was closed.
    ghost closed: { Self → Bool };

    /// The position in the stream: how many places were filled or skipped.
    ghost at: { Self → ℕ };

    /// Up to which position the writer knows that its frames were taken.
    ghost seen: { Self → ℕ };

    /// How often the writer looked how far its frames were taken.
    ghost looks: { Self → ℕ };

    /// How many words the ring has.
    ghost words: { Self → ℕ };

    /// Which ring it is: both ends of a ring have the same numbers.
    ghost pair: { Self → List ℕ };

    /// What the two ends agree on.
    ghost plan: { Self → Plan };

    /// How many steps the end made on the words that both ends share.
    ghost steps: { Self → ℕ };

    /// Puts a frame behind those that were put before, if the ring has room for it.
    fn offer(&mut self, frame: &[u64]) -> Result<(), Full>
        requires lawful { Lawful (plan self.old) (sent self.old ++ frame.now ∷ []) }
        requires not_closed { closed self.old ≡ false }
        requires position { at self.old + OFFER_ROOM ≤ MAX_POSITION }
        ensures ok { OnOk result (sent self.new ≡ sent self.old ++ frame.now ∷ []) }
        ensures moved { OnOk result (at self.new
            ≡ at self.old + Need (at self.old) (length frame.now) (words self.old)) }
        ensures room { OnOk result (HasRoom (at self.old) (length frame.now) (words self.old) (seen self.new)) }
        ensures full { IfErr result (IsFull (at self.old) (length frame.now) (words self.old) (seen self.new)) }
        ensures looked { OnErr result (Rose (looks self.old) (looks self.new)) }
        ensures err { OnErr result ((sent self.new ≡ sent self.old) × (at self.new ≡ at self.old)) }
        ensures stays_open { closed self.new ≡ false }
        ensures seen_never_falls { seen self.old ≤ seen self.new }
        ensures looks_never_fall { looks self.old ≤ looks self.new }
        ensures steps { RisesBy (length frame.now + 3) (steps self.old) (steps self.new) }
        ensures same { (words self.new ≡ words self.old) × (pair self.new ≡ pair self.old)
            × (plan self.new ≡ plan self.old) };

    /// Closes the end: no frame comes behind those that were put.
    fn close(&mut self)
        requires { closed self.old ≡ false }
        ensures closed { closed self.new ≡ true }
        ensures others { (sent self.new ≡ sent self.old) × (at self.new ≡ at self.old)
            × (seen self.new ≡ seen self.old) }
        ensures looks_never_fall { looks self.old ≤ looks self.new }
        ensures steps { RisesBy 1 (steps self.old) (steps self.new) }
        ensures same { (words self.new ≡ words self.old) × (pair self.new ≡ pair self.old)
            × (plan self.new ≡ plan self.old) };

    /// The position in the stream.
    fn at(&self) -> u64
        ensures { result ≡ at self.now };

    /// How many words the ring has.
    fn words(&self) -> u64
        ensures { result ≡ words self.now };

    /// No frame is taken before it was put.
    ghost seen_within: { (end : Self) → seen end ≤ at end };
}
