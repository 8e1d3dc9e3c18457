//! The roamer's end of a ring.

ghost use Rattle.std.specs.Prelude.{◌≡◌, ◌+◌, ◌≤◌, ◌∷◌, ◌++◌, [], ℕ, Bool, true, List, take};
ghost use Rattle.nl_io.specs.Count.{Rose};
ghost use Rattle.arg_records.specs.declared.frame.TheConstants.{MAX_FRAME_WORDS};
ghost use Rattle.ring_core.specs.Plans.{Plan, Lawful};
ghost use Rattle.ring_core.specs.Answers.{IfFrame, IfNoFrame, is_ended};
ghost use Rattle.ring_core.specs.Counts.{RisesBy};

use crate::answers::Taken;
use arg_records::MAX_FRAME_WORDS;

/// The end of a ring from which a roamer, who goes from ring to ring, takes the frames of one writer.
pub trait StageOut {
    /// The frames that were taken.
    ghost got: { Self → List (List ℕ) };

    /// Whether the end has answered that the writer closed its own and that all its frames were taken.
    ghost ended: { Self → Bool };

    /// How often the roamer looked how far the frames were put.
    ghost loads: { Self → ℕ };

    /// Which ring it is: both ends of a ring have the same numbers.
    ghost pair: { Self → List ℕ };

    /// What the two ends agree on.
    ghost plan: { Self → Plan };

    /// How many steps the end made on the words that both ends share.
    ghost steps: { Self → ℕ };

    /// Takes the next frame into the front of `into`. What stands behind it there, and all of `into` where no frame was
    /// taken, is left open.
    fn take(&mut self, into: &mut [u64; MAX_FRAME_WORDS]) -> Taken
        ensures within { IfFrame result (λ n. n ≤ MAX_FRAME_WORDS) }
        ensures frame { IfFrame result (λ n. got self.new ≡ got self.old ++ take n into.new ∷ []) }
        ensures lawful { IfFrame result (λ _. Lawful (plan self.old) (got self.new)) }
        ensures none { IfNoFrame result (got self.new ≡ got self.old) }
        ensures nothing { result ≡ Taken.Nothing → Rose (loads self.old) (loads self.new) }
        ensures ended { ended self.new ≡ is_ended result }
        ensures stays_ended { ended self.old ≡ true → result ≡ Taken.Ended }
        ensures loads_never_fall { loads self.old ≤ loads self.new }
        ensures frame_steps { IfFrame result (λ n. RisesBy (n + 3) (steps self.old) (steps self.new)) }
        ensures other_steps { IfNoFrame result (RisesBy 3 (steps self.old) (steps self.new)) }
        ensures same { (pair self.new ≡ pair self.old) × (plan self.new ≡ plan self.old) };
}
