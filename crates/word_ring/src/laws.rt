//! Laws over the tables of rings. The functions do nothing: what they ensure is proved of the definitions.
//! A table that is a ring lays out a state of the machine. Each step of an end is a step of the machine there, and where
//! the ends are parted and come together, the state stays.

ghost use Rattle.std.specs.Prelude.{◌≡◌, ◌+◌, ◌*◌, ◌%◌, ◌≤◌, ◌++◌, ◌∷◌, [], ℕ, true, None, replicate, slice_index, slice_set};
ghost use mathlib.Core.Option.{some};
ghost use lib.ListN.{get_elem?};
ghost use Rattle.atomic_table.specs.Table.{opening};
ghost use Rattle.ring_core.specs.Plans.{Plan, Lawful};
ghost use Rattle.ring_machine.specs.declared.steps.StepKind.TheVariants as steps;
ghost use Rattle.ring_machine.specs.RingStates.{new_ring};
ghost use Rattle.word_ring.specs.declared.known.Known.{Known};
ghost use Rattle.word_ring.specs.declared.places.TheConstants.{PRODUCER, CONSUMER, DATA};
ghost use Rattle.word_ring.specs.Events.{MakesStep, StaysRing};
ghost use Rattle.word_ring.specs.Plays.{written_by, read_by, writer_barred, roamer_barred, put_step};
ghost use Rattle.word_ring.specs.Plays.{having_looked, having_put, having_published, having_closed};
ghost use Rattle.word_ring.specs.Plays.{having_loaded, having_read, having_released};
ghost use Rattle.word_ring.specs.Rule.{newcomer, writer_of, roamer_of, both_of, spent, plan_in};
ghost use Rattle.word_ring.specs.Rule.{RingTable, IsRingTable};

/// A step of the writer that what its seat knows doesn't bar is the step of the machine in whatever ring the table is.
pub fn the_writers_steps_are_events()
    ensures look { (size seat : ℕ) (v : Known) → v.writes ≡ true → writer_barred v steps.Look ≡ None
        → MakesStep size seat v CONSUMER (λ found. found) (having_looked v) steps.Look }
    ensures put { (size seat word : ℕ) (v : Known) → v.writes ≡ true → writer_barred v (put_step v word) ≡ None
        → Lawful (plan_in v) (written_by (having_put v word)).frames
        → MakesStep size seat v (DATA + (written_by v).at % v.size) (λ _. word) (λ _. having_put v word)
        (put_step v word) }
    ensures publish { (size seat : ℕ) (v : Known) → v.writes ≡ true → writer_barred v steps.Publish ≡ None
        → MakesStep size seat v PRODUCER (λ _. 2 * (written_by v).at) (λ _. having_published v) steps.Publish }
    ensures close { (size seat : ℕ) (v : Known) → v.writes ≡ true → writer_barred v steps.Close ≡ None
        → MakesStep size seat v PRODUCER (λ _. 2 * (written_by v).at + 1) (λ _. having_closed v) steps.Close }
{}

/// And so is a step of the roamer.
pub fn the_roamers_steps_are_events()
    ensures load { (size seat : ℕ) (v : Known) → v.reads ≡ true
        → MakesStep size seat v PRODUCER (λ found. found) (having_loaded v) steps.Load }
    ensures read { (size seat : ℕ) (v : Known) → v.reads ≡ true → roamer_barred v steps.Read ≡ None
        → MakesStep size seat v (DATA + (read_by v).at % v.size) (λ found. found) (having_read v) steps.Read }
    ensures release { (size seat : ℕ) (v : Known) → v.reads ≡ true → roamer_barred v steps.Release ≡ None
        → MakesStep size seat v CONSUMER (λ _. (read_by v).at) (λ _. having_released v) steps.Release }
{}

/// A new table is a new ring. The ring stays as it is where the roles of writer and roamer are parted, where they come
/// together again, and where a seat loads a word and knows what it knew.
pub fn rings_stay_where_no_step_is_made()
    ensures new { (size : ℕ) → 1 ≤ size
        → (ring : IsRingTable size (opening (replicate (DATA + size) 0) [] (newcomer size)))
        × (ring.ring ≡ new_ring size) }
    ensures parted { (size seat : ℕ) (plan : Plan) (v : Known) (table : RingTable) (before : IsRingTable size table)
        → get_elem? table.views seat ≡ some v
        → v ≡ newcomer v.size
        → StaysRing size table before (record table {
          views = slice_set table.views seat (writer_of plan v) ++ roamer_of plan v ∷ [];
        }) }
    ensures joined { (size seat other : ℕ) (v u : Known) (table : RingTable) (before : IsRingTable size table)
        → get_elem? table.views seat ≡ some v
        → ¬ (other ≡ seat)
        → get_elem? (slice_set table.views seat (both_of v u)) other ≡ some u
        → v.writes ≡ true
        → u.reads ≡ true
        → StaysRing size table before (record table {
          views = slice_set (slice_set table.views seat (both_of v u)) other spent;
        }) }
    ensures loaded { (size seat : ℕ) (v : Known) (table : RingTable) (before : IsRingTable size table)
        → get_elem? table.views seat ≡ some v
        → StaysRing size table before (record table {
          words = slice_set table.words PRODUCER (slice_index table.words PRODUCER);
          views = slice_set table.views seat v;
        }) }
{}
