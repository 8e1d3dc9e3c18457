//! Laws over the states and the steps of a ring. The functions do nothing: what they ensure is proved of the definitions.
//! A law is about one ring and one step of it, wherever the ring's words and records are kept. Those of several rings and
//! of whole schedules stand at the end.

ghost use Rattle.std.specs.Prelude.{◌≡◌, ◌≢◌, ◌≤◌, ◌++◌, ◌∷◌, [], ℕ, true, false, List, None, Some, length, replicate, slice_get, All};
ghost use Rattle.ring_core.specs.Plans.{Plan, BeginsWith, Lawful};
ghost use Rattle.ring_machine.specs.declared.rings.TheConstants.{MAX_RINGS};
ghost use Rattle.ring_machine.specs.declared.steps.StepKind.{StepKind};
ghost use Rattle.ring_machine.specs.declared.steps.StepKind.TheVariants as steps;
ghost use Rattle.ring_machine.specs.declared.steps.Event.{Event};
ghost use Rattle.ring_machine.specs.declared.steps.Barred.TheVariants as bars;
ghost use Rattle.ring_machine.specs.Streams.{is_whole_frame, IsStream};
ghost use Rattle.ring_machine.specs.RingStates.{RingState, new_ring, written, sent, got, has_ended, RingOk, RingLawful};
ghost use Rattle.ring_machine.specs.Steps.{barred, after_step, is_store, IsEvent, Run};
ghost use Rattle.ring_machine.specs.Rings.{new_rings};
ghost use Rattle.ring_machine.specs.Rows.{row_ring, row_steps, positions_after, bars_after, after_all};

/// The limit of rings, as a number.
pub fn limits_have_these_numbers()
    ensures rings { MAX_RINGS ≡ 64 }
{}

/// A worked schedule in a ring of 1,024 words: the positions written, published, released, seen, loaded and read after
/// each of ten steps, none of which is barred.
pub fn a_worked_schedule()
    ensures positions { positions_after row_ring row_steps ≡
        (0 ∷ 0 ∷ 0 ∷ 0 ∷ 0 ∷ 0 ∷ [])
        ∷ (1 ∷ 0 ∷ 0 ∷ 0 ∷ 0 ∷ 0 ∷ [])
        ∷ (2 ∷ 0 ∷ 0 ∷ 0 ∷ 0 ∷ 0 ∷ [])
        ∷ (3 ∷ 0 ∷ 0 ∷ 0 ∷ 0 ∷ 0 ∷ [])
        ∷ (3 ∷ 3 ∷ 0 ∷ 0 ∷ 0 ∷ 0 ∷ [])
        ∷ (3 ∷ 3 ∷ 0 ∷ 0 ∷ 3 ∷ 0 ∷ [])
        ∷ (3 ∷ 3 ∷ 0 ∷ 0 ∷ 3 ∷ 1 ∷ [])
        ∷ (3 ∷ 3 ∷ 0 ∷ 0 ∷ 3 ∷ 2 ∷ [])
        ∷ (3 ∷ 3 ∷ 0 ∷ 0 ∷ 3 ∷ 3 ∷ [])
        ∷ (3 ∷ 3 ∷ 3 ∷ 0 ∷ 3 ∷ 3 ∷ [])
        ∷ [] }
    ensures open { bars_after row_ring row_steps ≡ replicate 10 None }
    ensures sent { sent (after_all row_ring row_steps) ≡ (3 ∷ 1003 ∷ 7 ∷ []) ∷ [] }
    ensures got { got (after_all row_ring row_steps) ≡ (3 ∷ 1003 ∷ 7 ∷ []) ∷ [] }
    ensures not_ended { has_ended (after_all row_ring row_steps) ≡ false }
{}

/// What is barred in a new ring, and in one whose frame isn't whole or that is closed.
pub fn worked_bars()
    ensures empty { barred row_ring steps.Read ≡ Some bars.Empty }
    ensures bad_word { barred row_ring (steps.Store 1) ≡ Some bars.BadWord }
    ensures at_edge { barred row_ring steps.Skip ≡ Some bars.AtEdge }
    ensures not_stored { barred row_ring steps.Publish ≡ Some bars.Nothing }
    ensures not_read { barred row_ring steps.Release ≡ Some bars.Nothing }
    ensures part { barred (after_step row_ring (steps.Store 3)) steps.Publish ≡ Some bars.MidFrame }
    ensures closed { barred (after_step row_ring steps.Close) steps.Close ≡ Some bars.Closed }
    ensures ended { has_ended (after_step (after_step row_ring steps.Close) steps.Load) ≡ true }
{}

/// What holds of every ring at every moment holds of a new one.
pub fn a_new_ring_is_right()
    ensures { (size : ℕ) → 1 ≤ size → RingOk (new_ring size) }
{}

/// A step of the writer that isn't barred keeps it.
pub fn the_writers_steps_keep_a_ring()
    ensures look { (s : RingState) → RingOk s → barred s steps.Look ≡ None → RingOk (after_step s steps.Look) }
    ensures store { (s : RingState) (word : ℕ) → RingOk s → barred s (steps.Store word) ≡ None
        → RingOk (after_step s (steps.Store word)) }
    ensures skip { (s : RingState) → RingOk s → barred s steps.Skip ≡ None → RingOk (after_step s steps.Skip) }
    ensures publish { (s : RingState) → RingOk s → barred s steps.Publish ≡ None → RingOk (after_step s steps.Publish) }
    ensures close { (s : RingState) → RingOk s → barred s steps.Close ≡ None → RingOk (after_step s steps.Close) }
{}

/// And so does a step of the roamer.
pub fn the_roamers_steps_keep_a_ring()
    ensures load { (s : RingState) → RingOk s → barred s steps.Load ≡ None → RingOk (after_step s steps.Load) }
    ensures read { (s : RingState) → RingOk s → barred s steps.Read ≡ None → RingOk (after_step s steps.Read) }
    ensures release { (s : RingState) → RingOk s → barred s steps.Release ≡ None → RingOk (after_step s steps.Release) }
{}

/// What was got is a front of what was sent, and all of it where the roamer has ended. What was read is frames and skips,
/// the last frame perhaps not whole.
pub fn what_was_got_was_sent()
    ensures front { (s : RingState) → RingOk s → BeginsWith (sent s) (got s) }
    ensures whole { (s : RingState) → RingOk s → has_ended s ≡ true → got s ≡ sent s }
    ensures read { (s : RingState) → RingOk s → IsStream s.size s.roamer.stream }
{}

/// Frames stay lawful: where a word makes a frame whole, the frames are to be lawful with it, and no other step asks for
/// anything.
pub fn frames_stay_lawful()
    ensures store { (plan : Plan) (s : RingState) (word : ℕ) → RingOk s → RingLawful plan s
        → barred s (steps.Store word) ≡ None
        → (is_whole_frame ((written s).part ++ word ∷ []) ≡ true
        → Lawful plan ((written s).frames ++ ((written s).part ++ word ∷ []) ∷ []))
        → RingLawful plan (after_step s (steps.Store word)) }
    ensures other { (plan : Plan) (s : RingState) (step : StepKind) → RingOk s → RingLawful plan s
        → barred s step ≡ None
        → is_store step ≡ false
        → RingLawful plan (after_step s step) }
{}

/// An event in one of several rings keeps what holds of each, and leaves all rings but its own.
pub fn an_event_keeps_all_rings()
    ensures kept { (rings next : List RingState) (event : Event) → All RingOk rings → IsEvent rings event next
        → All RingOk next }
    ensures others { (rings next : List RingState) (event : Event) (ring : ℕ) → IsEvent rings event next
        → ring ≢ event.ring
        → slice_get next ring ≡ slice_get rings ring }
    ensures number { (rings next : List RingState) (event : Event) → IsEvent rings event next
        → length next ≡ length rings }
{}

/// After each event of any schedule, whatever its rings and their size are: what holds of a ring at every moment, what was
/// got is a front of what was sent, and all of it where the roamer has ended.
pub fn every_schedule()
    ensures right { (count size : ℕ) (events : List Event) (last : List RingState) → 1 ≤ size
        → Run (new_rings count size) events last
        → All RingOk last }
    ensures front { (count size : ℕ) (events : List Event) (last : List RingState) → 1 ≤ size
        → Run (new_rings count size) events last
        → All (λ s. BeginsWith (sent s) (got s)) last }
    ensures whole { (count size : ℕ) (events : List Event) (last : List RingState) → 1 ≤ size
        → Run (new_rings count size) events last
        → All (λ s. has_ended s ≡ true → got s ≡ sent s) last }
{}
