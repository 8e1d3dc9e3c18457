//! Laws and worked examples of the definitions. The functions do nothing: what they ensure is proved of the
//! definitions.

ghost use Rattle.std.specs.Prelude.{◌≡◌, ◌⊎◌, ◌<◌, ◌≤◌, ◌∷◌, ◌++◌, ℕ, List, [], codes, length, Contains, None};
ghost use Rattle.ring_machine.specs.RingStates.{RingState};
ghost use Rattle.schedule_text.specs.declared.cause.ScheduleCause.{ScheduleCause as CauseValue};
ghost use Rattle.schedule_text.specs.declared.cause.ScheduleCause.TheVariants as causes;
ghost use Rattle.schedule_text.specs.declared.playing.TheConstants.{MAX_STEPS, MAX_TEXT};
ghost use Rattle.schedule_text.specs.declared.head_line.TheConstants.{MAX_WORDS};
ghost use Rattle.schedule_text.specs.Causes.{cause_number, cause_name};
ghost use Rattle.schedule_text.specs.Lines.{step_at, sizes_at};
ghost use Rattle.schedule_text.specs.Judged.{ScheduleOutcome, refused_at, judged};
ghost use Rattle.schedule_text.specs.Schedules.{Schedule, ScheduleText, ScheduleBreak, ComesTo};
ghost use Rattle.schedule_text.specs.Rows.{with_ring, one_frame, one_frame_lines, done_with, refused_behind};

/// The limits of schedules, as numbers.
pub fn limits_have_these_numbers()
    ensures steps { MAX_STEPS ≡ 1000000 }
    ensures words { MAX_WORDS ≡ 65536 }
    ensures text { MAX_TEXT ≡ 65000200 }
{}

/// All causes, each with its number and its name.
pub fn causes_have_numbers_and_names()
    ensures { (cause : CauseValue) → Contains {X = CauseValue × ℕ × List ℕ}
        ((causes.Header, 1, codes "Header") ∷ (causes.Step, 2, codes "Step") ∷ (causes.Ring, 3, codes "Ring")
        ∷ (causes.Closed, 4, codes "Closed") ∷ (causes.MidFrame, 5, codes "MidFrame")
        ∷ (causes.BadWord, 6, codes "BadWord") ∷ (causes.AtEdge, 7, codes "AtEdge")
        ∷ (causes.NoRoom, 8, codes "NoRoom") ∷ (causes.Empty, 9, codes "Empty")
        ∷ (causes.Nothing, 10, codes "Nothing") ∷ (causes.TooMany, 11, codes "TooMany") ∷ [])
        (cause, cause_number cause, cause_name cause) }
{}

/// A line of more than 64 bytes says nothing.
pub fn long_lines_say_nothing()
    ensures steps { (line : List ℕ) → 64 < length line → step_at line ≡ None }
    ensures rings { (line : List ℕ) → 64 < length line → sizes_at line ≡ None }
{}

/// A frame goes through a ring.
pub fn a_frame_goes_through_a_ring()
    ensures { judged one_frame ≡ done_with one_frame_lines }
{}

/// Where the first two lines are wrong, nothing is printed.
pub fn schedules_begin_with_rings()
    ensures empty { judged [] ≡ refused_at 1 causes.Header }
    ensures other { judged (codes "nanolog-schedule 2\nrings 1 1024\n") ≡ refused_at 1 causes.Header }
    ensures no_rings { judged (codes "nanolog-schedule 1\n") ≡ refused_at 2 causes.Header }
    ensures none { judged (codes "nanolog-schedule 1\nrings 0 1024\n") ≡ refused_at 2 causes.Header }
    ensures too_many { judged (codes "nanolog-schedule 1\nrings 65 1024\n") ≡ refused_at 2 causes.Header }
    ensures too_small { judged (codes "nanolog-schedule 1\nrings 1 1023\n") ≡ refused_at 2 causes.Header }
    ensures too_large { judged (codes "nanolog-schedule 1\nrings 1 65537\n") ≡ refused_at 2 causes.Header }
    ensures unended { judged (codes "nanolog-schedule 1\nrings 1 1024") ≡ refused_at 2 causes.Header }
{}

/// Lines that are refused, each for the first of its causes.
pub fn lines_are_refused()
    ensures unknown { judged (with_ring (codes "jump 0\n")) ≡ refused_at 3 causes.Step }
    ensures empty { judged (with_ring (codes "\n")) ≡ refused_at 3 causes.Step }
    ensures no_ring { judged (with_ring (codes "look\n")) ≡ refused_at 3 causes.Step }
    ensures no_word { judged (with_ring (codes "store 0\n")) ≡ refused_at 3 causes.Step }
    ensures one_word { judged (with_ring (codes "look 0 1\n")) ≡ refused_at 3 causes.Step }
    ensures leading_zero { judged (with_ring (codes "look 00\n")) ≡ refused_at 3 causes.Step }
    ensures unended { judged (with_ring (codes "look 0")) ≡ refused_at 3 causes.Step }
    ensures other_ring { judged (with_ring (codes "look 1\n")) ≡ refused_at 3 causes.Ring }
    ensures ring_first { judged (with_ring (codes "store 1 1\n")) ≡ refused_at 3 causes.Ring }
    ensures bad_word { judged (with_ring (codes "store 0 1\n")) ≡ refused_at 3 causes.BadWord }
    ensures at_edge { judged (with_ring (codes "skip 0\n")) ≡ refused_at 3 causes.AtEdge }
    ensures nothing_read { judged (with_ring (codes "read 0\n")) ≡ refused_at 3 causes.Empty }
    ensures nothing_stored { judged (with_ring (codes "publish 0\n")) ≡ refused_at 3 causes.Nothing }
    ensures nothing_to_release { judged (with_ring (codes "release 0\n")) ≡ refused_at 3 causes.Nothing }
    ensures in_a_frame { judged (with_ring (codes "store 0 3\npublish 0\n")) ≡ refused_behind
        (codes "1 store 0: written 1 published 0 released 0 seen 0 loaded 0 read 0\n") 4 causes.MidFrame }
    ensures closed { judged (with_ring (codes "close 0\nclose 0\n")) ≡ refused_behind
        (codes "1 close 0: written 0 published 0 released 0 seen 0 loaded 0 read 0\n") 4 causes.Closed }
{}

/// A roamer that has learnt that its ring is closed, and has read all, has ended.
pub fn closed_rings_end()
    ensures { judged (with_ring (codes "close 0\nload 0\n")) ≡ done_with
        (codes "1 close 0: written 0 published 0 released 0 seen 0 loaded 0 read 0\n"
        ++ codes "2 load 0: written 0 published 0 released 0 seen 0 loaded 0 read 0\n"
        ++ codes "ring 0: sent 0 got 0 ended\n") }
{}

/// Bytes are the text of one schedule that is played, or are refused at one line for one cause: one of the two holds,
/// and only one.
pub fn texts_are_told_apart()
    ensures one_holds { (bytes : List ℕ) → ((s : Schedule) × (last : List RingState) × ScheduleText bytes s last)
        ⊎ ((line : ℕ) × (cause : CauseValue) × ScheduleBreak bytes line cause) }
    ensures not_both { (bytes : List ℕ) (s : Schedule) (last : List RingState) (line : ℕ) (cause : CauseValue)
        → ScheduleText bytes s last → ¬ (ScheduleBreak bytes line cause) }
    ensures one_break { (bytes : List ℕ) (i j : ℕ) (a b : CauseValue) → ScheduleBreak bytes i a
        → ScheduleBreak bytes j b → (i ≡ j) × (a ≡ b) }
    ensures comes { (bytes : List ℕ) → ComesTo bytes (judged bytes) }
    ensures comes_once { (bytes : List ℕ) (outcome : ScheduleOutcome) → ComesTo bytes outcome → judged bytes ≡ outcome }
{}

/// As many bytes as the limit of texts decide what longer ones come to.
pub fn long_texts_are_decided()
    ensures { (bytes more : List ℕ) → MAX_TEXT ≤ length bytes → judged (bytes ++ more) ≡ judged bytes }
{}
