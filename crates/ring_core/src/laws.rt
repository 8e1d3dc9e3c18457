//! Laws over the definitions of positions and of lawful frames. The functions do nothing: what they ensure is proved of
//! the definitions.

ghost use Rattle.std.specs.Prelude.{◌≡◌, ◌-◌, ◌%◌, ◌<◌, ◌≤◌, ◌+◌, ◌^◌, ℕ, List, [], ◌∷◌, ◌++◌, length, replicate, slice_index, All};
ghost use Rattle.std.specs.List.{concat};
ghost use Rattle.printf_grammar.specs.declared.argument.Value.{Value};
ghost use Rattle.log_dictionary.specs.declared.message.Message.{Message};
ghost use Rattle.log_dictionary.specs.declared.dictionary.TheConstants.{MAX_MESSAGES};
ghost use Rattle.arg_records.specs.declared.call.Call.{Call};
ghost use Rattle.arg_records.specs.declared.frame.TheConstants.{MAX_FRAME_WORDS};
ghost use Rattle.arg_records.specs.Calls.{IsCall, last_stamp};
ghost use Rattle.arg_records.specs.Frames.{AreArguments, Frame, FrameLen, IsFrame};
ghost use Rattle.arg_records.specs.Kinds.{HoldsBytes};
ghost use Rattle.ring_core.specs.declared.limits.TheConstants.{MAX_POSITION, OFFER_ROOM};
ghost use Rattle.ring_core.specs.Positions.{Need, Position};
ghost use Rattle.ring_core.specs.Plans.{Plan, types_by_id, frame_of, IsPlanned, AreFramesOf, BeginsWith, Lawful, MayFollow};
ghost use Rattle.ring_core.specs.Rows.{short_call, rows, mixed_rows};

/// The limits of positions, as numbers.
pub fn limits_have_these_numbers()
    ensures position { MAX_POSITION ≡ 2 ^ 62 }
    ensures offer { OFFER_ROOM ≡ 1024 }
{}

/// Worked frames in a ring of 1,024 words. One of three words at place 1,022 takes five places, and the same at place
/// 1,023 four; the greatest frame takes 1,023 at worst.
pub fn frames_at_the_end_of_the_ring()
    ensures before { Need 1021 3 1024 ≡ 3 }
    ensures at_two { Need 1022 3 1024 ≡ 5 }
    ensures at_one { Need 1023 3 1024 ≡ 4 }
    ensures behind { Need 1027 3 1024 ≡ 3 }
    ensures greatest { Need 513 512 1024 ≡ 1023 }
{}

/// Worked positions in a ring of 1,024 words: behind 511 frames of two words, behind 341 and 342 of three, and behind
/// two of three with 508 of two and another of three.
pub fn positions_of_many_frames()
    ensures twos { Position (replicate 511 short_call) 1024 ≡ 1022 }
    ensures threes { Position (rows 341) 1024 ≡ 1023 }
    ensures beyond { Position (rows 342) 1024 ≡ 1027 }
    ensures mixed { Position mixed_rows 1024 ≡ 1022 }
    ensures mixed_beyond { Position (mixed_rows ++ rows 1) 1024 ≡ 1027 }
{}

/// A frame takes its words, and perhaps the places before them up to the ring's end.
pub fn a_frame_takes_its_words()
    ensures least { (at frame words : ℕ) → frame ≤ Need at frame words }
    ensures within { (at frame words : ℕ) → at % words + frame ≤ words → Need at frame words ≡ frame }
    ensures beyond { (at frame words : ℕ) → words < at % words + frame
        → Need at frame words ≡ frame + (words - at % words) }
{}

/// A frame begins behind the places that are skipped, and doesn't cross the ring's end.
pub fn no_frame_crosses_the_end_of_the_ring()
    ensures { (at frame words : ℕ) → 1 ≤ words → frame ≤ words
        → (at + (Need at frame words - frame)) % words + frame ≤ words }
{}

/// No frame takes more than 1,023 places, so that an empty ring takes every frame.
pub fn no_frame_takes_more_than_1023_places()
    ensures { (at frame words : ℕ) → 1 ≤ words → frame ≤ MAX_FRAME_WORDS → Need at frame words ≤ 1023 }
{}

/// A call more moves the position by what its frame takes there.
pub fn a_call_moves_the_position()
    ensures none { (words : ℕ) → Position [] words ≡ 0 }
    ensures more { (calls : List Call) (call : Call) (words : ℕ) → Position (calls ++ call ∷ []) words
        ≡ Position calls words + Need (Position calls words) (FrameLen call.args) words }
{}

/// The first of lawful frames are lawful.
pub fn a_front_of_lawful_frames_is_lawful()
    ensures none { (plan : Plan) → Lawful plan [] }
    ensures front { (plan : Plan) (frames others : List (List ℕ)) → Lawful plan (frames ++ others)
        → Lawful plan frames }
{}

/// A frame may come behind lawful ones exactly where it is that of a call that may follow their calls.
pub fn a_frame_more_is_lawful()
    ensures more { (plan : Plan) (frames : List (List ℕ)) (calls : List Call) (call : Call)
        → AreFramesOf plan frames calls
        → MayFollow plan (last_stamp plan.first calls) call
        → AreFramesOf plan (frames ++ frame_of call ∷ []) (calls ++ call ∷ []) }
    ensures last { (plan : Plan) (frames : List (List ℕ)) (frame : List ℕ) → Lawful plan (frames ++ frame ∷ [])
        → (calls : List Call) × (call : Call) × AreFramesOf plan frames calls × (frame ≡ frame_of call)
        × MayFollow plan (last_stamp plan.first calls) call }
{}

/// Each of lawful frames is a frame, with 2 to 512 words.
pub fn lawful_frames_are_frames()
    ensures frames { (plan : Plan) (frames : List (List ℕ)) → Lawful plan frames → All IsFrame frames }
    ensures lengths { (plan : Plan) (frames : List (List ℕ)) → Lawful plan frames
        → All (λ frame. (2 ≤ length frame) × (length frame ≤ MAX_FRAME_WORDS)) frames }
{}

/// What the plan of messages takes are calls of these messages, and such calls it takes, where they can be staged.
pub fn planned_calls_are_calls_of_the_messages()
    ensures only { (messages : List Message) (call : Call) → IsPlanned (types_by_id messages) call
        → IsCall messages call }
    ensures all { (messages : List Message) (call : Call) → IsCall messages call → length messages ≤ MAX_MESSAGES
        → call.stamp < 2 ^ 64
        → AreArguments call.args
        → All HoldsBytes call.args
        → IsPlanned (types_by_id messages) call }
{}

/// Lawful frames are those of one list of calls.
pub fn frames_are_of_one_list_of_calls()
    ensures { (plan : Plan) (frames : List (List ℕ)) (some others : List Call) → AreFramesOf plan frames some
        → AreFramesOf plan frames others
        → some ≡ others }
{}

/// Frames of an id that the plan hasn't, with a stamp below the first, or with one below that of the frame before, are
/// not lawful.
pub fn other_frames_are_not_lawful()
    ensures unknown { (plan : Plan) (frames : List (List ℕ)) (id stamp : ℕ) (args : List Value)
        → FrameLen args ≤ MAX_FRAME_WORDS
        → length plan.types ≤ id
        → ¬ (Lawful plan (frames ++ Frame id stamp args ∷ [])) }
    ensures too_early { (plan : Plan) (id stamp : ℕ) (args : List Value) → stamp < plan.first
        → ¬ (Lawful plan (Frame id stamp args ∷ [])) }
    ensures falling { (plan : Plan) (frames : List (List ℕ)) (id stamp next_id next_stamp : ℕ)
        (args next_args : List Value) → next_stamp < stamp
        → ¬ (Lawful plan ((frames ++ Frame id stamp args ∷ []) ++ Frame next_id next_stamp next_args ∷ [])) }
{}

/// Words that are frames and some more begin with other frames only where the frames begin with these. What is more is
/// nothing, or begins with 0, as no frame does.
pub fn joined_frames_begin_alike()
    ensures { (front frames : List (List ℕ)) (rest more : List ℕ) → All IsFrame front
        → All IsFrame frames
        → slice_index more 0 ≡ 0
        → concat front ++ rest ≡ concat frames ++ more
        → BeginsWith frames front }
{}
