//! Laws over the definitions of frames and of calls. The functions do nothing: what they ensure is proved of the
//! definitions.

ghost use Rattle.std.specs.Prelude.{◌≡◌, ◌+◌, ◌/◌, ◌%◌, ◌<◌, ◌≤◌, ℕ, List, [], ◌∷◌, ◌++◌, length, map, All};
ghost use Rattle.std.specs.Prelude.{pos, negsuc, slice_index, slice_get, Some};
ghost use Rattle.printf_grammar.specs.declared.arg_type.ArgType.{ArgType};
ghost use Rattle.printf_grammar.specs.declared.argument.Value.{Value};
ghost use Rattle.printf_grammar.specs.declared.argument.Value.TheVariants.{Signed, Unsigned, Text};
ghost use Rattle.printf_grammar.specs.Types.{Types, Fits};
ghost use Rattle.log_dictionary.specs.declared.message.Message.{Message};
ghost use Rattle.arg_records.specs.declared.call.Call.{Call};
ghost use Rattle.arg_records.specs.declared.frame.TheConstants.{MAX_FRAME_WORDS};
ghost use Rattle.arg_records.specs.Calls.{IsCall, NeverFalls, calls_by_writer};
ghost use Rattle.arg_records.specs.Rows.{row_call, full_message, mixed_calls, mixed_log_calls, texts_message, texts_call};
ghost use Rattle.log_dictionary.specs.Rows.{row_message};
ghost use Rattle.arg_records.specs.Frames.{FrameLen, Frame};
ghost use Rattle.arg_records.specs.Kinds.{arg_kind, IsArgument, HoldsBytes};

use crate::call::{Call, Calls};

/// The frames of two calls with one integer, and of one with two texts.
pub fn three_frames()
    ensures positive { Frame 0 1003 (Signed (pos 7) ∷ []) ≡ 3 ∷ 1003 ∷ 7 ∷ [] }
    ensures negative { Frame 2 5 (Signed (negsuc 0) ∷ []) ≡ 131075 ∷ 5 ∷ 18446744073709551615 ∷ [] }
    ensures text { Frame 1 9 (Text (97 ∷ 98 ∷ []) ∷ Text [] ∷ []) ≡ 65541 ∷ 9 ∷ 2 ∷ 25185 ∷ 0 ∷ [] }
{}

/// A frame has as many words as its length says.
pub fn frame_has_its_length()
    ensures { (id stamp : ℕ) (args : List Value) → length (Frame id stamp args) ≡ FrameLen args }
{}

/// The longest text takes 501 words, so that a call with it alone has 503.
pub fn longest_text_takes_501_words()
    ensures { (text : List ℕ) → length text ≡ 4000 → FrameLen (Text text ∷ []) ≡ 503 }
{}

/// An integer more is a word more.
pub fn an_integer_takes_a_word()
    ensures { (n : ℕ) (args : List Value) → FrameLen (Unsigned n ∷ args) ≡ FrameLen args + 1 }
{}

/// A frame has at most 512 words.
pub fn frames_have_a_limit()
    ensures words { MAX_FRAME_WORDS ≡ 512 }
{}

/// No frame begins with 0.
pub fn no_frame_begins_with_zero()
    ensures { (id stamp : ℕ) (args : List Value) → 0 < slice_index (Frame id stamp args) 0 }
{}

/// The first word of a frame tells its id and its length.
pub fn first_word_has_id_and_length()
    ensures id { (id stamp : ℕ) (args : List Value) → FrameLen args ≤ 512
        → slice_index (Frame id stamp args) 0 / 65536 ≡ id }
    ensures length { (id stamp : ℕ) (args : List Value) → FrameLen args ≤ 512
        → slice_index (Frame id stamp args) 0 % 65536 ≡ FrameLen args }
{}

/// A frame spells one call, once the kinds of its arguments, or their types, are known.
pub fn one_frame_per_call()
    ensures by_kinds { (i j s t : ℕ) (a b : List Value)
        → map arg_kind a ≡ map arg_kind b
        → All IsArgument a
        → All IsArgument b
        → Frame i s a ≡ Frame j t b
        → (i ≡ j) × (s ≡ t) × (a ≡ b) }
    ensures by_types { (types : List ArgType) (i j s t : ℕ) (a b : List Value)
        → Fits a types
        → Fits b types
        → All HoldsBytes a
        → All HoldsBytes b
        → Frame i s a ≡ Frame j t b
        → (i ≡ j) × (s ≡ t) × (a ≡ b) }
{}

/// Calls go writer by writer. Each has its writer's number, its place among its writer's calls, from
/// 0, and the message that its id names.
pub fn calls_have_numbers_and_messages()
    ensures { calls_by_writer (row_message ∷ full_message ∷ []) mixed_calls ≡ mixed_log_calls }
{}

/// Stamps that are equal or rise never fall, and no others.
pub fn stamps_fall_or_never_do()
    ensures none { (least : ℕ) → NeverFalls least [] }
    ensures rising { (least : ℕ) (call : Call) (calls : List Call) → least ≤ call.stamp
        → NeverFalls call.stamp calls
        → NeverFalls least (call ∷ calls) }
    ensures too_early { (least : ℕ) (call : Call) (calls : List Call) → call.stamp < least
        → ¬ (NeverFalls least (call ∷ calls)) }
    ensures falling { (least : ℕ) (before : List Call) (call next : Call) (others : List Call)
        → next.stamp < call.stamp
        → ¬ (NeverFalls least (before ++ call ∷ next ∷ others)) }
{}

/// Calls go from thread to thread, and threads share them.
pub fn threads() {
    crosses_threads::<Call>();
    crosses_threads::<Calls>();
}

fn crosses_threads<T: Send + Sync>() {}

/// A call names one of the messages and fits it, and its frame has at most 512 words. The frame of
/// two texts of 4,000 and 64 bytes has as many.
pub fn calls_fit_their_messages()
    ensures within { (n : ℕ) → n ≤ 64 → IsCall (texts_message ∷ []) (texts_call n) }
    ensures too_long { (messages : List Message) (call : Call) → 512 < FrameLen call.args
        → ¬ (IsCall messages call) }
    ensures unknown { (messages : List Message) (call : Call) → length messages ≤ call.id
        → ¬ (IsCall messages call) }
    ensures unfit { (messages : List Message) (call : Call) (message : Message)
        → slice_get messages call.id ≡ Some message
        → ¬ (Fits call.args (Types message.format.pieces))
        → ¬ (IsCall messages call) }
    ensures other_kind { ¬ (IsCall (row_message ∷ []) (record (row_call 1) { args = Unsigned 1 ∷ [] })) }
{}
