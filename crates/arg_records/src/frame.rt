//! Frames: how long they are, writing one, and reading its head.

ghost use Rattle.std.specs.Prelude.{◌≡◌, ◌+◌, ◌<◌, ◌≤◌, ◌↔◌, ℕ, List, length, map, take, drop, All, IfOk, OnOk, OnErr};
ghost use Rattle.std.specs.Prelude.{IsErr, Err, IfSome, IsSome};
ghost use Rattle.std.specs.List.{flat_map};
ghost use Rattle.printf_grammar.specs.declared.limits.TheConstants.{MAX_ARGUMENTS};
ghost use Rattle.printf_grammar.specs.Types.{Fits};
ghost use Rattle.printf_grammar.specs.declared.argument.Value.{Value};
ghost use Rattle.log_dictionary.specs.declared.dictionary.TheConstants.{MAX_MESSAGES};
ghost use Rattle.arg_records.specs.Frames.{AreArguments, IsStaged, IsFrame, words_of_argument, FrameLen, Frame};
ghost use Rattle.arg_records.specs.Kinds.{HoldsBytes};
ghost use Rattle.arg_records.specs.Places.{with_words};

use crate::words::{put_argument, put_within, word_count};
use printf_grammar::{ArgType, Argument};

/// The most words of a frame.
pub const MAX_FRAME_WORDS: usize = 512;

/// The call's frame would have more than [`MAX_FRAME_WORDS`] words.
#[derive(Clone, Copy, Debug, PartialEq, Eq)]
pub struct TooLong;

/// Why a call has no frame.
#[derive(Clone, Copy, Debug, PartialEq, Eq)]
pub enum NoFrame {
    /// The arguments don't fit the types.
    Misfit,
    /// It would have more than [`MAX_FRAME_WORDS`] words.
    TooLong,
}

/// How many words the frame of a call with these arguments has.
#[inline(always)]
pub fn frame_len<A: Argument>(args: &[A]) -> u64
    requires { AreArguments (map A.value args.now) }
    ensures { result ≡ FrameLen (map A.value args.now) }
{
    let mut len = 2;
    for arg in args {
        len += word_count(arg.arg());
    }
    len
}

/// Writes the arguments' words behind the head of a frame. It answers the frame's length.
#[inline(always)]
fn put_arguments<A: Argument>(args: &[A], into: &mut [u64; MAX_FRAME_WORDS]) -> usize
    requires { FrameLen (map A.value args.now) ≤ MAX_FRAME_WORDS }
    ensures written { into.new ≡ with_words into.old 2 (flat_map words_of_argument (map A.value args.now)) }
    ensures end { result ≡ FrameLen (map A.value args.now) }
    ensures bytes { All HoldsBytes (map A.value args.now) }
{
    let mut end = 2;
    for arg in args {
        end = put_argument(arg.arg(), into, end);
    }
    end
}

/// Writes the frame of a call, and answers its length. The words behind it stay as they were.
// Where its caller knows the number and the kinds of the arguments, the compiler can do without a loop over them.
#[inline(always)]
pub fn frame_words<A: Argument>(
    id: u32,
    stamp: u64,
    args: &[A],
    into: &mut [u64; MAX_FRAME_WORDS],
) -> Result<usize, TooLong>
    requires id_in_range { id < MAX_MESSAGES }
    requires arguments { AreArguments (map A.value args.now) }
    ensures ok { IfOk result (λ len.
        (len ≡ FrameLen (map A.value args.now))
        × (take len into.new ≡ Frame id stamp (map A.value args.now))
        × (drop len into.new ≡ drop len into.old)) }

    // What texts hold is below 256, since they are bytes.
    ensures bytes { OnOk result (All HoldsBytes (map A.value args.now)) }
    ensures too_long { IsErr result ↔ (MAX_FRAME_WORDS < FrameLen (map A.value args.now)) }
    ensures unchanged { OnErr result (into.new ≡ into.old) }
{
    let len = frame_len(args);
    if len > MAX_FRAME_WORDS as u64 {
        return Err(TooLong);
    }
    into[0] = u64::from(id) * 65536 + len;
    into[1] = stamp;
    Ok(put_arguments(args, into))
}

/// Judges the arguments by the types, and writes the words of those that fit behind the head of a frame, as far as a
/// frame may have so many. It answers how long the frame of all of them is, if all fit.
fn put_fitting<A: Argument>(
    types: &[ArgType],
    args: &[A],
    into: &mut [u64; MAX_FRAME_WORDS],
) -> Option<u64>
    requires { length types.now ≤ MAX_ARGUMENTS }
    ensures fits { IsSome result ↔ Fits (map A.value args.now) types.now }
    ensures len { IfSome result (λ len. len ≡ FrameLen (map A.value args.now)) }
    ensures written { IfSome result (λ len. len ≤ MAX_FRAME_WORDS
        → into.new ≡ with_words into.old 2 (flat_map words_of_argument (map A.value args.now))) }
    ensures bytes { IfSome result (λ len. len ≤ MAX_FRAME_WORDS → All HoldsBytes (map A.value args.now)) }
{
    if types.len() != args.len() {
        return None;
    }
    let mut end = 2;
    for (place, kind) in types.iter().enumerate() {
        let arg = args[place].arg();
        if !kind.takes(arg) {
            return None;
        }
        end = put_within(arg, into, end);
    }
    Some(end)
}

/// Writes the frame of a call whose arguments fit the types, and answers its length. The words behind it stay as they
/// were. In one pass it judges the arguments, measures them and writes them, so that after an error the words mean
/// nothing.
pub fn fitting_frame<A: Argument>(
    id: u32,
    stamp: u64,
    types: &[ArgType],
    args: &[A],
    into: &mut [u64; MAX_FRAME_WORDS],
) -> Result<usize, NoFrame>
    requires id_in_range { id < MAX_MESSAGES }
    requires few { length types.now ≤ MAX_ARGUMENTS }
    ensures ok { IfOk result (λ len.
        (len ≡ FrameLen (map A.value args.now))
        × (take len into.new ≡ Frame id stamp (map A.value args.now))
        × (drop len into.new ≡ drop len into.old)) }
    ensures fits { OnOk result (Fits (map A.value args.now) types.now) }
    ensures bytes { OnOk result (All HoldsBytes (map A.value args.now)) }
    ensures misfit { (result ≡ Err NoFrame.Misfit) ↔ (¬ (Fits (map A.value args.now) types.now)) }
    ensures too_long { (result ≡ Err NoFrame.TooLong)
        ↔ (Fits (map A.value args.now) types.now × (MAX_FRAME_WORDS < FrameLen (map A.value args.now))) }
{
    let Some(end) = put_fitting(types, args, into) else {
        return Err(NoFrame::Misfit);
    };
    if end > MAX_FRAME_WORDS as u64 {
        return Err(NoFrame::TooLong);
    }
    into[0] = u64::from(id) * 65536 + end;
    into[1] = stamp;
    Ok(end as usize)
}

/// The id of the call whose frame this is.
pub fn frame_id(frame: &[u64]) -> u32
    requires { IsFrame frame.now }
    ensures { (id stamp : ℕ) (args : List Value) → IsStaged id stamp args → frame.now ≡ Frame id stamp args
        → result ≡ id }
{
    (frame[0] / 65536) as u32
}

/// The stamp of the call whose frame this is.
pub fn frame_stamp(frame: &[u64]) -> u64
    requires { IsFrame frame.now }
    ensures { (id stamp : ℕ) (args : List Value) → IsStaged id stamp args → frame.now ≡ Frame id stamp args
        → result ≡ stamp }
{
    frame[1]
}
