//! The frames of calls of a dictionary.

ghost use Rattle.std.specs.Prelude.{◌≡◌, ◌≤◌, take, IfSome, IsNone};
ghost use Rattle.printf_grammar.specs.Types.{values_of};
ghost use Rattle.arg_records.specs.declared.frame.TheConstants.{MAX_FRAME_WORDS};
ghost use Rattle.arg_records.specs.Frames.{Frame};
ghost use Rattle.ring_core.specs.Plans.{IsPlanned, types_by_id, call_of};

use arg_records::{MAX_FRAME_WORDS, frame_words};
use log_dictionary::Dictionary;
use printf_grammar::{Arg, fits};

/// Writes the frame of a call, and answers its length. There is none where the dictionary hasn't the id, the arguments
/// don't fit its message, or the frame would be too long.
pub(crate) fn planned_frame(
    dictionary: &Dictionary,
    stamp: u64,
    id: u32,
    args: &[Arg],
    into: &mut [u64; MAX_FRAME_WORDS],
) -> Option<usize>
    ensures some { IfSome result (λ len. (len ≤ MAX_FRAME_WORDS)
        × (take len into.new ≡ Frame id stamp (values_of args.now))
        × IsPlanned (types_by_id dictionary.now) (call_of stamp id (values_of args.now))) }
    ensures none { IsNone result
        → ¬ (IsPlanned (types_by_id dictionary.now) (call_of stamp id (values_of args.now))) }
{
    if id >= dictionary.len() {
        return None;
    }
    let types = dictionary.message(id).format.types();
    if !fits(types, args) {
        return None;
    }
    let Ok(len) = frame_words(id, stamp, args, into) else {
        return None;
    };
    Some(len)
}
