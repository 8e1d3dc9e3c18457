//! The records of frames.

ghost use Rattle.std.specs.Prelude.{◌≡◌, ◌+◌, ◌<◌, ◌≤◌, ◌^◌, ℕ, List, [], ◌∷◌, ◌++◌, length};
ghost use Rattle.arg_records.specs.declared.call.Call.{Call};
ghost use Rattle.buffer_extent.specs.declared.put.TheConstants.{RECORD_ROOM};
ghost use Rattle.roaming_consumer.specs.Drafts.{IsFrameOfCall, IsDraft};

use crate::draft::{Draft, counted};
use arg_records::{frame_id, frame_stamp};
use buffer_extent::{RECORD_ROOM, put_record};
use log_dictionary::Dictionary;

/// Puts the record of the call whose frame this is behind those of a draft.
pub(crate) fn put_frame(
    dictionary: &Dictionary,
    frame: &[u64],
    draft: Draft,
    body: &mut [u8],
) -> Draft
    requires frame { (call : Call) × IsFrameOfCall dictionary.now draft.last frame.now call }
    requires room { draft.len + RECORD_ROOM ≤ length body.old }
    requires few { draft.records + 1 < 2 ^ 32 }
    ensures goes_on { (call : Call) (tick : ℕ) (records : List Call)
        → IsFrameOfCall dictionary.now draft.last frame.now call
        → IsDraft dictionary.now tick records draft body.old
        → IsDraft dictionary.now tick (records ++ call ∷ []) result body.new }
    ensures records { result.records ≡ draft.records + 1 }
    ensures last { (call : Call) → IsFrameOfCall dictionary.now draft.last frame.now call
        → result.last ≡ call.stamp }
{
    let id = frame_id(frame);
    let types = dictionary.message(id).format.types();
    Draft {
        records: draft.records + 1,
        len: put_record(frame, types, draft.last, body, draft.len),
        ids: counted(draft.ids, id),
        last: frame_stamp(frame),
    }
}
