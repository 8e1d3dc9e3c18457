//! Taking frames from the roamer's end of a ring.

ghost use Rattle.std.specs.Prelude.{◌≡◌, ◌+◌, ◌-◌, ◌<◌, ◌≤◌, ℕ, true, false, length};
ghost use Rattle.nl_io.specs.Count.{Rose};
ghost use Rattle.buffer_extent.specs.declared.put.TheConstants.{RECORD_ROOM};
ghost use Rattle.ring_core.specs.Plans.{plan_of};
ghost use Rattle.roaming_consumer.specs.Gathering.{FramesCame, DraftsFrames, StopsTaking};

use crate::draft::Draft;
use crate::put_frame::put_frame;
use arg_records::MAX_FRAME_WORDS;
use buffer_extent::RECORD_ROOM;
use log_dictionary::Dictionary;
use ring_core::{StageOut, Taken};

/// What was taken from an end.
#[derive(Clone, Copy)]
pub(crate) struct Gathered {
    /// The records of the frames.
    pub draft: Draft,
    /// Whether the end answered that all has ended.
    pub ended: bool,
}

/// Takes frames of an end, and puts their records into the front of the body: so many at most, and none where a record
/// might have no room.
pub(crate) fn gather<S: StageOut>(
    end: &mut S,
    dictionary: &Dictionary,
    tick: u64,
    batch: u32,
    frame: &mut [u64; MAX_FRAME_WORDS],
    body: &mut [u8],
) -> Gathered
    requires planned { S.plan end.old ≡ plan_of dictionary.now tick }
    requires some { 1 ≤ batch }
    requires room { RECORD_ROOM ≤ length body.old }
    ensures gathers { DraftsFrames dictionary.now tick (S.got end.old) (S.got end.new) result.draft body.new }
    ensures few { result.draft.records ≤ batch }
    ensures stops { StopsTaking S.got S.ended S.loads batch result.draft.records
        (length body.new - result.draft.len) end.old end.new }
    ensures none { result.draft.records ≡ 0 → S.ended end.new ≡ result.ended }
    ensures looked { result.draft.records ≡ 0 → result.ended ≡ false → Rose (S.loads end.old) (S.loads end.new) }
    ensures stays_ended { S.ended end.old ≡ true → (result.draft.records ≡ 0) × (result.ended ≡ true) }
    ensures loads_never_fall { S.loads end.old ≤ S.loads end.new }
    ensures same { (S.pair end.new ≡ S.pair end.old) × (S.plan end.new ≡ S.plan end.old) }
{
    let mut draft = Draft::none(tick);
    for taken in 0..batch {
        if draft.len + RECORD_ROOM > body.len() {
            break;
        }
        match end.take(frame) {
            Taken::Frame(len) => draft = put_frame(dictionary, &frame[..len], draft, body),
            Taken::Nothing => return Gathered {
                draft,
                ended: false,
            },
            Taken::Ended => return Gathered { draft, ended: true },
        }
    }
    Gathered {
        draft,
        ended: false,
    }
}

/// What was thrown away.
#[derive(Clone, Copy)]
pub(crate) struct Thrown {
    /// The number of frames.
    pub frames: u32,
    /// Whether the end answered that all has ended.
    pub ended: bool,
}

/// Takes frames of an end, so many at most, and throws them away.
pub(crate) fn throw_away<S: StageOut>(
    end: &mut S,
    batch: u32,
    frame: &mut [u64; MAX_FRAME_WORDS],
) -> Thrown
    requires some { 1 ≤ batch }
    ensures came { FramesCame (S.got end.old) (S.got end.new) result.frames }
    ensures few { result.frames ≤ batch }
    ensures stops { (free : ℕ) → StopsTaking S.got S.ended S.loads batch result.frames free end.old end.new }
    ensures none { result.frames ≡ 0 → S.ended end.new ≡ result.ended }
    ensures looked { result.frames ≡ 0 → result.ended ≡ false → Rose (S.loads end.old) (S.loads end.new) }
    ensures stays_ended { S.ended end.old ≡ true → (result.frames ≡ 0) × (result.ended ≡ true) }
    ensures loads_never_fall { S.loads end.old ≤ S.loads end.new }
    ensures same { (S.pair end.new ≡ S.pair end.old) × (S.plan end.new ≡ S.plan end.old) }
{
    for frames in 0..batch {
        match end.take(frame) {
            Taken::Frame(_) => {}
            Taken::Nothing => return Thrown {
                frames,
                ended: false,
            },
            Taken::Ended => return Thrown {
                frames,
                ended: true,
            },
        }
    }
    Thrown {
        frames: batch,
        ended: false,
    }
}
