//! How many places of a ring a frame takes.

ghost use Rattle.std.specs.Prelude.{◌≡◌, ◌<◌, ◌≤◌};
ghost use Rattle.session_options.specs.declared.limits.TheConstants.{MAX_RING};
ghost use Rattle.arg_records.specs.declared.frame.TheConstants.{MAX_FRAME_WORDS};
ghost use Rattle.ring_core.specs.Positions.{need_from, Need};

/// How many places a frame of `frame` words takes in a ring of `words` words, from the position `at` on: those that it
/// fills, and those that are skipped before it, since no frame crosses the ring's end.
pub fn need(at: u64, frame: u64, words: u64) -> u64
    requires ring { (1 ≤ words) × (words ≤ MAX_RING) }
    requires frame { frame ≤ MAX_FRAME_WORDS }
    ensures { result ≡ Need at frame words }
{
    need_from_place(at % words, frame, words)
}

/// The same from the place of a position on, which an end that keeps the place has without a division.
pub fn need_from_place(place: u64, frame: u64, words: u64) -> u64
    requires ring { (place < words) × (words ≤ MAX_RING) }
    requires frame { frame ≤ MAX_FRAME_WORDS }
    ensures { result ≡ need_from place frame words }
{
    if place + frame <= words {
        frame
    } else {
        frame + (words - place)
    }
}
