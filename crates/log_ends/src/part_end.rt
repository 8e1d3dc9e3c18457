//! The consumer's end of a ring.

ghost use Rattle.std.specs.Prelude.{◌≡◌, ◌≤◌, length};

use arg_records::MAX_FRAME_WORDS;
use ring_core::{StageOut, Taken};
use roaming_consumer::PartOut;
use word_ring::WordOut;

/// The consumer's end of a ring, whose frames go into the parts of a log.
#[derive(Drop)]
pub struct PartEnd {
    pub(crate) out: WordOut,
    /// How many frames went into the parts before.
    pub(crate) earlier: u64,
    /// Whether the part is being ended: then no frame is taken.
    pub(crate) held: bool,
    ghost taken: { earlier ≤ length out.got },
}

impl PartEnd {
    ghost use Rattle.log_ends.specs.PartEnds.{IsFirstPart};

    /// The end of a ring from which nothing was taken.
    pub(crate) fn over(out: WordOut) -> PartEnd
        ensures of_ring { result.out ≡ out }
        ensures first { IsFirstPart result }
    {
        PartEnd {
            out,
            earlier: 0,
            held: false,
        }
    }
}

impl StageOut for PartEnd {
    ghost use Rattle.log_ends.specs.PartEnds.{part_frames, is_part_over, part_numbers};

    ghost got = { part_frames };

    ghost ended = { is_part_over };

    ghost loads = { λ end. end.out.loads };

    ghost pair = { part_numbers };

    ghost plan = { λ end. end.out.plan };

    ghost steps = { λ end. end.out.steps };

    fn take(&mut self, into: &mut [u64; MAX_FRAME_WORDS]) -> Taken {
        if self.held {
            return Taken::Ended;
        }
        StageOut::take(&mut self.out, into)
    }
}

impl PartOut for PartEnd {
    ghost use Rattle.log_ends.specs.PartEnds.{EndsPart, BeginsPart};

    ghost ends_part = { EndsPart };

    ghost begins_part = { BeginsPart };

    fn end_part(&mut self) {
        self.held = true;
    }

    fn begin_part(&mut self) {
        self.earlier = self.out.frames();
        self.held = false;
    }
}
