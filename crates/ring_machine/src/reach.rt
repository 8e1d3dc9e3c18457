//! How far a stream of words has come.

ghost use Rattle.std.specs.Prelude.{◌≡◌, ◌≢◌, ◌≤◌, ◌%◌};
ghost use Rattle.ring_core.specs.declared.limits.TheConstants.{MAX_POSITION};
ghost use Rattle.session_options.specs.declared.limits.TheConstants.{MAX_RING};
ghost use Rattle.ring_machine.specs.Streams.{Walk, MayCome, onward};
ghost use Rattle.ring_machine.specs.Reaches.{IsReach};

/// How far a stream of words has come: the position behind it, how many words the frame wants that isn't whole, if there
/// is one, and how many frames are whole.
#[derive(Clone, Copy, Debug)]
pub struct Reach {
    pub at: u64,
    pub left: u64,
    pub frames: u64,
}

impl Reach {
    /// With one word more, in a ring of so many words.
    pub(crate) fn onward(self, size: u64, word: u64) -> Reach
        requires size { (1 ≤ size) × (size ≤ MAX_RING) }
        requires position { self.at ≤ MAX_POSITION }
        requires few { self.frames ≤ self.at }
        requires begins { self.left ≡ 0 → word ≢ 0 → 2 ≤ word % 65536 }
        ensures { (w : Walk) → IsReach w self → MayCome size w word → IsReach (onward size w word) result }
    {
        let Reach { at, left, frames } = self;
        if left > 1 {
            return Reach {
                at: at + 1,
                left: left - 1,
                frames,
            };
        }
        if left == 1 {
            return Reach {
                at: at + 1,
                left: 0,
                frames: frames + 1,
            };
        }
        if word == 0 {
            return Reach {
                at: at + (size - at % size),
                left,
                frames,
            };
        }
        Reach {
            at: at + 1,
            left: word % 65_536 - 1,
            frames,
        }
    }
}
