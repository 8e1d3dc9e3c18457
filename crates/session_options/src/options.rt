//! How a session runs.

use log_dictionary::Severity;

/// The words of a ring, where nothing else is asked for.
pub const DEFAULT_RING: u64 = 65_536;

/// The most records of an extent, where nothing else is asked for.
pub const DEFAULT_BATCH: u32 = 4_096;

/// What becomes of a call for which the ring of its writer has no room.
#[derive(Clone, Copy, Debug, PartialEq, Eq)]
pub enum Policy {
    /// The writer tries again until there is room.
    Wait,
    /// The call is dropped, and listed.
    Shed,
}

/// What a session is told beside the calls.
#[derive(Clone, Copy, Debug, PartialEq, Eq)]
pub struct Options {
    /// How many words each writer's ring has.
    pub ring: u64,
    /// The most records of an extent.
    pub batch: u32,
    pub policy: Policy,
    /// Only calls of this severity or a graver one are made.
    pub level: Severity,
}

impl Default for Options {
    ghost use Rattle.std.specs.Prelude.{◌≡◌};
    ghost use Rattle.session_options.specs.Defaults.{default_options};

    ghost is_default = { λ options. options ≡ default_options };

    fn default() -> Self {
        Options {
            ring: DEFAULT_RING,
            batch: DEFAULT_BATCH,
            policy: Policy::Wait,
            level: Severity::Debug,
        }
    }
}
