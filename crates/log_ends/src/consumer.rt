//! The end that the bytes of the log come from.

ghost use Rattle.std.specs.Prelude.{◌≡◌, ◌<◌, true, false, [], length, All};
ghost use Rattle.roaming_consumer.specs.Roamers.{ends_of, roamer_messages, roamer_version, is_begun, is_faulted, AreMarked, ArePlanned};
ghost use Rattle.log_ends.specs.Backlogs.{held_back, room_len};
ghost use Rattle.log_ends.specs.declared.consumer.TheConstants.{VERSION};
ghost use Rattle.log_ends.specs.declared.part_end.PartEnd.{PartEnd};
ghost use Rattle.log_ends.specs.Rooms.{visit_len};

use crate::backlog::Backlog;
use crate::part_end::PartEnd;
use roaming_consumer::Roamer;

/// The version of the log.
pub const VERSION: u8 = 2;

/// Takes the calls of all writers, and gives the bytes of their log, in parts.
#[derive(Drop)]
pub struct ConsumerEnd {
    pub(crate) roamer: Roamer<'static, PartEnd>,
    /// What the last visit wrote that wasn't given.
    pub(crate) backlog: Backlog,
    /// How many writers there are.
    pub(crate) writers: u32,
    /// The writer that is visited next.
    pub(crate) next: u32,
    /// Whether all bytes of the log were given, and the log has the close mark of every writer.
    pub(crate) over: bool,
    /// Whether the part is being ended: every writer that has no close mark in it gets one, and no call is taken.
    pub(crate) ending: bool,
    /// The greatest stamp of a call in the parts before, and 0 where there is none.
    pub(crate) earlier: u64,
    ghost counted: { length (ends_of roamer) ≡ writers },
    ghost version: { roamer_version roamer ≡ VERSION },
    ghost begun: { is_begun roamer ≡ true },
    ghost unfaulted: { is_faulted roamer ≡ false },
    ghost planned: { ArePlanned (λ (end : PartEnd). end.out.plan) roamer },
    ghost held: { All (λ (end : PartEnd). end.held ≡ ending) (ends_of roamer) },
    ghost unrefused: { backlog.refused ≡ 0 },
    ghost ended: { over ≡ true → AreMarked roamer × (held_back backlog ≡ []) × (ending ≡ false) },
    ghost roomy: { visit_len (roamer_messages roamer) < room_len backlog },
}

/// What a pump gave.
#[derive(Clone, Copy, Debug, PartialEq, Eq)]
pub enum Pumped {
    /// So many bytes.
    Gave(usize),
    /// There was no room for any.
    NoRoom,
    /// Nothing waits now.
    Nothing,
    /// All bytes of the part were given, and it has the close mark of every writer. The next part has begun.
    PartOver,
    /// All bytes of the log were given, and it has the close mark of every writer.
    AtEnd,
}
