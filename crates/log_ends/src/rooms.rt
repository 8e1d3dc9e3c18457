//! How much room the bytes of a log take that are made at once.

ghost use Rattle.std.specs.Prelude.{◌≡◌, ◌+◌};
ghost use Rattle.checkpoint_io.specs.declared.version.TheConstants.{MAX_HEADER_LEN};
ghost use Rattle.log_ends.specs.Rooms.{visit_len};

use checkpoint_io::{
    CLOCK_LEN, FRAGMENT_HEAD_LEN, MAX_EXTENT_HEAD_LEN, MAX_HEADER_LEN, MAX_READ_BODY,
};
use log_dictionary::{Dictionary, MAX_CLOCKS, entry_len};

/// Room for a header, or for all that one visit gives, and for a byte more.
pub(crate) fn room_of(dictionary: &Dictionary) -> usize
    ensures { result ≡ visit_len dictionary.now + MAX_HEADER_LEN }
{
    let clocks = MAX_CLOCKS * CLOCK_LEN;
    let extent = MAX_EXTENT_HEAD_LEN + MAX_READ_BODY;
    let mut room = clocks + extent + MAX_HEADER_LEN;
    for id in 0..dictionary.len() {
        room += FRAGMENT_HEAD_LEN + entry_len(dictionary.message(id));
    }
    room
}
