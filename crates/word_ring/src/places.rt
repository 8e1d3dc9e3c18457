//! Where the words of a ring stand in its table. Between its three parts there are words that no step touches, so that
//! what the writer stores most, what the roamer stores and the data lie on cache lines of their own.

ghost use Rattle.std.specs.Prelude.{◌≡◌, ℕ, ◌+◌, ◌%◌, ◌<◌, ◌≤◌};
ghost use Rattle.session_options.specs.declared.limits.TheConstants.{MAX_RING};

/// The producer word: twice the published position, and one more once the ring is closed.
pub const PRODUCER: usize = 0;

/// The consumer word: the released position.
pub const CONSUMER: usize = 16;

/// The first of the data words.
pub const DATA: usize = 32;

/// So many places on from a place.
pub fn places_on(place: u64, count: u64, size: u64) -> u64
    requires { (place < size) × (count ≤ size) × (size ≤ MAX_RING) }
    ensures { (at : ℕ) → place ≡ at % size → result ≡ (at + count) % size }
{
    let behind = place + count;
    if behind < size { behind } else { behind - size }
}
