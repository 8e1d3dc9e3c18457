use log_dictionary::Clock;

/// What the front of a log says of all that follows: its version, how many writers there are, and
/// their clock.
#[derive(Clone, Copy, Debug, PartialEq, Eq)]
pub struct Header {
    pub version: u8,
    pub writers: u32,
    pub clock: Clock,
}
