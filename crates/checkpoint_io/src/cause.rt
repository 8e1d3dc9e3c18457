//! Why a file is no log, or isn't one any more from a place on.

ghost use Rattle.std.specs.Prelude.{◌≡◌};
ghost use Rattle.checkpoint_io.specs.Causes.{cause_number, cause_name};

use buffer_extent::BodyCause;

/// Why the header of a file, or a block of it, is none. Where several causes hold of it, the one is
/// told that is met first when it is read from left to right.
#[derive(Clone, Copy, Debug, PartialEq, Eq)]
pub enum Cause {
    /// One of the first four bytes isn't that of `NLOG`.
    BadMagic,
    /// There is no such version.
    BadVersion,
    /// There are no writers or more than the version allows, or the clock doesn't tick.
    BadHeader,
    /// The file ends inside the header or the block.
    Cut,
    /// The block is none of the kinds that the version has.
    BadBlock,
    /// The first id of a fragment isn't the number of messages before.
    FragmentOrder,
    /// A field of an entry is out of range, its format is refused, or its message is there already.
    BadEntry,
    /// There is no such writer.
    UnknownWriter,
    /// The writer was closed before.
    AfterClose,
    /// A fragment has no messages, more than 16, or more than there are ids left, or a body has no
    /// bytes or more than the version allows.
    BadLength,
    /// The body isn't whole records that keep the rules.
    Body(BodyCause),
    /// The block is right, and would end past offset 134,217,728.
    TooLarge,
    /// The tick of a clock isn't above that of the clock before.
    ClockOrder,
    /// A record in front of a clock has reached its tick.
    ClockLate,
    /// A clock doesn't tick.
    BadRate,
    /// There are 256 clocks already.
    ClockCount,
}

impl Cause {
    /// Its number, which is only another name.
    pub fn number(self) -> u8
        ensures { result ≡ cause_number self }
    {
        match self {
            Cause::BadMagic => 1,
            Cause::BadVersion => 2,
            Cause::BadHeader => 3,
            Cause::Cut => 4,
            Cause::BadBlock => 5,
            Cause::FragmentOrder => 6,
            Cause::BadEntry => 7,
            Cause::UnknownWriter => 8,
            Cause::AfterClose => 9,
            Cause::BadLength => 10,
            Cause::Body(cause) => cause.number(),
            Cause::TooLarge => 20,
            Cause::ClockOrder => 21,
            Cause::ClockLate => 22,
            Cause::BadRate => 23,
            Cause::ClockCount => 24,
        }
    }

    /// Its name, as it is printed.
    pub fn name(self) -> &'static str
        ensures { result.now ≡ cause_name self }
    {
        match self {
            Cause::BadMagic => "BadMagic",
            Cause::BadVersion => "BadVersion",
            Cause::BadHeader => "BadHeader",
            Cause::Cut => "Cut",
            Cause::BadBlock => "BadBlock",
            Cause::FragmentOrder => "FragmentOrder",
            Cause::BadEntry => "BadEntry",
            Cause::UnknownWriter => "UnknownWriter",
            Cause::AfterClose => "AfterClose",
            Cause::BadLength => "BadLength",
            Cause::Body(cause) => cause.name(),
            Cause::TooLarge => "TooLarge",
            Cause::ClockOrder => "ClockOrder",
            Cause::ClockLate => "ClockLate",
            Cause::BadRate => "BadRate",
            Cause::ClockCount => "ClockCount",
        }
    }
}
