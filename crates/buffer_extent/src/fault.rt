//! Why a body gave no records.

ghost use Rattle.std.specs.Prelude.{◌≡◌};
ghost use Rattle.buffer_extent.specs.Causes.{cause_number, cause_name};
ghost use Rattle.buffer_extent.specs.declared.fault.BodyFault.TheVariants as faults;

use std::alloc::AllocError;

/// How the bytes of a body break the rules.
#[derive(Clone, Copy, Debug, PartialEq, Eq)]
pub enum BodyCause {
    /// The body ends inside a record.
    RecordCut,
    /// No message has the id.
    UnknownId,
    /// A code doesn't exist, or four bits that no number needs aren't 0.
    BadNibble,
    /// A number has another, shorter spelling.
    NotShortest,
    /// The stamp would pass 2^64 - 1.
    StampRange,
    /// The stamp is below the writer's last one.
    StampFalls,
    /// An argument lies outside its type's range, or a text has more than 4,000 bytes.
    ArgRange,
    /// A text holds a byte 0.
    NulInText,
    /// The frame of the call would have more than 512 words.
    TooLong,
}

impl BodyCause {
    /// Its number, which is only another name.
    pub fn number(self) -> u8
        ensures { result ≡ cause_number self }
    {
        match self {
            BodyCause::RecordCut => 11,
            BodyCause::UnknownId => 12,
            BodyCause::BadNibble => 13,
            BodyCause::NotShortest => 14,
            BodyCause::StampRange => 15,
            BodyCause::StampFalls => 16,
            BodyCause::ArgRange => 17,
            BodyCause::NulInText => 18,
            BodyCause::TooLong => 19,
        }
    }

    /// Its name, as it is printed.
    pub fn name(self) -> &'static str
        ensures { result.now ≡ cause_name self }
    {
        match self {
            BodyCause::RecordCut => "RecordCut",
            BodyCause::UnknownId => "UnknownId",
            BodyCause::BadNibble => "BadNibble",
            BodyCause::NotShortest => "NotShortest",
            BodyCause::StampRange => "StampRange",
            BodyCause::StampFalls => "StampFalls",
            BodyCause::ArgRange => "ArgRange",
            BodyCause::NulInText => "NulInText",
            BodyCause::TooLong => "TooLong",
        }
    }
}

/// Why a body gave no records.
#[derive(Clone, Copy, Debug, PartialEq, Eq)]
pub enum BodyFault {
    Damaged(BodyCause),
    NoMemory,
}

impl From<BodyCause> for BodyFault {
    ghost from_gives = { λ cause fault. fault ≡ faults.Damaged cause };

    #[inline(always)]
    fn from(cause: BodyCause) -> BodyFault {
        BodyFault::Damaged(cause)
    }
}

impl From<AllocError> for BodyFault {
    ghost from_gives = { λ _ fault. fault ≡ faults.NoMemory };

    #[inline(always)]
    fn from(_error: AllocError) -> BodyFault {
        BodyFault::NoMemory
    }
}
