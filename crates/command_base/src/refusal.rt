//! Why a command wasn't done.

ghost use Rattle.std.specs.Prelude.{◌≡◌};
ghost use Rattle.command_base.specs.Endings.{status_of, refusal_ending};
ghost use Rattle.command_base.specs.declared.refusal.Refusal.TheVariants.{NoMemory as WantsMemory};

use crate::status::Status;
use std::alloc::AllocError;

/// A cause as it is told.
#[derive(Clone, Copy, Debug)]
pub struct ToldCause {
    pub number: u8,
    pub name: &'static str,
}

/// Why a command wasn't done. A name is the one that the words on it speak of.
#[derive(Drop)]
pub enum Refusal<'a> {
    /// The words are no command.
    Usage {
        /// What is said of how a command is written.
        lines: Vec<u8>,
    },
    Absent(&'a str),
    ReadFault(&'a str),
    /// What a file holds is refused.
    Refused {
        name: &'a str,
        /// The line that is wrong, from 1, or 0 where that is none; nothing where no line is told.
        line: Option<u64>,
        cause: ToldCause,
    },
    /// Sources are refused.
    RefusedSources {
        /// What is said of all that is refused, a line for each.
        lines: Vec<u8>,
    },
    Damaged {
        name: &'a str,
        /// Where the block begins that is broken, or that isn't read any more.
        offset: u64,
        cause: ToldCause,
    },
    WriteFault(&'a str),
    NoMemory,
}

impl From<AllocError> for Refusal<'_> {
    ghost from_gives = { λ _ refusal. refusal ≡ WantsMemory };

    fn from(_: AllocError) -> Self {
        Refusal::NoMemory
    }
}

impl Refusal<'_> {
    /// How the command ends.
    pub fn status(&self) -> Status
        ensures { result ≡ status_of (refusal_ending self.now) }
    {
        match self {
            Refusal::Usage { .. } => Status::Usage,
            Refusal::Absent(_) => Status::Absent,
            Refusal::ReadFault(_) => Status::ReadFault,
            Refusal::Refused { .. } | Refusal::RefusedSources { .. } => Status::Refused,
            Refusal::Damaged { .. } => Status::Damaged,
            Refusal::WriteFault(_) => Status::WriteFault,
            Refusal::NoMemory => Status::NoMemory,
        }
    }
}
