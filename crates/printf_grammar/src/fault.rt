ghost use Rattle.std.specs.Prelude.{◌≡◌};
ghost use Rattle.printf_grammar.specs.Causes.{cause_name};
ghost use Rattle.printf_grammar.specs.declared.fault.ParseFault.TheVariants.{NoMemory};

use std::alloc::{AllocError, AllocFailed};
use thiserror::Error;

/// Why bytes are no format.
#[derive(Clone, Copy, Debug, PartialEq, Eq)]
pub enum FormatCause {
    /// A floating conversion: one of `aAeEfFgG`.
    Float,
    /// `%lc` or `%ls`.
    Wide,
    /// The conversion `n`.
    Store,
    /// A `%` that ends a conversion which has begun.
    BadPercent,
    /// A conversion that doesn't take the length before it.
    BadLength,
    /// A byte that can't stand where it does.
    Unknown,
    /// A width or a precision above 4,095.
    TooWide,
    /// The format ends inside a conversion.
    Ends,
    /// A NUL byte.
    Nul,
    /// More than 64 arguments.
    TooManyArgs,
    /// More than 4,095 bytes.
    Long,
}

impl FormatCause {
    /// Its name, as it is printed.
    pub fn name(self) -> &'static str
        ensures { result.now ≡ cause_name self }
    {
        match self {
            FormatCause::Float => "Float",
            FormatCause::Wide => "Wide",
            FormatCause::Store => "Store",
            FormatCause::BadPercent => "BadPercent",
            FormatCause::BadLength => "BadLength",
            FormatCause::Unknown => "Unknown",
            FormatCause::TooWide => "TooWide",
            FormatCause::Ends => "Ends",
            FormatCause::Nul => "Nul",
            FormatCause::TooManyArgs => "TooManyArgs",
            FormatCause::Long => "Long",
        }
    }
}

/// Why `parse` gave no format.
#[derive(Debug, Drop, PartialEq, Eq, Error)]
pub enum ParseFault {
    /// The bytes break the grammar at this place, counted from 0, from this cause.
    #[error("the format is bad")]
    Bad { cause: FormatCause, place: usize },
    #[error("there is no memory")]
    NoMemory,
}

impl From<AllocError> for ParseFault {
    ghost from_gives = { λ _ fault. fault ≡ NoMemory };

    fn from(_error: AllocError) -> ParseFault {
        ParseFault::NoMemory
    }
}

impl<T: Drop> From<AllocFailed<T>> for ParseFault {
    ghost from_gives = { λ _ fault. fault ≡ NoMemory };

    fn from(_error: AllocFailed<T>) -> ParseFault {
        ParseFault::NoMemory
    }
}
