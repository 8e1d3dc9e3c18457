//! The refusals of a log.

ghost use Rattle.std.specs.Prelude.{◌≡◌, None};
ghost use Rattle.command_base.specs.Endings.{Damaged as DamagedFile, Refused as RefusedFile, refusal_ending};
ghost use Rattle.log_commands.specs.Logs.{log_cause};

use checkpoint_io::Cause;
use command_base::{Refusal, ToldCause};

/// The refusal of a log that is damaged at this offset, for this cause.
pub(crate) fn damaged(log: &str, offset: u64, cause: Cause) -> Refusal<'_>
    ensures { refusal_ending result ≡ DamagedFile log.now offset (log_cause cause) }
{
    Refusal::Damaged {
        name: log,
        offset,
        cause: ToldCause {
            number: cause.number(),
            name: cause.name(),
        },
    }
}

/// The refusal of a log that is whole.
pub(crate) fn refused<'a>(log: &'a str, number: u8, name: &'static str) -> Refusal<'a>
    ensures { refusal_ending result ≡ RefusedFile log.now None (record { number = number; name = name.now }) }
{
    Refusal::Refused {
        name: log,
        line: None,
        cause: ToldCause { number, name },
    }
}
