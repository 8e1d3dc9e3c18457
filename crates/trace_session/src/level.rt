//! Which calls a level keeps.

ghost use Rattle.std.specs.Prelude.{◌≡◌};
ghost use Rattle.arg_records.specs.Calls.{IsCall};
ghost use Rattle.trace_session.specs.Levels.{keeps};

use arg_records::Call;
use log_dictionary::{Dictionary, Severity};

/// Whether the level keeps a call.
pub(crate) fn is_kept(dictionary: &Dictionary, level: Severity, call: &Call) -> bool
    requires { IsCall dictionary.now call.now }
    ensures { result ≡ keeps dictionary.now level call.now }
{
    let message = dictionary.message(call.id);
    message.severity.number() <= level.number()
}
