//! The command `schedule`.

ghost use Rattle.std.specs.Prelude.{◌≡◌};
ghost use Rattle.command_base.specs.Endings.{ending_of, refusal_ending};
ghost use Rattle.command_base.specs.Effects.{CommandEffect};
ghost use Rattle.command_base.specs.Scenes.{scene};
ghost use Rattle.schedule_commands.specs.Tasks.{fault_ending, schedule_task};

use crate::reading::read_file_front;
use command_base::{Refusal, ToldCause};
use nl_io::{Files, Sink};
use schedule_text::{MAX_TEXT, ScheduleFault, play};
use std::alloc::Global;

/// The refusal of a schedule that wasn't played to its end.
fn refusal_of(name: &str, fault: ScheduleFault) -> Refusal<'_>
    ensures { refusal_ending result ≡ fault_ending name.now fault }
{
    match fault {
        ScheduleFault::Refused { line, cause } => Refusal::Refused {
            name,
            line: Some(line),
            cause: ToldCause {
                number: cause.number(),
                name: cause.name(),
            },
        },
        ScheduleFault::WriteFault => Refusal::WriteFault("standard output"),
        ScheduleFault::NoMemory => Refusal::NoMemory,
    }
}

/// Makes the steps of the schedule that the name holds, and prints a line for each, and behind the last one a line for
/// each ring.
///
/// # Errors
///
/// `Absent` where there is no such name, and `ReadFault` where a call failed. `Refused` comes behind the lines of the
/// steps before the refused line. `WriteFault`, where a front of the lines went out, as it may with `NoMemory`.
pub fn schedule<'a, F: Files, O: Sink>(
    alloc: Global,
    files: &mut F,
    file: &'a str,
    out: &mut O,
) -> Result<(), Refusal<'a>>
    ensures ends { CommandEffect (schedule_task file.now) (scene (F.desk files.old) (O.put out.old) (O.faults out.old))
        (scene (F.desk files.new) (O.put out.new) (O.faults out.new)) (ending_of result) }
    ensures files_others { F.rest files.old files.new }
    ensures out_others { O.rest out.old out.new }
{
    let text = read_file_front(alloc, files, file, MAX_TEXT)?;
    match play(alloc, &text, out) {
        Ok(()) => Ok(()),
        Err(fault) => Err(refusal_of(file, fault)),
    }
}
