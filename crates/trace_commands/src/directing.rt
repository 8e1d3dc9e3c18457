//! The command `direct`.

ghost use Rattle.command_base.specs.Endings.{ending_of};
ghost use Rattle.command_base.specs.Effects.{CommandEffect};
ghost use Rattle.command_base.specs.Scenes.{scene};
ghost use Rattle.trace_commands.specs.Tasks.{direct_task};

use crate::lines::print_run;
use crate::reading::trace_of_file;
use command_base::Refusal;
use nl_io::{Files, Sink};
use std::alloc::Global;

/// Prints the lines of all calls of the trace that the name holds.
///
/// # Errors
///
/// Those of [`trace_of_file`](crate::trace_of_file), and `WriteFault`, where a front of the lines went out, as it may
/// with `NoMemory`.
pub fn direct<'a, F: Files, O: Sink>(
    alloc: Global,
    files: &mut F,
    trace: &'a str,
    out: &mut O,
) -> Result<(), Refusal<'a>>
    ensures ends { CommandEffect (direct_task trace.now) (scene (F.desk files.old) (O.put out.old) (O.faults out.old))
        (scene (F.desk files.new) (O.put out.new) (O.faults out.new)) (ending_of result) }
    ensures files_others { F.rest files.old files.new }
    ensures out_others { O.rest out.old out.new }
{
    let run = trace_of_file(alloc, files, trace)?;
    print_run(alloc, &run, out)
}
