//! The command `generate`.

ghost use Rattle.std.specs.Prelude.{◌≤◌};
ghost use Rattle.nl_io.specs.Desk.{Desk};
ghost use Rattle.session_options.specs.declared.limits.TheConstants.{MAX_GENERATED_WRITERS};
ghost use Rattle.trace_text.specs.Canonical.{Canonical};
ghost use Rattle.session_options.specs.declared.limits.TheConstants.{MAX_GENERATED};
ghost use Rattle.command_base.specs.Endings.{ending_of};
ghost use Rattle.command_base.specs.Effects.{CommandEffect};
ghost use Rattle.command_base.specs.Printing.{Prints};
ghost use Rattle.command_base.specs.Scenes.{scene};
ghost use Rattle.trace_commands.specs.Tasks.{generate_task};

use command_base::Refusal;
use nl_io::Sink;
use std::alloc::Global;
use trace_text::{Trace, WriteTraceFault, write_trace};

/// Prints the text of a trace.
fn print_trace<O: Sink>(alloc: Global, trace: &Trace, out: &mut O) -> Result<(), Refusal<'static>>
    ensures printed { Prints (Canonical trace.now) (O.put out.old) (O.put out.new)
        (O.faults out.old) (O.faults out.new) (ending_of result) }
    ensures others { O.rest out.old out.new }
{
    match write_trace(alloc, trace, out) {
        Ok(()) => Ok(()),
        Err(WriteTraceFault::Failed) => Err(Refusal::WriteFault("standard output")),
        Err(WriteTraceFault::NoMemory) => Err(Refusal::NoMemory),
    }
}

/// Prints the text of the trace that is drawn from the seed, with so many calls of so many writers.
///
/// # Errors
///
/// `WriteFault` or `NoMemory`. A front of the text went out then.
pub fn generate<O: Sink>(
    alloc: Global,
    seed: u64,
    calls: u32,
    writers: u32,
    out: &mut O,
) -> Result<(), Refusal<'static>>
    requires few_calls { calls ≤ MAX_GENERATED }
    requires some_writer { 1 ≤ writers }
    requires few_writers { writers ≤ MAX_GENERATED_WRITERS }

    // It is given no files, so all of them stay as they are.
    ensures ends { (desk : Desk) → CommandEffect (generate_task seed calls writers)
        (scene desk (O.put out.old) (O.faults out.old)) (scene desk (O.put out.new) (O.faults out.new))
        (ending_of result) }
    ensures others { O.rest out.old out.new }
{
    let trace = trace_generator::generate(alloc, seed, calls, writers)?;
    print_trace(alloc, &trace, out)
}
