//! The command `aggregate`.

ghost use Rattle.std.specs.Prelude.{◌≡◌, ◌≢◌, ◌≤◌, None, IsErrOf};
ghost use Rattle.std.specs.FinMap as map;
ghost use Rattle.nl_io.specs.Count.{Rose};
ghost use Rattle.nl_io.specs.Content.{Told};
ghost use Rattle.nl_io.specs.Desk.{IsReading, SameButLeft};
ghost use Rattle.aggregation.specs.Aggregating.{AnswersTotals};
ghost use Rattle.command_base.specs.Endings.{ending_of};
ghost use Rattle.command_base.specs.Effects.{CommandEffect};
ghost use Rattle.command_base.specs.Scenes.{scene};
ghost use Rattle.command_base.specs.Tasks.{text_alone};
ghost use Rattle.log_commands.specs.Logs.{left_by};
ghost use Rattle.log_commands.specs.Aggregating.{totals_text, totals_told, totals_ending, aggregate_task};

use crate::damage::{damaged, refused};
use crate::totals_line::print_line;
use aggregation::{AggregateFault, Totals};
use command_base::{Refusal, open};
use nl_io::{FileSource, Files, Sink};
use std::alloc::Global;

/// The totals of an argument over the records of the log that the open file has left.
fn aggregate_open<F: Files>(
    alloc: Global,
    files: &mut F,
    file: u32,
    id: u32,
    nth: u32,
) -> Result<Totals, AggregateFault>
    requires { map.get (F.desk files.old).left file ≢ None }
    ensures answer { (content : Told) → IsReading (F.desk files.old) file content
        → AnswersTotals content (left_by (F.desk files.new) file) id nth result }
    ensures read_fault { IsErrOf result AggregateFault.ReadFault
        → Rose (F.desk files.old).read_faults (F.desk files.new).read_faults }
    ensures counted { ¬ (IsErrOf result AggregateFault.ReadFault)
        → (F.desk files.new).read_faults ≡ (F.desk files.old).read_faults }
    ensures count { (F.desk files.old).read_faults ≤ (F.desk files.new).read_faults }
    ensures same { SameButLeft file (F.desk files.old) (F.desk files.new) }
    ensures others { F.rest files.old files.new }
{
    aggregation::aggregate(alloc, &mut FileSource::make(files, file), id, nth)
}

/// The totals that the answer tells: of the whole log, or of what stands in front of a damage.
fn totals_of(answer: Result<Totals, AggregateFault>) -> Option<Totals>
    ensures { result ≡ totals_told answer }
{
    match answer {
        Ok(totals) => Some(totals),
        Err(AggregateFault::Damaged { front, .. }) => front,
        Err(_) => None,
    }
}

/// How the command ends, by the answer.
fn ending_of_log(log: &str, answer: Result<Totals, AggregateFault>) -> Result<(), Refusal<'_>>
    ensures { ending_of result ≡ totals_ending log.now answer }
{
    match answer {
        Ok(_) => Ok(()),
        Err(AggregateFault::ReadFault) => Err(Refusal::ReadFault(log)),
        Err(AggregateFault::Damaged { offset, cause, .. }) => Err(damaged(log, offset, cause)),
        Err(AggregateFault::NoSuchMessage) => Err(refused(log, 1, "NoSuchMessage")),
        Err(AggregateFault::NoSuchArgument) => Err(refused(log, 2, "NoSuchArgument")),
        Err(AggregateFault::NoMemory) => Err(Refusal::NoMemory),
    }
}

/// The totals that the log tells, and how the command ends behind the line on them.
fn read_totals<'a, F: Files>(
    alloc: Global,
    files: &mut F,
    log: &'a str,
    id: u32,
    nth: u32,
) -> (Option<Totals>, Result<(), Refusal<'a>>)
    ensures reads { (aggregate_task log.now id nth).reads (F.desk files.old) (F.desk files.new)
        (text_alone (totals_text result.0)) (ending_of result.1) }
    ensures others { F.rest files.old files.new }
{
    let file = match open(files, log) {
        Ok(file) => file,
        Err(refusal) => return (None, Err(refusal)),
    };
    let answer = aggregate_open(alloc, files, file, id, nth);
    files.leave(file);
    (totals_of(answer), ending_of_log(log, answer))
}

/// Prints the line on the totals of an argument over the records of the log that the name holds. The argument is the
/// one at this place, from 0, of the message with this id.
///
/// # Errors
///
/// `Absent` where there is no such name, and `ReadFault` where a call failed. `Damaged` comes behind the line on the
/// totals in front of the damage, where there are any. A log that is whole is `Refused` where it doesn't define the
/// message, or the message has no number there. `WriteFault`, where a front of the line went out, and `NoMemory`.
pub fn aggregate<'a, F: Files, O: Sink>(
    alloc: Global,
    files: &mut F,
    log: &'a str,
    id: u32,
    nth: u32,
    out: &mut O,
) -> Result<(), Refusal<'a>>
    ensures ends { CommandEffect (aggregate_task log.now id nth)
        (scene (F.desk files.old) (O.put out.old) (O.faults out.old))
        (scene (F.desk files.new) (O.put out.new) (O.faults out.new)) (ending_of result) }
    ensures files_others { F.rest files.old files.new }
    ensures out_others { O.rest out.old out.new }
{
    let (totals, ending) = read_totals(alloc, files, log, id, nth);
    print_line(out, totals)?;
    ending
}
