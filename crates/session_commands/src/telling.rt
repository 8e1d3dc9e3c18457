//! What is told of a session.

ghost use Rattle.std.specs.Prelude.{◌≡◌, ◌≢◌, ◌++◌, OnOk, OnErr};
ghost use Rattle.nl_io.specs.Content.{with_end};
ghost use Rattle.nl_io.specs.TextWriters.{Carries, IsCutOff};
ghost use Rattle.command_base.specs.Endings.{NoMemory as WantsMemory, ending_of};
ghost use Rattle.command_base.specs.Printing.{Prints};
ghost use Rattle.session_commands.specs.Headline.{drop_line, counts_line, outcome_text};

use command_base::{Refusal, printed};
use itoa::Buffer;
use nl_io::{Failed, Sink, TextWriter};
use trace_session::{Dropped, Drops};

/// Puts the line on a dropped call.
fn put_drop<O: Sink>(out: &mut O, writer: &mut TextWriter, drop: &Dropped) -> Result<(), Failed>
    ensures ok { OnOk result (Carries (writer.old ++ drop_line drop.now) (O.put out.old) (O.put out.new) writer.new) }
    ensures counted { OnOk result (O.faults out.new ≡ O.faults out.old) }
    ensures cut_off { OnErr result (IsCutOff (writer.old ++ drop_line drop.now) (O.put out.old) (O.put out.new)
        (O.faults out.old) (O.faults out.new)) }
    ensures others { O.rest out.old out.new }
{
    let mut of_writer = Buffer::new();
    let mut ordinal = Buffer::new();
    let mut need = Buffer::new();
    let mut room = Buffer::new();
    writer.put_pieces(
        out,
        &[
            "drop ",
            of_writer.format(drop.writer),
            " ",
            ordinal.format(drop.ordinal),
            " need ",
            need.format(drop.need),
            " room ",
            room.format(drop.room),
            "\n",
        ],
    )
}

/// Puts the line on how many calls were accepted, dropped and filtered.
fn put_counts<O: Sink>(
    out: &mut O,
    writer: &mut TextWriter,
    accepted: u64,
    dropped: u64,
    filtered: u64,
) -> Result<(), Failed>
    ensures ok { OnOk result (Carries (writer.old ++ counts_line accepted dropped filtered) (O.put out.old)
        (O.put out.new) writer.new) }
    ensures counted { OnOk result (O.faults out.new ≡ O.faults out.old) }
    ensures cut_off { OnErr result (IsCutOff (writer.old ++ counts_line accepted dropped filtered) (O.put out.old)
        (O.put out.new) (O.faults out.old) (O.faults out.new)) }
    ensures others { O.rest out.old out.new }
{
    let mut accepted_digits = Buffer::new();
    let mut dropped_digits = Buffer::new();
    let mut filtered_digits = Buffer::new();
    writer.put_pieces(
        out,
        &[
            "accepted ",
            accepted_digits.format(accepted),
            " dropped ",
            dropped_digits.format(dropped),
            " filtered ",
            filtered_digits.format(filtered),
            "\n",
        ],
    )
}

/// Puts a line for each dropped call, and how many calls were accepted, dropped and filtered.
fn put_outcome<O: Sink>(
    out: &mut O,
    drops: &Drops,
    accepted: u64,
    filtered: u64,
) -> Result<(), Failed>
    ensures ok { OnOk result (O.put out.new ≡ with_end (outcome_text drops.now accepted filtered) (O.put out.old)) }
    ensures counted { OnOk result (O.faults out.new ≡ O.faults out.old) }
    ensures cut_off { OnErr result (IsCutOff (outcome_text drops.now accepted filtered) (O.put out.old)
        (O.put out.new) (O.faults out.old) (O.faults out.new)) }
    ensures others { O.rest out.old out.new }
{
    let mut writer = TextWriter::make();
    for drop in drops {
        put_drop(out, &mut writer, drop)?;
    }
    put_counts(out, &mut writer, accepted, drops.len() as u64, filtered)?;
    writer.flush(out)
}

/// Prints what a session came to: a line for each dropped call, and how many calls were accepted, dropped and filtered.
/// It takes no memory.
pub(crate) fn tell<O: Sink>(
    out: &mut O,
    drops: &Drops,
    accepted: u64,
    filtered: u64,
) -> Result<(), Refusal<'static>>
    ensures printed { Prints (outcome_text drops.now accepted filtered) (O.put out.old) (O.put out.new)
        (O.faults out.old) (O.faults out.new) (ending_of result) }
    ensures memory { ending_of result ≢ WantsMemory }
    ensures others { O.rest out.old out.new }
{
    printed(put_outcome(out, drops, accepted, filtered))
}
