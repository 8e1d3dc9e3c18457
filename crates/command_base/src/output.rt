//! The standard output.

ghost use Rattle.std.specs.Prelude.{◌≡◌, ◌≢◌, OnOk, OnErr};
ghost use Rattle.nl_io.specs.Content.{with_end};
ghost use Rattle.nl_io.specs.TextWriters.{IsCutOff, text_of_pieces};
ghost use Rattle.command_base.specs.Endings.{ending_of, NoMemory as WantsMemory};
ghost use Rattle.command_base.specs.Printing.{Prints, printed_ending};

use crate::refusal::Refusal;
use nl_io::{Failed, Sink, TextWriter, write_all};

/// The answer of a command whose text was put so into the standard output.
pub fn printed(put: Result<(), Failed>) -> Result<(), Refusal<'static>>
    ensures { ending_of result ≡ printed_ending put }
{
    match put {
        Ok(()) => Ok(()),
        Err(_) => Err(Refusal::WriteFault("standard output")),
    }
}

/// Prints a text. It takes no memory.
pub fn print<O: Sink>(out: &mut O, text: &[u8]) -> Result<(), Refusal<'static>>
    ensures printed { Prints text.now (O.put out.old) (O.put out.new) (O.faults out.old) (O.faults out.new)
        (ending_of result) }
    ensures memory { ending_of result ≢ WantsMemory }
    ensures others { O.rest out.old out.new }
{
    printed(write_all(out, text))
}

/// Puts the pieces, one behind the other.
pub(crate) fn put_pieces<O: Sink>(out: &mut O, pieces: &[&str]) -> Result<(), Failed>
    ensures ok { OnOk result (O.put out.new ≡ with_end (text_of_pieces pieces.now) (O.put out.old)) }
    ensures counted { OnOk result (O.faults out.new ≡ O.faults out.old) }
    ensures cut_off { OnErr result (IsCutOff (text_of_pieces pieces.now) (O.put out.old) (O.put out.new)
        (O.faults out.old) (O.faults out.new)) }
    ensures others { O.rest out.old out.new }
{
    let mut text = TextWriter::make();
    text.put_pieces(out, pieces)?;
    text.flush(out)
}

/// Prints the pieces, one behind the other. It takes no memory.
pub fn print_pieces<O: Sink>(out: &mut O, pieces: &[&str]) -> Result<(), Refusal<'static>>
    ensures printed { Prints (text_of_pieces pieces.now) (O.put out.old) (O.put out.new)
        (O.faults out.old) (O.faults out.new) (ending_of result) }
    ensures memory { ending_of result ≢ WantsMemory }
    ensures others { O.rest out.old out.new }
{
    printed(put_pieces(out, pieces))
}
