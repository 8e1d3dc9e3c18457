//! The line on a number, which the commands print at the end.

ghost use Rattle.std.specs.Prelude.{◌≡◌, ◌≢◌};
ghost use Rattle.command_base.specs.Endings.{ending_of, NoMemory as WantsMemory};
ghost use Rattle.command_base.specs.Printing.{Prints};
ghost use Rattle.dictionary_commands.specs.Heading.{count_text};

use command_base::{Refusal, print_pieces};
use itoa::Buffer;
use nl_io::Sink;

/// Prints what was counted, and how many there are. It takes no memory.
pub(crate) fn print_count<O: Sink>(
    out: &mut O,
    counted: &str,
    count: u32,
) -> Result<(), Refusal<'static>>
    ensures printed { Prints (count_text counted.now count) (O.put out.old) (O.put out.new)
        (O.faults out.old) (O.faults out.new) (ending_of result) }
    ensures memory { ending_of result ≢ WantsMemory }
    ensures others { O.rest out.old out.new }
{
    let mut digits = Buffer::new();
    let count = digits.format(count);
    print_pieces(out, &[counted, " ", count, "\n"])
}
