//! The line on totals.

ghost use Rattle.std.specs.Prelude.{◌≢◌, Some};
ghost use Rattle.command_base.specs.Endings.{ending_of, NoMemory as WantsMemory};
ghost use Rattle.command_base.specs.Printing.{Prints};
ghost use Rattle.log_commands.specs.Aggregating.{totals_line, totals_text};

use aggregation::Totals;
use command_base::{Refusal, print_pieces};
use itoa::Buffer;
use nl_io::Sink;

/// Prints the line on numbers, of which there are some. It takes no memory.
fn print_numbers<O: Sink>(
    out: &mut O,
    count: u64,
    least: i128,
    greatest: i128,
    sum: i128,
) -> Result<(), Refusal<'static>>
    ensures printed { Prints (totals_line (record { count = count; range = Some (least, greatest); sum = sum }))
        (O.put out.old) (O.put out.new) (O.faults out.old) (O.faults out.new) (ending_of result) }
    ensures memory { ending_of result ≢ WantsMemory }
    ensures others { O.rest out.old out.new }
{
    let mut count_digits = Buffer::new();
    let mut least_digits = Buffer::new();
    let mut greatest_digits = Buffer::new();
    let mut sum_digits = Buffer::new();
    let count = count_digits.format(count);
    let least = least_digits.format(least);
    let greatest = greatest_digits.format(greatest);
    let sum = sum_digits.format(sum);
    print_pieces(
        out,
        &[
            "count ",
            count,
            " least ",
            least,
            " greatest ",
            greatest,
            " sum ",
            sum,
            "\n",
        ],
    )
}

/// Prints the line on totals. It takes no memory.
fn print_totals<O: Sink>(out: &mut O, totals: Totals) -> Result<(), Refusal<'static>>
    ensures printed { Prints (totals_line totals) (O.put out.old) (O.put out.new)
        (O.faults out.old) (O.faults out.new) (ending_of result) }
    ensures memory { ending_of result ≢ WantsMemory }
    ensures others { O.rest out.old out.new }
{
    match totals.range {
        Some((least, greatest)) => print_numbers(out, totals.count, least, greatest, totals.sum),
        None => {
            let mut digits = Buffer::new();
            print_pieces(out, &["count ", digits.format(totals.count), "\n"])
        }
    }
}

/// Prints the line on totals, where there are any. It takes no memory.
pub(crate) fn print_line<O: Sink>(
    out: &mut O,
    totals: Option<Totals>,
) -> Result<(), Refusal<'static>>
    ensures printed { Prints (totals_text totals) (O.put out.old) (O.put out.new)
        (O.faults out.old) (O.faults out.new) (ending_of result) }
    ensures memory { ending_of result ≢ WantsMemory }
    ensures others { O.rest out.old out.new }
{
    match totals {
        Some(totals) => print_totals(out, totals),
        None => Ok(()),
    }
}
