//! Totals over a log.

ghost use Rattle.std.specs.Prelude.{◌≡◌, ◌≤◌, Option, IsErrOf, OnOk};
ghost use Rattle.nl_io.specs.Count.{Rose};
ghost use Rattle.nl_io.specs.Content.{IsAtEnd};
ghost use Rattle.log_scan.specs.Parts.{LogPart, blocks_read};
ghost use Rattle.log_scan.specs.Scans.{IsReaderOf};
ghost use Rattle.aggregation.specs.Totals.{is_numeric as numeric, has_number, totals_in};
ghost use Rattle.aggregation.specs.Tallying.{IsTally};
ghost use Rattle.aggregation.specs.Aggregating.{answer_at, AnswersTotals};

use crate::fault::AggregateFault;
use crate::tally::Tally;
use crate::totals::Totals;
use log_dictionary::Dictionary;
use log_scan::{Scan, ScanEnd, scan_log};
use nl_io::Source;
use printf_grammar::ArgType;
use std::alloc::Global;

// Whether arguments of the type are numbers.
fn is_numeric(kind: ArgType) -> bool
    ensures { result ≡ numeric kind }
{
    match kind {
        ArgType::Text => false,
        _ => true,
    }
}

// Whether the message with this id has a number as its argument there.
fn takes_number(dictionary: &Dictionary, id: u32, nth: u32) -> bool
    ensures { result ≡ has_number dictionary.now id nth }
{
    let Some(message) = dictionary.get(id) else {
        return false;
    };
    match message.format.types().get(nth as usize) {
        Some(kind) => is_numeric(*kind),
        None => false,
    }
}

// The totals, where the whole blocks define such an argument.
fn totals_of_tally(scan: &Scan, tally: &Tally) -> Option<Totals>
    ensures { (part : Option LogPart) → IsReaderOf scan.now.reader part → IsTally (blocks_read part) tally.now
        → result ≡ totals_in (blocks_read part) tally.now.id tally.now.nth }
{
    let reader = scan.reader.as_ref()?;
    if tally.id < tally.defined && takes_number(reader.dictionary(), tally.id, tally.nth) {
        Some(tally.totals)
    } else {
        None
    }
}

// The answer of a log that is whole.
fn whole_answer(scan: &Scan, tally: &Tally) -> Result<Totals, AggregateFault>
    ensures { (part : Option LogPart) → IsReaderOf scan.now.reader part → IsTally (blocks_read part) tally.now
        → result ≡ answer_at (blocks_read part) tally.now.id tally.now.nth ScanEnd.Whole }
{
    match totals_of_tally(scan, tally) {
        Some(totals) => Ok(totals),
        None if tally.id < tally.defined => Err(AggregateFault::NoSuchArgument),
        None => Err(AggregateFault::NoSuchMessage),
    }
}

// The answer of a log, by how its scan ended.
fn answer_of(scan: &Scan, tally: &Tally) -> Result<Totals, AggregateFault>
    ensures { (part : Option LogPart) → IsReaderOf scan.now.reader part → IsTally (blocks_read part) tally.now
        → result ≡ answer_at (blocks_read part) tally.now.id tally.now.nth scan.now.end }
{
    match scan.end {
        ScanEnd::Whole => whole_answer(scan, tally),
        ScanEnd::Damaged { offset, cause } => Err(AggregateFault::Damaged {
            offset,
            cause,
            front: totals_of_tally(scan, tally),
        }),
        ScanEnd::ReadFault => Err(AggregateFault::ReadFault),
    }
}

/// The totals of an argument, whose place counts from 0 and in which each `*` of the format is one, over all records of
/// the message with this id in a log, which is all that the source has left. The values count as they were given: no
/// length narrows them.
///
/// # Errors
///
/// A read failed. Or the file is damaged; the totals of the whole blocks in front are told then. Or the file is whole
/// and never defines the id, or it has no number there. Or there is no memory.
pub fn aggregate<S: Source>(
    alloc: Global,
    source: &mut S,
    id: u32,
    nth: u32,
) -> Result<Totals, AggregateFault>
    // What the answer says of the bytes that the source had left, or, where a read failed, of those that were taken.
    ensures answer { AnswersTotals (S.left source.old) (S.left source.new) id nth result }

    // Where the file is whole nothing of it is left.
    ensures end { OnOk result (IsAtEnd (S.left source.new)) }
    ensures end_no_message { IsErrOf result AggregateFault.NoSuchMessage → IsAtEnd (S.left source.new) }
    ensures end_no_argument { IsErrOf result AggregateFault.NoSuchArgument → IsAtEnd (S.left source.new) }

    // A read fault is one of this call, and no other answer hides one.
    ensures read_fault { IsErrOf result AggregateFault.ReadFault → Rose (S.faults source.old) (S.faults source.new) }
    ensures counted { ¬ (IsErrOf result AggregateFault.ReadFault) → S.faults source.new ≡ S.faults source.old }
    ensures count { S.faults source.old ≤ S.faults source.new }

    // All else is as it was.
    ensures others { S.rest source.old source.new }
{
    let mut tally = Tally::none(id, nth);
    let scan = scan_log(alloc, source, &mut tally)?;
    answer_of(&scan, &tally)
}
