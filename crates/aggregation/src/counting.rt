//! Counting the records of a message.

ghost use Rattle.std.specs.Prelude.{◌≡◌, ◌<◌, ◌≤◌, ◌+◌, ℕ, List, [], ◌∷◌, length, IfSome};
ghost use Rattle.printf_grammar.specs.Types.{argument_value, values_of};
ghost use Rattle.arg_records.specs.declared.call.Call.{Call};
ghost use Rattle.buffer_extent.specs.Bodies.{IsBody};
ghost use Rattle.buffer_extent.specs.Reading.{call_of};
ghost use Rattle.checkpoint_io.specs.declared.heads.TheConstants.{MAX_LOG};
ghost use Rattle.aggregation.specs.Totals.{numeric_value, number_in, numbers_in, IsNumber, IsWithin, Adds};

use crate::totals::Totals;
use buffer_extent::{RecordHeader, RecordRoom, unpack_record};
use log_dictionary::Dictionary;
use printf_grammar::Arg;

// The number that an argument is, if it is one.
fn number_of_argument(argument: &Arg) -> Option<i128>
    ensures number { result ≡ numeric_value (argument_value argument.now) }
    ensures fits { IfSome result IsNumber }
{
    match argument {
        Arg::Signed(number) => Some(*number as i128),
        Arg::Unsigned(number) => Some(*number as i128),
        Arg::Text(_) => None,
    }
}

// The number at a place of the record's arguments, if it is a record of the message with this id.
fn number_of_record(head: RecordHeader, args: &[Arg], id: u32, nth: u32) -> Option<i128>
    ensures number { result ≡ number_in id nth (call_of head (values_of args.now)) }
    ensures fits { IfSome result IsNumber }
{
    if head.id != id {
        return None;
    }
    match args.get(nth as usize) {
        Some(argument) => number_of_argument(argument),
        None => None,
    }
}

// The totals with the number of one record, if it has one.
fn with_record(totals: Totals, head: RecordHeader, args: &[Arg], id: u32, nth: u32) -> Totals
    requires few { totals.count < MAX_LOG }
    requires within { IsWithin totals.count totals.sum }
    ensures { Adds totals result (numbers_in id nth (call_of head (values_of args.now) ∷ [])) 1 }
{
    match number_of_record(head, args, id, nth) {
        Some(number) => totals.with(number),
        None => totals,
    }
}

/// Takes the numbers of an argument from the records of a body, in their order, into the totals. `base` is the tick of
/// the clock, from which the first step counts.
pub fn add_records(
    body: &[u8],
    dictionary: &Dictionary,
    base: u64,
    id: u32,
    nth: u32,
    totals: &mut Totals,
)
    requires few { (last : ℕ) × (records : List Call) × IsBody dictionary.now base last records body.now
        × (totals.old.count + length records ≤ MAX_LOG) }
    requires within { IsWithin totals.old.count totals.old.sum }
    ensures { (last : ℕ) (records : List Call) → IsBody dictionary.now base last records body.now
        → Adds totals.old totals.new (numbers_in id nth records) (length records) }
{
    let mut room = RecordRoom::new();
    let mut before = base;
    let mut rest = body;
    // No stamp is below the one in front.
    while let Ok((head, back)) = unpack_record(dictionary, before, before, rest, &mut room) {
        *totals = with_record(*totals, head, room.args.as_slice(), id, nth);
        before = head.stamp;
        rest = back;
    }
}
