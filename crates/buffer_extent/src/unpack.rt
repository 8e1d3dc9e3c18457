//! Unpacking one record, which takes no memory.

ghost use Rattle.std.specs.Prelude.{◌≡◌, ◌<◌, ◌≤◌, [], length, take, slice_get, MatchResult, Ok, Err};
ghost use Rattle.printf_grammar.specs.Types.{values_of};
ghost use Rattle.buffer_extent.specs.Reading.{types_of, head_at, arguments_at, start_at, call_of, record_at};

use crate::fault::BodyCause;
use crate::numbers::{NO_NUMBERS, Number, is_staged};
use crate::take::{RecordHeader, take_coded_numbers, take_head};
use crate::texts::take_texts;
use arrayvec::ArrayVec;
use log_dictionary::Dictionary;
use printf_grammar::{Arg, MAX_ARGUMENTS};

/// Room for the arguments of one record, and for the numbers that stand for them.
#[derive(Drop)]
pub struct RecordRoom<'a> {
    /// The arguments of the record that was unpacked last. Their texts lie in its bytes.
    pub args: ArrayVec<Arg<'a>, MAX_ARGUMENTS>,
    pub(crate) numbers: [Number; MAX_ARGUMENTS],
}

impl RecordRoom<'_> {
    /// Room that holds no arguments. It serves for any number of records, one after another.
    pub fn new() -> Self
        ensures { result.args.items ≡ [] }
    {
        RecordRoom {
            args: ArrayVec::new(),
            numbers: NO_NUMBERS,
        }
    }
}

/// Room for the numbers that stand for the arguments of one record.
#[derive(Drop)]
pub struct NumberRoom {
    numbers: [Number; MAX_ARGUMENTS],
}

impl NumberRoom {
    /// Room that serves for any number of records, one after another.
    pub fn new() -> Self {
        NumberRoom {
            numbers: NO_NUMBERS,
        }
    }
}

/// What a record has in front of its texts. Its step counts from `before`, and its stamp isn't below
/// `least`. The frame of the call that it is of isn't too long.
#[inline(always)]
pub(crate) fn take_start<'a>(
    dictionary: &Dictionary,
    before: u64,
    least: u64,
    bytes: &'a [u8],
    numbers: &mut [Number; MAX_ARGUMENTS],
) -> Result<(RecordHeader, &'a [u8]), BodyCause>
    ensures { MatchResult result
        (λ pair. start_at dictionary.now before least bytes.now
        ≡ Ok ((pair.0, take (length (types_of (slice_get dictionary.now pair.0.id))) numbers.new), pair.1.now))
        (λ cause. start_at dictionary.now before least bytes.now ≡ Err cause) }
{
    let (head, rest) = take_head(dictionary.len(), before, least, bytes)?;
    let types = dictionary.message(head.id).format.types();
    let rest = take_coded_numbers(types, rest, numbers)?;
    if !is_staged(types, &numbers[..types.len()]) {
        return Err(BodyCause::TooLong);
    }
    Ok((head, rest))
}

/// Unpacks the record at the front of bytes: gives its id and stamp, with the bytes behind it, and puts its arguments
/// into the room. Its step counts from `before`, and its stamp isn't below `least`.
///
/// # Errors
///
/// The bytes don't begin with a record of the messages. What the room holds then means nothing.
pub fn unpack_record<'a>(
    dictionary: &Dictionary,
    before: u64,
    least: u64,
    bytes: &'a [u8],
    room: &mut RecordRoom<'a>,
) -> Result<(RecordHeader, &'a [u8]), BodyCause>
    ensures { MatchResult result
        (λ pair. record_at dictionary.now before least bytes.now
        ≡ Ok (call_of pair.0 (values_of room.new.args.items), pair.1.now))
        (λ cause. record_at dictionary.now before least bytes.now ≡ Err cause) }
{
    let (head, rest) = take_start(dictionary, before, least, bytes, &mut room.numbers)?;
    let types = dictionary.message(head.id).format.types();
    let rest = take_texts(types, &room.numbers[..types.len()], rest, &mut room.args)?;
    Ok((head, rest))
}

/// Unpacks what the record at the front of bytes begins with: its id and stamp, with the bytes behind them. Its step
/// counts from `before`, and its stamp isn't below `least`.
///
/// # Errors
///
/// The bytes don't begin so.
pub fn unpack_head<'a>(
    dictionary: &Dictionary,
    before: u64,
    least: u64,
    bytes: &'a [u8],
) -> Result<(RecordHeader, &'a [u8]), BodyCause>
    ensures { MatchResult result
        (λ pair. head_at (length dictionary.now) before least bytes.now ≡ Ok (pair.0, pair.1.now))
        (λ cause. head_at (length dictionary.now) before least bytes.now ≡ Err cause) }
{
    take_head(dictionary.len(), before, least, bytes)
}

/// Unpacks the arguments of a record of the message with this id, which stand at the front of bytes: sets `args` to
/// them, and gives the bytes behind them. How long the frame of the call is isn't judged. The room is that of the
/// caller, who knows the message: less of it has to be cleared.
///
/// # Errors
///
/// The bytes don't begin with such arguments. What `args` holds then means nothing.
pub fn unpack_arguments<'a, const N: usize>(
    dictionary: &Dictionary,
    id: u32,
    bytes: &'a [u8],
    room: &mut NumberRoom,
    args: &mut ArrayVec<Arg<'a>, N>,
) -> Result<&'a [u8], BodyCause>
    requires known { id < length dictionary.now }
    requires few { length (types_of (slice_get dictionary.now id)) ≤ N }
    ensures { MatchResult result
        (λ rest. arguments_at (types_of (slice_get dictionary.now id)) bytes.now
        ≡ Ok (values_of args.new.items, rest.now))
        (λ cause. arguments_at (types_of (slice_get dictionary.now id)) bytes.now ≡ Err cause) }
{
    let types = dictionary.message(id).format.types();
    let rest = take_coded_numbers(types, bytes, &mut room.numbers)?;
    take_texts(types, &room.numbers[..types.len()], rest, args)
}
