ghost use Rattle.std.specs.Prelude.{◌≡◌, ◌≢◌, ◌<◌, ◌≤◌, ℕ, List, min, length, take, Some, None, IfOk, OnErr};
ghost use Rattle.std.specs.FinMap as map;
ghost use Rattle.nl_io.specs.Content.{Told, without_front, IsFront, IsAtEnd};
ghost use Rattle.nl_io.specs.Readings.{left_in};
ghost use Rattle.nl_io.specs.Titles.{titles_in};

use crate::open_ids::insert_unused;
use crate::reading::MemReading;
use std::alloc::{AllocError, Global};
use std::collections::BTreeMap;

/// Opens a copy of these bytes, under an id that neither table has.
pub(crate) fn open_copy(
    alloc: Global,
    table: &mut BTreeMap<u32, MemReading>,
    made: &BTreeMap<u32, String>,
    bytes: &[u8],
) -> Result<u32, AllocError>
    ensures unread { IfOk result (λ id. map.get (left_in table.old) id ≡ None) }
    ensures unmade { IfOk result (λ id. map.get (titles_in made.now) id ≡ None) }
    ensures opened { IfOk result (λ id. left_in table.new ≡ map.insert (left_in table.old) id (Some bytes.now)) }
    ensures err { OnErr result (left_in table.new ≡ left_in table.old) }
{
    let bytes = Vec::from_slice(alloc, bytes)?;
    insert_unused(table, made, MemReading::new(bytes))
}

/// Moves bytes of an open file to the front of `into`, at most `most`, and answers how many.
pub(crate) fn take_from(
    table: &mut BTreeMap<u32, MemReading>,
    id: u32,
    most: usize,
    into: &mut [u8],
) -> usize
    requires reading { map.get (left_in table.old) id ≢ None }
    requires moves { 0 < most }
    ensures amount { (left : List ℕ) → map.get (left_in table.old) id ≡ Some (Some left)
        → result ≡ min (min most (length left)) (length into.old) }
    ensures within { result ≤ length into.old }
    ensures front { (content : Told) → map.get (left_in table.old) id ≡ Some content
        → IsFront result (take result into.new) content }
    ensures moved { (content : Told) → map.get (left_in table.old) id ≡ Some content
        → left_in table.new ≡ map.insert (left_in table.old) id (without_front result content) }
    ensures end { (content : Told) → map.get (left_in table.old) id ≡ Some content → result ≡ 0
        → 0 < length into.old → IsAtEnd content }
{
    let reading = table.get_mut(&id).unwrap();
    reading.take(most, into)
}
