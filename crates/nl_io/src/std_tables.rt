ghost use Rattle.std.specs.Prelude.{◌≡◌, ◌≢◌, ◌<◌, ◌≤◌, length, Some, None, IfOk, OnErr};
ghost use Rattle.std.specs.FinMap as map;
ghost use Rattle.nl_io.specs.Count.{Counts};
ghost use Rattle.nl_io.specs.Untold.{ids_in};

use crate::failed::Failed;
use crate::open_ids::insert_unused;
use crate::std_calls::{fail, flush, read_some, write_some};
use std::collections::BTreeMap;
use std::io::{Read, Write};

/// Keeps an open file under an id that neither table has. Want of memory is a failure.
pub(crate) fn keep<V: Drop>(
    table: &mut BTreeMap<u32, V>,
    other: &BTreeMap<u32, V>,
    file: V,
    faults: &mut u64,
) -> Result<u32, Failed>
    ensures here { IfOk result (λ id. map.get (ids_in table.old) id ≡ None) }
    ensures there { IfOk result (λ id. map.get (ids_in other.now) id ≡ None) }
    ensures kept { IfOk result (λ id. ids_in table.new ≡ map.insert (ids_in table.old) id None) }
    ensures err { OnErr result (ids_in table.new ≡ ids_in table.old) }
    ensures counted { Counts result faults.old faults.new }
{
    match insert_unused(table, other, file) {
        Ok(id) => Ok(id),
        Err(_) => Err(fail(faults)),
    }
}

/// Reads from an open file.
pub(crate) fn read_from<V: Read + Drop>(
    table: &mut BTreeMap<u32, V>,
    id: u32,
    into: &mut [u8],
    faults: &mut u64,
) -> Result<usize, Failed>
    requires { map.get (ids_in table.old) id ≢ None }
    ensures within { IfOk result (λ n. n ≤ length into.old) }
    ensures same { ids_in table.new ≡ ids_in table.old }
    ensures counted { Counts result faults.old faults.new }
{
    let file = table.get_mut(&id).unwrap();
    read_some(file, into, faults)
}

/// Writes to an open file.
pub(crate) fn write_to<V: Write + Drop>(
    table: &mut BTreeMap<u32, V>,
    id: u32,
    bytes: &[u8],
    faults: &mut u64,
) -> Result<usize, Failed>
    requires { map.get (ids_in table.old) id ≢ None }
    ensures within { IfOk result (λ n. n ≤ length bytes.now) }
    ensures some { IfOk result (λ n. 0 < length bytes.now → 0 < n) }
    ensures same { ids_in table.new ≡ ids_in table.old }
    ensures counted { Counts result faults.old faults.new }
{
    let file = table.get_mut(&id).unwrap();
    write_some(file, bytes, faults)
}

/// Hands on what an open file holds back, and closes it.
pub(crate) fn close<V: Write + Drop>(
    table: &mut BTreeMap<u32, V>,
    id: u32,
    faults: &mut u64,
) -> Result<(), Failed>
    ensures closed { ids_in table.new ≡ map.remove (ids_in table.old) id }
    ensures counted { Counts result faults.old faults.new }
{
    match table.remove(&id) {
        Some(mut file) => flush(&mut file, faults),
        None => Ok(()),
    }
}
