ghost use Rattle.std.specs.Prelude.{◌≡◌, Some, None, IfOk, OnErr};
ghost use Rattle.std.specs.FinMap as map;
ghost use Rattle.nl_io.specs.Readings.{left_in};
ghost use Rattle.nl_io.specs.Titles.{titles_in};

use crate::open_ids::insert_unused;
use crate::reading::MemReading;
use std::alloc::{AllocError, Global};
use std::collections::BTreeMap;

/// Keeps a name, under an id that neither table has.
pub(crate) fn keep_title(
    alloc: Global,
    made: &mut BTreeMap<u32, String>,
    reading: &BTreeMap<u32, MemReading>,
    name: &str,
) -> Result<u32, AllocError>
    ensures unmade { IfOk result (λ id. map.get (titles_in made.old) id ≡ None) }
    ensures unread { IfOk result (λ id. map.get (left_in reading.now) id ≡ None) }
    ensures kept { IfOk result (λ id. titles_in made.new ≡ map.insert (titles_in made.old) id (Some name.now)) }
    ensures err { OnErr result (titles_in made.new ≡ titles_in made.old) }
{
    let title = String::from_str(alloc, name)?;
    insert_unused(made, reading, title)
}
