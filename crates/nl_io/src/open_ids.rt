ghost use Rattle.std.specs.Prelude.{◌≡◌, ◌↔◌, ◌<◌, ◌^◌, ℕ, IsTrue, None, Some, IfOk, IfSome, IfNone, OnErr};
ghost use Rattle.std.specs.Ordering.{nat_cmp};
ghost use Rattle.std.specs.BTreeMap.{get, Updates, IsUnchanged};
ghost use Rattle.nl_io.specs.Tables.{IsOpen};

use std::alloc::AllocError;
use std::collections::BTreeMap;

/// Whether one of the two tables has the id.
fn is_open<V: Drop, W: Drop>(table: &BTreeMap<u32, V>, other: &BTreeMap<u32, W>, id: u32) -> bool
    ensures { IsTrue result ↔ IsOpen table.now other.now id }
{
    table.contains_key(&id) || other.contains_key(&id)
}

/// The least id that is in neither table.
fn unused_id<V: Drop, W: Drop>(table: &BTreeMap<u32, V>, other: &BTreeMap<u32, W>) -> Option<u32>
    ensures here { IfSome result (λ id. get nat_cmp table.now id ≡ None) }
    ensures there { IfSome result (λ id. get nat_cmp other.now id ≡ None) }
    ensures none { IfNone result ((id : ℕ) → id < 2 ^ 32 → IsOpen table.now other.now id) }
{
    for id in 0..=u32::MAX {
        if !is_open(table, other, id) {
            return Some(id);
        }
    }
    None
}

/// Puts a value under an id that is in neither table. Where no id is left, that is want of memory.
pub(crate) fn insert_unused<V: Drop, W: Drop>(
    table: &mut BTreeMap<u32, V>,
    other: &BTreeMap<u32, W>,
    value: V,
) -> Result<u32, AllocError>
    ensures here { IfOk result (λ id. get nat_cmp table.old id ≡ None) }
    ensures there { IfOk result (λ id. get nat_cmp other.now id ≡ None) }
    ensures inserted { IfOk result (λ id. Updates nat_cmp table.old table.new id (Some value)) }
    ensures err { OnErr result (IsUnchanged table.old table.new) }
{
    let Some(id) = unused_id(table, other) else {
        return Err(AllocError);
    };
    table.insert(id, value)?;
    Ok(id)
}
