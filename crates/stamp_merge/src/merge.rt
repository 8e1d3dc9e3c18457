//! The order in which sorted lists of stamps are merged.

ghost use Rattle.std.specs.Prelude.{◌≡◌, ◌++◌, ◌<◌, ◌^◌, length, map, IfOk, OnOk};
ghost use Rattle.stamp_merge.specs.Merging.{list_keys, merge_order};

use std::alloc::{AllocError, Global};

/// A stamp and the number of its list.
#[derive(Clone, Copy, Debug, PartialEq, Eq, PartialOrd, Ord)]
pub(crate) struct MergeKey {
    pub(crate) stamp: u64,
    pub(crate) list: u32,
}

/// Appends the stamps of a list, each with the list's number.
fn add_keys(list: u32, stamps: &[u64], keys: &mut Vec<MergeKey>) -> Result<(), AllocError>
    ensures { OnOk result (keys.new.items ≡ keys.old.items ++ list_keys (list, stamps.now)) }
{
    for &stamp in stamps {
        keys.push(MergeKey { stamp, list })?;
    }
    Ok(())
}

/// The numbers of the lists, in the order in which stamps are taken from them: by stamp, and equal
/// stamps by the lists' numbers, which count from 0. A list stands there once for each of its stamps.
///
/// # Errors
///
/// There is no memory for all stamps.
pub fn merge_order(alloc: Global, lists: &[Vec<u64>]) -> Result<Vec<u32>, AllocError>
    requires { length lists.now < 2 ^ 32 }
    ensures { IfOk result (λ order. order.items ≡ merge_order (map (λ list. list.items) lists.now)) }
{
    let mut keys = Vec::new(alloc);
    for (list, stamps) in lists.iter().enumerate() {
        add_keys(list as u32, stamps, &mut keys)?;
    }
    // The stable sort keeps rising runs and merges them, and each list is one.
    keys.sort()?;
    let mut order = Vec::with_capacity(alloc, keys.len())?;
    for key in keys.iter() {
        order.push(key.list)?;
    }
    Ok(order)
}
