//! What the files of a case hold, and steps that change it.

use crate::filling::{bytes_of, sides_of, two_of};
use anyhow::{Context, Result, anyhow};
use std::alloc::Global;
use std::collections::BTreeMap;

/// What each name holds.
pub(crate) type Held = BTreeMap<String, Vec<u8>>;

/// What the name holds.
pub(crate) fn held_by<'h>(held: &'h Held, name: &str) -> Result<&'h [u8]> {
    let bytes = held.get(name).context("the file isn't there")?;
    Ok(bytes.as_slice())
}

/// Makes the name hold these bytes.
pub(crate) fn hold(alloc: Global, held: &mut Held, name: &str, bytes: &[u8]) -> Result<()> {
    let bytes = bytes.to_vec(alloc)?;
    held.insert(String::from_str(alloc, name)?, bytes)?;
    Ok(())
}

/// The text with the new piece where the old one stands first.
fn edited(alloc: Global, bytes: &[u8], change: &str) -> Result<String> {
    let (old, new) = sides_of(change).context("no new piece")?;
    let text = str::from_utf8(bytes)?;
    text.find(old).context("the piece isn't there")?;
    Ok(text.replacen(alloc, old, new, 1)?)
}

/// The bytes with others from a place on.
fn overwritten(alloc: Global, bytes: &[u8], change: &str) -> Result<Vec<u8>> {
    let (place, digits) = two_of(change)?;
    let mut changed = first_of(alloc, bytes, place)?;
    changed.extend_from_slice(bytes_of(alloc, digits)?.as_slice())?;
    let back = bytes.get(changed.len()..).unwrap_or(&[]);
    changed.extend_from_slice(back)?;
    Ok(changed)
}

/// So many of the first bytes.
fn first_of(alloc: Global, bytes: &[u8], count: &str) -> Result<Vec<u8>> {
    let count = count.parse::<usize>()?;
    let front = bytes.get(..count).context("the file is too short")?;
    Ok(front.to_vec(alloc)?)
}

/// The bytes from a place on.
fn last_of(alloc: Global, bytes: &[u8], place: &str) -> Result<Vec<u8>> {
    let place = place.parse::<usize>()?;
    let back = bytes.get(place..).context("the file is too short")?;
    Ok(back.to_vec(alloc)?)
}

/// Does the step of this verb, which changes the file that is named first.
pub(crate) fn change(alloc: Global, held: &mut Held, verb: &str, words: &str) -> Result<()> {
    let (name, change) = two_of(words)?;
    let bytes = held_by(held, name)?;
    let changed = match verb {
        "edit" => edited(alloc, bytes, change)?.into_bytes(),
        "put" => overwritten(alloc, bytes, change)?,
        "cut" => first_of(alloc, bytes, change)?,
        "from" => last_of(alloc, bytes, change)?,
        _ => return Err(anyhow!("no such step")),
    };
    hold(alloc, held, name, changed.as_slice())
}
