ghost use Rattle.std.specs.Prelude.{◌≡◌, ◌++◌, OnOk, OnErr, option_map};
ghost use Rattle.std.specs.FinMap as map;
ghost use Rattle.nl_io.specs.Desk.{held_at};

use std::alloc::{AllocError, Global};
use std::collections::BTreeMap;

/// What each name holds.
#[derive(Drop)]
pub(crate) struct Shelf {
    held: BTreeMap<String, Vec<u8>>,
    alloc: Global,
}

impl Shelf {
    ghost use Rattle.nl_io.specs.Shelves.{held_on};

    /// No names.
    pub(crate) fn new(alloc: Global) -> Shelf
        ensures { held_on result ≡ map.empty }
    {
        Shelf {
            held: BTreeMap::new(alloc),
            alloc,
        }
    }

    /// What a name holds.
    pub(crate) fn get(&self, name: &str) -> Option<&[u8]>
        ensures { option_map (λ bytes. bytes.now) result ≡ map.get (held_on self.now) name.now }
    {
        match self.held.get(name) {
            Some(bytes) => Some(bytes.as_slice()),
            None => None,
        }
    }

    /// Makes a name hold these bytes.
    pub(crate) fn put(&mut self, name: &str, bytes: &[u8]) -> Result<(), AllocError>
        ensures ok { OnOk result (held_on self.new ≡ map.insert (held_on self.old) name.now bytes.now) }
        ensures err { OnErr result (held_on self.new ≡ held_on self.old) }
    {
        let key = String::from_str(self.alloc, name)?;
        let bytes = Vec::from_slice(self.alloc, bytes)?;
        self.held.insert(key, bytes)?;
        Ok(())
    }

    /// Puts bytes at the end of what a name holds.
    pub(crate) fn append(&mut self, name: &str, bytes: &[u8]) -> Result<(), AllocError>
        ensures ok { OnOk result (held_on self.new ≡ map.insert (held_on self.old) name.now (held_at
            (held_on self.old) name.now ++ bytes.now)) }
        ensures err { OnErr result (held_on self.new ≡ held_on self.old) }
    {
        match self.held.get_mut(name) {
            Some(content) => content.extend_from_slice(bytes),
            None => self.put(name, bytes),
        }
    }
}
