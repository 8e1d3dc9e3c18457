ghost use Rattle.std.specs.Prelude.{◌≡◌, ◌++◌, ◌∷◌, [], IfOk, OnOk};

use crate::short_bytes::{SHORT, ShortBytes};
use std::alloc::{AllocError, Global};
use std::marker::Model;

/// Where bytes are kept. More than a few have memory of their own, and its length and its place stand there too, so
/// that a kept argument is small: a call mostly has two of them, and short texts.
#[derive(Debug, Drop)]
enum Items {
    Short(ShortBytes),
    Long(Box<Vec<u8>>),
}

/// A run of bytes that owns its memory.
#[derive(Debug, Drop)]
pub struct Bytes {
    alloc: Global,
    items: Items,
}

impl Model for Bytes {
    ghost use Rattle.std.specs.Prelude.{List, ℕ};
    ghost use Rattle.printf_grammar.specs.Bytes.{items_of};

    ghost Value = { List ℕ };

    ghost view = { λ bytes. items_of bytes.items };
}

impl Bytes {
    /// A copy of the bytes.
    pub fn from_slice(alloc: Global, bytes: &[u8]) -> Result<Bytes, AllocError>
        ensures { IfOk result (λ copy. copy ≡ bytes.now) }
    {
        let mut copy = Bytes::with_capacity(alloc, bytes.len())?;
        copy.extend_from_slice(bytes)?;
        Ok(copy)
    }

    /// No bytes, where `n` of them are to come.
    pub fn with_capacity(alloc: Global, n: usize) -> Result<Bytes, AllocError>
        ensures { IfOk result (λ bytes. bytes ≡ []) }
    {
        let items = if n <= SHORT {
            Items::Short(ShortBytes::none())
        } else {
            Items::Long(Box::new(alloc, Vec::with_capacity(alloc, n)?)?)
        };
        Ok(Bytes { alloc, items })
    }

    /// Appends a byte.
    pub fn push(&mut self, byte: u8) -> Result<(), AllocError>
        ensures { OnOk result (self.new ≡ self.old ++ byte ∷ []) }
    {
        self.extend_from_slice(&[byte])
    }

    /// Appends a copy of the bytes.
    pub fn extend_from_slice(&mut self, bytes: &[u8]) -> Result<(), AllocError>
        ensures { OnOk result (self.new ≡ self.old ++ bytes.now) }
    {
        match &mut self.items {
            Items::Long(items) => items.extend_from_slice(bytes),
            Items::Short(short) => {
                if short.append(bytes) {
                    return Ok(());
                }
                let mut items = Vec::from_slice(self.alloc, short.as_slice())?;
                items.extend_from_slice(bytes)?;
                self.items = Items::Long(Box::new(self.alloc, items)?);
                Ok(())
            }
        }
    }

    pub fn as_slice(&self) -> &[u8]
        ensures { result.now ≡ self.now }
    {
        match &self.items {
            Items::Short(short) => short.as_slice(),
            Items::Long(items) => items.as_slice(),
        }
    }
}
