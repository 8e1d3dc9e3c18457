//! A few bytes that lie where their owner does.

ghost use Rattle.std.specs.Prelude.{◌≡◌, ◌+◌, ◌≤◌, ◌↔◌, ◌++◌, [], length, IsTrue, true, false};
ghost use Rattle.printf_grammar.specs.declared.short_bytes.TheConstants.{SHORT};

use std::marker::Model;

/// So many bytes have room beside their number and the tag of an enum in 16 bytes.
pub(crate) const SHORT: usize = 14;

/// At most [`SHORT`] bytes.
#[derive(Debug, Drop)]
pub(crate) struct ShortBytes {
    len: u8,
    items: [u8; SHORT],
}

impl Model for ShortBytes {
    ghost use Rattle.std.specs.Prelude.{List, ℕ, take, ◌≤◌};
    ghost use Rattle.printf_grammar.specs.declared.short_bytes.TheConstants.{SHORT};

    ghost Value = { List ℕ };

    ghost view = { λ bytes. take bytes.len bytes.items };

    ghost invariant = { λ bytes. bytes.len ≤ SHORT };
}

impl ShortBytes {
    /// No bytes.
    pub(crate) fn none() -> ShortBytes
        ensures { result ≡ [] }
    {
        ShortBytes {
            len: 0,
            items: [0; SHORT],
        }
    }

    /// Appends the bytes, where there is room for all of them, and answers whether there was.
    pub(crate) fn append(&mut self, more: &[u8]) -> bool
        ensures room { IsTrue result ↔ (length self.old + length more.now ≤ SHORT) }
        ensures added { result ≡ true → self.new ≡ self.old ++ more.now }
        ensures unchanged { result ≡ false → self.new ≡ self.old }
    {
        let start = self.len as usize;
        if more.len() > SHORT - start {
            return false;
        }
        let end = start + more.len();
        self.items[start..end].copy_from_slice(more);
        self.len = end as u8;
        true
    }

    pub(crate) fn as_slice(&self) -> &[u8]
        ensures { result.now ≡ self.now }
    {
        &self.items[..self.len as usize]
    }
}
