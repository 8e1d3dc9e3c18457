//! A piece of memory that holds byte strings, one behind another.

ghost use Rattle.std.specs.Prelude.{◌≡◌, ◌^◌, ◌<◌, ◌↔◌, [], ◌∷◌, ◌++◌, length, drop, slice_get, All, Some, IfOk, IfSome, IsNone, IsTrue, OnOk, OnErr};

use std::alloc::{AllocError, Global};
use std::marker::Model;

/// How many bytes a chunk has room for, where no string is longer: many short strings share a chunk, and few bytes wait
/// for its last string to go.
const CHUNK: usize = 4_096;

/// Byte strings that stand one behind another.
#[derive(Debug, Drop)]
pub(crate) struct Chunk {
    bytes: Vec<u8>,
    // The length of each string.
    lens: Vec<u32>,
    // The first string that is left begins at `start` in `bytes`, and its length is at `next` in `lens`.
    start: usize,
    next: usize,
}

impl Model for Chunk {
    ghost use Rattle.std.specs.Prelude.{◌≡◌, ℕ, ◌+◌, ◌≤◌, List, length, drop};
    ghost use Rattle.bytes_queue.specs.Splitting.{split, total};

    ghost Value = { List (List ℕ) };

    ghost view = { λ c. split (drop c.next c.lens.items) (drop c.start c.bytes.items) };

    ghost invariant = { λ c. (c.next ≤ length c.lens.items)
        × (c.start + total (drop c.next c.lens.items) ≡ length c.bytes.items) };
}

impl Chunk {
    /// No strings, and room for one of this length.
    pub(crate) fn with_room(alloc: Global, len: usize) -> Result<Chunk, AllocError>
        ensures { IfOk result (λ chunk. chunk ≡ []) }
    {
        Ok(Chunk {
            bytes: Vec::with_capacity(alloc, len.max(CHUNK))?,
            lens: Vec::new(alloc),
            start: 0,
            next: 0,
        })
    }

    /// Whether a string of this length fits into the memory that is there.
    pub(crate) fn has_room(&self, len: usize) -> bool {
        len <= self.bytes.capacity() - self.bytes.len()
    }

    /// Adds a string at the end; on an error nothing changed.
    pub(crate) fn push(&mut self, bytes: &[u8]) -> Result<(), AllocError>
        requires { length bytes.now < 2 ^ 32 }
        ensures ok { OnOk result (self.new ≡ self.old ++ bytes.now ∷ []) }
        ensures err { OnErr result (self.new ≡ self.old) }
    {
        self.lens.reserve(1)?;
        self.bytes.extend_from_slice(bytes)?;
        self.lens.push_reserved(bytes.len() as u32);
        Ok(())
    }

    /// Whether no string is left.
    pub(crate) fn is_empty(&self) -> bool
        ensures { IsTrue result ↔ (self.now ≡ []) }
    {
        self.next == self.lens.len()
    }

    /// The first string that is left.
    pub(crate) fn first(&self) -> Option<&[u8]>
        ensures some { IfSome result (λ first. slice_get self.now 0 ≡ Some first.now) }
        ensures small { IfSome result (λ first. All (λ byte. byte < 256) first.now) }
        ensures none { IsNone result ↔ (self.now ≡ []) }
    {
        let len = *self.lens.get(self.next)? as usize;
        let bytes = self.bytes.as_slice();
        Some(&bytes[self.start..self.start + len])
    }

    /// Takes the first string, if one is left.
    pub(crate) fn remove_first(&mut self)
        ensures { self.new ≡ drop 1 self.old }
    {
        if self.next < self.lens.len() {
            self.start += self.lens[self.next] as usize;
            self.next += 1;
        }
    }
}
