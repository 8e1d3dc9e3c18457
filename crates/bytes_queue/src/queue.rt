//! Byte strings that wait, in order.

ghost use Rattle.std.specs.Prelude.{◌≡◌, ◌^◌, ◌<◌, ◌↔◌, [], ◌∷◌, ◌++◌, length, drop, slice_get, All, Some, IfSome, IsNone, IsTrue, OnOk, OnErr};

use crate::chunk::Chunk;
use std::alloc::{AllocError, Global};
use std::collections::VecDeque;
use std::marker::Model;

/// Byte strings that wait, in order. They stand one behind another in pieces of memory that each hold many of them; a
/// piece is given back with its last one.
#[derive(Debug, Drop)]
pub struct BytesQueue {
    // None of them is empty.
    chunks: VecDeque<Chunk>,
    alloc: Global,
}

impl Model for BytesQueue {
    ghost use Rattle.std.specs.Prelude.{◌≢◌, ℕ, List, []};
    ghost use Rattle.std.specs.List.{flat_map, AllByRecursion};

    ghost Value = { List (List ℕ) };

    ghost view = { λ q. flat_map (λ chunk. chunk) q.chunks.items };

    ghost invariant = { λ q. AllByRecursion (λ chunk. chunk ≢ []) q.chunks.items };
}

impl BytesQueue {
    /// No byte strings.
    pub fn make(alloc: Global) -> BytesQueue
        ensures { result ≡ [] }
    {
        BytesQueue {
            chunks: VecDeque::new(alloc),
            alloc,
        }
    }

    /// Adds bytes at the end; on an error nothing changed.
    pub fn push(&mut self, bytes: &[u8]) -> Result<(), AllocError>
        requires { length bytes.now < 2 ^ 32 }
        ensures ok { OnOk result (self.new ≡ self.old ++ bytes.now ∷ []) }
        ensures err { OnErr result (self.new ≡ self.old) }
    {
        if let Some(last) = self.chunks.back_mut()
            && last.has_room(bytes.len())
        {
            return last.push(bytes);
        }
        self.push_chunk(bytes)
    }

    /// Adds bytes at the end, in a chunk of their own.
    fn push_chunk(&mut self, bytes: &[u8]) -> Result<(), AllocError>
        requires { length bytes.now < 2 ^ 32 }
        ensures ok { OnOk result (self.new ≡ self.old ++ bytes.now ∷ []) }
        ensures err { OnErr result (self.new ≡ self.old) }
    {
        let mut chunk = Chunk::with_room(self.alloc, bytes.len())?;
        chunk.push(bytes)?;
        self.chunks.push_back(chunk)?;
        Ok(())
    }

    /// Whether there are none.
    pub fn is_empty(&self) -> bool
        ensures { IsTrue result ↔ (self.now ≡ []) }
    {
        self.chunks.is_empty()
    }

    /// The first byte string.
    pub fn first(&self) -> Option<&[u8]>
        ensures some { IfSome result (λ first. slice_get self.now 0 ≡ Some first.now) }
        ensures small { IfSome result (λ first. All (λ byte. byte < 256) first.now) }
        ensures none { IsNone result ↔ (self.now ≡ []) }
    {
        self.chunks.front()?.first()
    }

    /// Takes the first byte string, if there is one.
    pub fn remove_first(&mut self)
        ensures { self.new ≡ drop 1 self.old }
    {
        let Some(first) = self.chunks.front_mut() else {
            return;
        };
        first.remove_first();
        if first.is_empty() {
            self.chunks.pop_front();
        }
    }
}
