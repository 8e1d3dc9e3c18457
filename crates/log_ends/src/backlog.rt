//! Bytes that are held back until a caller has room for them.

ghost use Rattle.std.specs.Prelude.{◌≡◌, ◌<◌, ◌≤◌, ◌+◌, ◌^◌, ◌↔◌, [], length, vec_len, IsTrue, IfOk};

use log_dictionary::put;
use nl_io::{Failed, Sink};
use std::alloc::{AllocError, Global};

/// A sink of bytes that a caller takes away. All its memory is taken when it is made, and all of it is free again once
/// nothing waits.
#[derive(Drop)]
pub(crate) struct Backlog {
    room: Vec<u8>,
    /// Up to which place the room is filled.
    end: usize,
    /// Up to which place the bytes were given.
    given: usize,
    /// How often it was to take bytes and had no room.
    refused: u64,
    ghost within: { (given ≤ end) × (end ≤ vec_len room) },
    ghost freed: { given ≡ end → end ≡ 0 },
    ghost filled: { 1 ≤ refused → end ≡ vec_len room },
}

impl Backlog {
    ghost use Rattle.log_ends.specs.Backlogs.{held_back, room_len, GivesBacklog};

    /// An empty one, with room for so many bytes.
    pub(crate) fn make(alloc: Global, room: usize) -> Result<Backlog, AllocError>
        ensures empty { IfOk result (λ backlog. held_back backlog ≡ []) }
        ensures unrefused { IfOk result (λ backlog. backlog.refused ≡ 0) }
        ensures room { IfOk result (λ backlog. room_len backlog ≡ room) }
    {
        Ok(Backlog {
            room: Vec::from_elem(alloc, 0, room)?,
            end: 0,
            given: 0,
            refused: 0,
        })
    }

    /// Whether all bytes were given.
    pub(crate) fn is_empty(&self) -> bool
        ensures { IsTrue result ↔ (held_back self.now ≡ []) }
    {
        self.given == self.end
    }

    /// Gives as many bytes as there are, and as fit.
    pub(crate) fn give(&mut self, into: &mut [u8]) -> usize
        ensures gives { GivesBacklog self.old into.old result self.new into.new }
        ensures bound { result < 2 ^ 63 }
    {
        let count = into.len().min(self.end - self.given);
        let given = self.given + count;
        put(into, 0, &self.room[self.given..given]);
        if given == self.end {
            self.end = 0;
            self.given = 0;
            self.refused = 0;
        } else {
            self.given = given;
        }
        count
    }
}

impl Sink for Backlog {
    ghost use Rattle.std.specs.Prelude.{Some, refl};
    ghost use Rattle.std.proofs.Common.{◌∙◌};
    ghost use Rattle.log_ends.specs.Backlogs.{held_back, IsSameRoom};

    ghost put = { λ s. Some (held_back s) };

    ghost faults = { λ s. s.refused };

    ghost rest = { IsSameRoom };

    ghost rest_same = { λ a. record { room = refl; given = refl } };

    ghost rest_then = { λ a b c first second. record {
      room = second.room ∙ first.room;
      given = second.given ∙ first.given;
    } };

    fn write(&mut self, bytes: &[u8]) -> Result<usize, Failed> {
        let room = self.room.len() - self.end;
        if room == 0 && !bytes.is_empty() {
            self.refused = self.refused.saturating_add(1);
            return Err(Failed);
        }
        let count = room.min(bytes.len());
        self.end = put(&mut self.room, self.end, &bytes[..count]);
        Ok(count)
    }
}
