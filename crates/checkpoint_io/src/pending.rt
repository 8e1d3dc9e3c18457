//! Bytes that came from a source and weren't read yet.

ghost use Rattle.std.specs.Prelude.{◌≡◌, ◌≤◌, [], length, drop, true, false, ◌+◌, ◌<◌, IfOk, IfErr, OnOk, IsErrOf};
ghost use Rattle.nl_io.specs.Count.{Rose};
ghost use Rattle.nl_io.specs.Content.{IsAtEnd};
ghost use Rattle.nibble_pack.specs.Bytes.{AreBytes};
ghost use Rattle.checkpoint_io.specs.Places.{further, with_front, log_place, IsNoDamage, TookFewer};

use crate::fault::BlockFault;
use nl_io::Source;
use std::alloc::Global;
use std::marker::Model;

/// How many bytes one call of a source is asked for.
const PIECE: usize = 65_536;

/// Bytes that came from a source and weren't read yet, and the offset of the first of them.
#[derive(Debug, Drop)]
pub struct Pending {
    bytes: Vec<u8>,
    start: usize,
    offset: u64,
}

impl Model for Pending {
    ghost use Rattle.std.specs.Prelude.{◌≤◌, length, drop};
    ghost use Rattle.checkpoint_io.specs.Places.{UnreadBytes};

    ghost Value = { UnreadBytes };

    ghost view = { λ p. record { bytes = drop p.start p.bytes.items; offset = p.offset } };

    ghost invariant = { λ p. p.start ≤ length p.bytes.items };
}

// Leaves out the first bytes. Where that is none, the others aren't moved.
fn drop_front(bytes: &mut Vec<u8>, count: usize)
    requires { count ≤ length bytes.old.items }
    ensures { bytes.new.items ≡ drop count bytes.old.items }
{
    if count > 0 {
        bytes.drain(..count);
    }
}

impl Pending {
    /// No bytes, at the front of a file.
    pub fn none(alloc: Global) -> Pending
        ensures bytes { result.bytes ≡ [] }
        ensures offset { result.offset ≡ 0 }
    {
        Pending {
            bytes: Vec::new(alloc),
            start: 0,
            offset: 0,
        }
    }

    /// The bytes.
    pub fn bytes(&self) -> &[u8]
        ensures same { result.now ≡ self.now.bytes }
        ensures small { AreBytes result.now }
    {
        let all = self.bytes.as_slice();
        &all[self.start..]
    }

    /// The offset of the first of them.
    pub fn offset(&self) -> u64
        ensures { result ≡ self.now.offset }
    {
        self.offset
    }

    /// Leaves out the first ones, which were read.
    pub fn skip(&mut self, count: usize)
        requires { count ≤ length self.old.bytes }
        ensures bytes { self.new.bytes ≡ drop count self.old.bytes }
        ensures offset { self.new.offset ≡ further self.old.offset count }
    {
        self.start += count;
        self.offset = self.offset.saturating_add(count as u64);
    }

    /// Takes more bytes from the source, and tells how many: none at its end.
    pub fn more<S: Source>(&mut self, source: &mut S) -> Result<usize, BlockFault>
        ensures same { OnOk result (with_front self.new.bytes (S.left source.new)
            ≡ with_front self.old.bytes (S.left source.old)) }
        ensures len { IfOk result (λ count. length self.new.bytes ≡ length self.old.bytes + count) }
        ensures end { IfOk result (λ count. count ≡ 0 → IsAtEnd (S.left source.new)) }
        ensures offset { self.new.offset ≡ self.old.offset }
        ensures sound { IfErr result IsNoDamage }
        ensures failed { IsErrOf result BlockFault.ReadFault → S.left source.new ≡ S.left source.old }
        ensures read_fault { IsErrOf result BlockFault.ReadFault
            → Rose (S.faults source.old) (S.faults source.new) }
        ensures counted { ¬ (IsErrOf result BlockFault.ReadFault)
            → S.faults source.new ≡ S.faults source.old }
        ensures count { S.faults source.old ≤ S.faults source.new }
        ensures others { S.rest source.old source.new }
    {
        let mut piece = [0u8; PIECE];
        let Ok(count) = source.read(&mut piece) else {
            return Err(BlockFault::ReadFault);
        };
        // The bytes that wait are moved to the front only where more come, and not at each step.
        drop_front(&mut self.bytes, self.start);
        self.start = 0;
        let Ok(()) = self.bytes.extend_from_slice(&piece[..count]) else {
            return Err(BlockFault::NoMemory);
        };
        Ok(count)
    }

    /// Takes bytes from the source until so many are there, and tells whether they are: else it was
    /// read to its end.
    pub fn fill<S: Source>(&mut self, source: &mut S, want: usize) -> Result<bool, BlockFault>
        ensures same { OnOk result (with_front self.new.bytes (S.left source.new)
            ≡ with_front self.old.bytes (S.left source.old)) }
        ensures enough { IfOk result (λ enough. enough ≡ true → want ≤ length self.new.bytes) }
        ensures short { IfOk result (λ enough. enough ≡ false → length self.new.bytes < want) }
        ensures end { IfOk result (λ enough. enough ≡ false → IsAtEnd (S.left source.new)) }
        ensures offset { self.new.offset ≡ self.old.offset }
        ensures sound { IfErr result IsNoDamage }
        ensures fewer { IsErrOf result BlockFault.ReadFault
            → TookFewer want (log_place self.old (S.left source.old)) (S.left source.new) }
        ensures read_fault { IsErrOf result BlockFault.ReadFault
            → Rose (S.faults source.old) (S.faults source.new) }
        ensures counted { ¬ (IsErrOf result BlockFault.ReadFault)
            → S.faults source.new ≡ S.faults source.old }
        ensures count { S.faults source.old ≤ S.faults source.new }
        ensures others { S.rest source.old source.new }
    {
        while self.bytes().len() < want {
            if self.more(source)? == 0 {
                return Ok(false);
            }
        }
        Ok(true)
    }
}
