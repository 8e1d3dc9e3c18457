ghost use Rattle.std.specs.Prelude.{◌≡◌, ◌+◌, ◌-◌, ◌<◌, ◌≤◌, ℕ, length, take, IfOk, IfSome, OnOk, OnErr, IsErrOf, vec_len};
ghost use Rattle.nl_io.specs.Count.{Rose};
ghost use Rattle.nl_io.specs.Content.{Told, without_front, IsFront, IsAtEnd, TakesFront};
ghost use Rattle.nl_io.specs.declared.source.ReadAllFault.TheVariants as faults;

use crate::failed::Failed;
use std::alloc::{AllocError, AllocFailed, Global};

/// Bytes that come from somewhere, in pieces.
pub trait Source {
    /// The bytes still to come.
    ghost left: { Self → Told };

    /// How many calls have failed.
    ghost faults: { Self → ℕ };

    /// All else that the object stands for, as a relation between two of its states.
    ghost rest: { Self → Self → Type 0 };

    /// Moves some of the bytes to the front of `into`, and answers how many. It answers 0 for a buffer
    /// with room only at the end.
    fn read(&mut self, into: &mut [u8]) -> Result<usize, Failed>
        ensures within { IfOk result (λ n. n ≤ length into.old) }
        ensures front { IfOk result (λ n. IsFront n (take n into.new) (left self.old)) }
        ensures moved { IfOk result (λ n. left self.new ≡ without_front n (left self.old)) }
        ensures end { IfOk result (λ n. n ≡ 0 → 0 < length into.old → IsAtEnd (left self.old)) }
        ensures counted { OnOk result (faults self.new ≡ faults self.old) }
        ensures cause { OnErr result (Rose (faults self.old) (faults self.new)) }
        ensures err { OnErr result (left self.new ≡ left self.old) }
        ensures count { faults self.old ≤ faults self.new }
        ensures others { rest self.old self.new };

    /// A state stands for the same as itself.
    ghost rest_same: { (a : Self) → rest a a };

    /// What stays in two calls stays in both together.
    ghost rest_then: { (a b c : Self) → rest a b → rest b c → rest a c };
}

/// How many bytes one call of a source is asked for.
const PIECE: usize = 65_536;

/// Why a source wasn't read to its end.
#[derive(Clone, Copy, Debug, PartialEq, Eq)]
pub enum ReadAllFault {
    /// The source failed.
    Failed,
    /// More bytes came than the limit allows.
    TooLarge,
    NoMemory,
}

impl From<Failed> for ReadAllFault {
    ghost from_gives = { λ _ e. e ≡ faults.Failed };

    fn from(_: Failed) -> ReadAllFault {
        ReadAllFault::Failed
    }
}

impl From<AllocError> for ReadAllFault {
    ghost from_gives = { λ _ e. e ≡ faults.NoMemory };

    fn from(_: AllocError) -> ReadAllFault {
        ReadAllFault::NoMemory
    }
}

impl<T: Drop> From<AllocFailed<T>> for ReadAllFault {
    ghost from_gives = { λ _ e. e ≡ faults.NoMemory };

    fn from(_: AllocFailed<T>) -> ReadAllFault {
        ReadAllFault::NoMemory
    }
}

/// All that is left of a source, where that is at most `limit` bytes. Where it is more, at most one piece more than the
/// limit is taken.
pub fn read_to_limit<S: Source>(
    alloc: Global,
    source: &mut S,
    limit: usize,
) -> Result<Vec<u8>, ReadAllFault>
    ensures all { IfOk result (λ bytes. IfSome (S.left source.old) (λ left. bytes.items ≡ left)) }
    ensures within { IfOk result (λ bytes. vec_len bytes ≤ limit) }
    ensures end { OnOk result (IsAtEnd (S.left source.new)) }
    ensures taken { IfOk result (λ bytes. S.left source.new ≡ without_front (vec_len bytes) (S.left source.old)) }
    ensures failed { IsErrOf result ReadAllFault.Failed → Rose (S.faults source.old) (S.faults source.new) }
    ensures failed_within { IsErrOf result ReadAllFault.Failed
        → TakesFront limit (S.left source.old) (S.left source.new) }
    ensures too_large { IsErrOf result ReadAllFault.TooLarge
        → IfSome (S.left source.old) (λ left. limit < length left) }
    ensures err { OnErr result (TakesFront (limit + PIECE) (S.left source.old) (S.left source.new)) }
    ensures counted { ¬ (IsErrOf result ReadAllFault.Failed) → S.faults source.new ≡ S.faults source.old }
    ensures count { S.faults source.old ≤ S.faults source.new }
    ensures others { S.rest source.old source.new }
{
    let mut bytes = Vec::new(alloc);
    let mut piece = [0u8; PIECE];
    while bytes.len() <= limit {
        let count = source.read(&mut piece)?;
        if count == 0 {
            return Ok(bytes);
        }
        bytes.extend_from_slice(&piece[..count])?;
    }
    Err(ReadAllFault::TooLarge)
}
