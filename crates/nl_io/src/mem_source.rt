ghost use Rattle.std.specs.Prelude.{◌≡◌, ◌<◌, ◌≤◌, [], length, take, drop, Some, IfOk, OnOk, OnErr, refl};
ghost use Rattle.std.proofs.Common.{◌∙◌};
ghost use Rattle.nl_io.specs.Count.{Rose};
ghost use Rattle.nl_io.specs.Scripts.{called, all_faults, CallSucceeds, FailsListed};

use crate::failed::Failed;
use crate::reading::MemReading;
use crate::script::{Faults, Script};
use crate::source::Source;
use std::alloc::{AllocError, Global};

/// A source of bytes in memory. Calls that are listed beforehand fail.
#[derive(Drop)]
pub struct MemSource {
    reading: MemReading,
    piece: usize,
    script: Script,
    faults: Faults,
    ghost moves: { 0 < piece },
    ghost fed: { faults.starved ≡ 0 },
}

impl MemSource {
    ghost use Rattle.nl_io.specs.MemSources.{source_left, source_failing, source_calls, source_piece, source_faults};

    /// A source of a copy of these bytes. One call moves at most `piece` bytes. `failing` lists the
    /// numbers, from 0, of the calls of [`Source`] that fail.
    pub fn make(
        alloc: Global,
        bytes: &[u8],
        piece: usize,
        failing: &[u64],
    ) -> Result<MemSource, AllocError>
        requires { 1 ≤ piece }
        ensures left { IfOk result (λ source. source_left source ≡ bytes.now) }
        ensures piece { IfOk result (λ source. source_piece source ≡ piece) }
        ensures failing { IfOk result (λ source. source_failing source ≡ failing.now) }
        ensures calls { IfOk result (λ source. source_calls source ≡ 0) }
        ensures faults { IfOk result (λ source. source_faults source ≡ record { listed = 0; starved = 0 }) }
    {
        let bytes = Vec::from_slice(alloc, bytes)?;
        let script = Script::make(alloc, failing)?;
        Ok(MemSource {
            reading: MemReading::new(bytes),
            piece,
            script,
            faults: Faults::NONE,
        })
    }

    /// How many calls failed for want of memory: none, since reading takes no memory.
    pub fn starved(&self) -> u64
        ensures counted { result ≡ (source_faults self.now).starved }
        ensures none { result ≡ 0 }
    {
        self.faults.starved()
    }
}

impl Source for MemSource {
    ghost use Rattle.nl_io.specs.MemSources.{source_left, source_script, source_faults, moves_into, IsSameSource};

    ghost left = { λ s. Some (source_left s) };

    ghost faults = { λ s. all_faults (source_faults s) };

    ghost rest = { IsSameSource };

    ghost rest_same = { λ a. (refl, refl) };

    ghost rest_then = { λ a b c first second. (second.0 ∙ first.0, second.1 ∙ first.1) };

    fn read(&mut self, into: &mut [u8]) -> Result<usize, Failed>
        ensures amount { IfOk result (λ n. n ≡ moves_into self.old (length into.old)) }
        ensures within { IfOk result (λ n. n ≤ length into.old) }
        ensures front { IfOk result (λ n. (n ≤ length (source_left self.old))
            × (take n into.new ≡ take n (source_left self.old))) }
        ensures moved { IfOk result (λ n. source_left self.new ≡ drop n (source_left self.old)) }
        ensures end { IfOk result (λ n. n ≡ 0 → 0 < length into.old → source_left self.old ≡ []) }
        ensures counted { OnOk result (all_faults (source_faults self.new) ≡ all_faults (source_faults self.old)) }
        ensures cause { OnErr result (Rose (all_faults (source_faults self.old))
            (all_faults (source_faults self.new))) }
        ensures err { OnErr result (source_left self.new ≡ source_left self.old) }
        ensures count { all_faults (source_faults self.old) ≤ all_faults (source_faults self.new) }
        ensures others { IsSameSource self.old self.new }

        // Which calls fail.
        ensures number { source_script self.new ≡ called (source_script self.old) }
        ensures passed { OnOk result (CallSucceeds (source_script self.old) (source_faults self.old)
            (source_faults self.new)) }
        ensures failed { OnErr result (FailsListed (source_script self.old) (source_faults self.old)
            (source_faults self.new)) }
    {
        if self.script.next_call() {
            return Err(self.faults.fail());
        }
        Ok(self.reading.take(self.piece, into))
    }
}
