ghost use Rattle.std.specs.Prelude.{◌≡◌, ◌<◌, ◌≤◌, ◌++◌, ◌⊎◌, [], min, length, take, Some, IfOk, OnOk, OnErr, refl};
ghost use Rattle.std.proofs.Common.{◌∙◌};
ghost use Rattle.nl_io.specs.Count.{Rose};
ghost use Rattle.nl_io.specs.Scripts.{called, all_faults, CallSucceeds, FailsListed, Starves};

use crate::failed::Failed;
use crate::script::{Faults, Script};
use crate::sink::Sink;
use std::alloc::{AllocError, Global};

/// A sink that keeps its bytes in memory. Calls that are listed beforehand fail.
#[derive(Drop)]
pub struct MemSink {
    bytes: Vec<u8>,
    piece: usize,
    script: Script,
    faults: Faults,
    ghost moves: { 0 < piece },
}

impl MemSink {
    ghost use Rattle.nl_io.specs.MemSinks.{sink_bytes, sink_failing, sink_calls, sink_piece, sink_faults};

    /// An empty sink. One call takes at most `piece` bytes. `failing` lists the numbers, from 0, of
    /// the calls of [`Sink`] that fail.
    pub fn make(alloc: Global, piece: usize, failing: &[u64]) -> Result<MemSink, AllocError>
        requires { 1 ≤ piece }
        ensures empty { IfOk result (λ sink. sink_bytes sink ≡ []) }
        ensures piece { IfOk result (λ sink. sink_piece sink ≡ piece) }
        ensures failing { IfOk result (λ sink. sink_failing sink ≡ failing.now) }
        ensures calls { IfOk result (λ sink. sink_calls sink ≡ 0) }
        ensures faults { IfOk result (λ sink. sink_faults sink ≡ record { listed = 0; starved = 0 }) }
    {
        let script = Script::make(alloc, failing)?;
        Ok(MemSink {
            bytes: Vec::new(alloc),
            piece,
            script,
            faults: Faults::NONE,
        })
    }

    /// The bytes taken so far.
    pub fn bytes(&self) -> &[u8]
        ensures { result.now ≡ sink_bytes self.now }
    {
        self.bytes.as_slice()
    }

    /// How many calls failed for want of memory.
    pub fn starved(&self) -> u64
        ensures { result ≡ (sink_faults self.now).starved }
    {
        self.faults.starved()
    }
}

impl Sink for MemSink {
    ghost use Rattle.nl_io.specs.MemSinks.{sink_bytes, sink_piece, sink_script, sink_faults, IsSameSink};

    ghost put = { λ s. Some (sink_bytes s) };

    ghost faults = { λ s. all_faults (sink_faults s) };

    ghost rest = { IsSameSink };

    ghost rest_same = { λ a. (refl, refl) };

    ghost rest_then = { λ a b c first second. (second.0 ∙ first.0, second.1 ∙ first.1) };

    fn write(&mut self, bytes: &[u8]) -> Result<usize, Failed>
        ensures amount { IfOk result (λ n. n ≡ min (sink_piece self.old) (length bytes.now)) }
        ensures within { IfOk result (λ n. n ≤ length bytes.now) }
        ensures some { IfOk result (λ n. 0 < length bytes.now → 0 < n) }
        ensures taken { IfOk result (λ n. sink_bytes self.new ≡ sink_bytes self.old ++ take n bytes.now) }
        ensures counted { OnOk result (all_faults (sink_faults self.new) ≡ all_faults (sink_faults self.old)) }
        ensures cause { OnErr result (Rose (all_faults (sink_faults self.old)) (all_faults (sink_faults self.new))) }
        ensures err { OnErr result (sink_bytes self.new ≡ sink_bytes self.old) }
        ensures count { all_faults (sink_faults self.old) ≤ all_faults (sink_faults self.new) }
        ensures others { IsSameSink self.old self.new }

        // Which calls fail.
        ensures number { sink_script self.new ≡ called (sink_script self.old) }
        ensures passed { OnOk result (CallSucceeds (sink_script self.old) (sink_faults self.old)
            (sink_faults self.new)) }
        ensures failed { OnErr result (FailsListed (sink_script self.old) (sink_faults self.old) (sink_faults self.new)
            ⊎ Starves (sink_script self.old) (sink_faults self.old) (sink_faults self.new)) }
    {
        if self.script.next_call() {
            return Err(self.faults.fail());
        }
        let count = self.piece.min(bytes.len());
        match self.bytes.extend_from_slice(&bytes[..count]) {
            Ok(()) => Ok(count),
            Err(_) => Err(self.faults.starve()),
        }
    }
}
