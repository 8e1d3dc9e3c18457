//! Decompressing a log block by block.

ghost use Rattle.std.specs.Prelude.{◌≡◌, ◌≤◌, false, true, Ok, IfOk, IfSome, IsErrOf, IsOkAnd, Err};
ghost use Rattle.nl_io.specs.Count.{Rose};
ghost use Rattle.nl_io.specs.Content.{IsAtEnd};
ghost use Rattle.checkpoint_io.specs.declared.cause.Cause.{Cause as LogCause};
ghost use Rattle.checkpoint_io.specs.declared.cause.Cause.TheVariants.{Cut};
ghost use Rattle.checkpoint_io.specs.Fronts.{Break};
ghost use Rattle.checkpoint_io.specs.Places.{TookSuch};
ghost use Rattle.decompressor.specs.Decompressors.{IsStarted, StepsFrom, IsLastStep};

use crate::fault::DecodeFault;
use crate::log_printer::LogPrinter;
use crate::step::Step;
use checkpoint_io::BlockFault;
use nl_io::{Sink, Source, TextWriter};
use std::alloc::Global;
use std::marker::Model;

/// A log that is decompressed block by block. It keeps no source and no sink: each step reads at most one block, and
/// prints all lines before which no later one can stand. Memory is taken for the other records, and for the text of a
/// write.
#[derive(Debug, Drop)]
pub struct Decompressor {
    printer: LogPrinter,
    ended: bool,
}

impl Model for Decompressor {
    ghost use Rattle.std.specs.Prelude.{◌≡◌, false};
    ghost use Rattle.decompressor.specs.Decompressors.{DecompressorState, CanStep};

    ghost Value = { DecompressorState };

    ghost view = { λ d. record {
      printer = d.printer;
      ended = d.ended;
    } };

    ghost invariant = { λ d. d.ended ≡ false → CanStep d.printer };
}

impl Decompressor {
    /// Reads the header that a source begins with.
    ///
    /// # Errors
    ///
    /// The source begins with no header, a read failed before its end, or there is no memory.
    pub fn make<S: Source>(alloc: Global, source: &mut S) -> Result<Decompressor, BlockFault>
        // Nothing was printed, and no blocks were read.
        ensures ok { IfOk result (λ made. IsStarted made.printer (S.left source.old) (S.left source.new)) }
        ensures ended { IfOk result (λ made. made.ended ≡ false) }
        ensures damaged { (cause : LogCause) → result ≡ Err (BlockFault.Damaged cause)
            → IfSome (S.left source.old) (λ bytes. Break bytes 0 cause) }
        // The bytes that were taken end inside the header.
        ensures cut { IsErrOf result BlockFault.ReadFault
            → TookSuch (λ bytes. Break bytes 0 Cut) (S.left source.old) (S.left source.new) }
        ensures read_fault { IsErrOf result BlockFault.ReadFault
            → Rose (S.faults source.old) (S.faults source.new) }
        ensures counted { ¬ (IsErrOf result BlockFault.ReadFault)
            → S.faults source.new ≡ S.faults source.old }
        ensures count { S.faults source.old ≤ S.faults source.new }
        ensures others { S.rest source.old source.new }
    {
        let printer = LogPrinter::make(alloc, source)?;
        Ok(Decompressor {
            printer,
            ended: false,
        })
    }

    /// Reads the next block, and prints all lines before which no later one can stand. Where none stands there, the log
    /// has ended, and these are all lines that are left.
    ///
    /// # Errors
    ///
    /// `Damaged` comes after the lines of all whole blocks in front of the damage, which begins where the next block
    /// does, and `ReadFault` after those of the whole blocks that were read. Where a write fails that is answered, also
    /// of a damaged file or after a failed read: a front of these lines went out. So it is where there is no memory.
    /// The decompressor has ended then.
    pub fn step<S: Source, K: Sink>(
        &mut self,
        source: &mut S,
        out: &mut K,
    ) -> Result<Step, DecodeFault>
        requires { self.old.ended ≡ false }
        // What was printed, and what the answer says of the bytes that stand behind those that were taken. No more than
        // one block of them is read.
        ensures step { StepsFrom self.old.printer self.new.printer (S.left source.old) (S.left source.new)
            (S.faults source.old) (S.faults source.new) (K.put out.old) (K.put out.new) result }
        ensures more { result ≡ Ok Step.More → self.new.ended ≡ false }
        ensures ended { ¬ (result ≡ Ok Step.More) → self.new.ended ≡ true }
        ensures end { IsOkAnd result IsLastStep → IsAtEnd (S.left source.new) }

        // A write fault is one of this call, and no other answer hides one.
        ensures write_fault { IsErrOf result DecodeFault.WriteFault → Rose (K.faults out.old) (K.faults out.new) }
        ensures written { ¬ (IsErrOf result DecodeFault.WriteFault) → K.faults out.new ≡ K.faults out.old }

        // So is a read fault. A write fault and want of memory may come after it, and nothing else hides one.
        ensures read_fault { IsErrOf result DecodeFault.ReadFault → Rose (S.faults source.old) (S.faults source.new) }
        ensures read { ¬ (IsErrOf result DecodeFault.ReadFault) → ¬ (IsErrOf result DecodeFault.WriteFault)
            → ¬ (IsErrOf result DecodeFault.NoMemory) → S.faults source.new ≡ S.faults source.old }
        ensures out_count { K.faults out.old ≤ K.faults out.new }
        ensures source_count { S.faults source.old ≤ S.faults source.new }

        // All else is as it was.
        ensures out_others { K.rest out.old out.new }
        ensures source_others { S.rest source.old source.new }
    {
        match self.printer.step(source, &mut TextWriter::make(), out) {
            Ok(Step::More) => Ok(Step::More),
            Ok(Step::End(report)) => {
                self.ended = true;
                Ok(Step::End(report))
            }
            Err(fault) => {
                self.ended = true;
                Err(fault)
            }
        }
    }

    /// Whether the log has ended, or a step failed, so that no step is left.
    pub fn ended(&self) -> bool
        ensures { result ≡ self.now.ended }
    {
        self.ended
    }
}
