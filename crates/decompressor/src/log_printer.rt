//! Printing the lines of a log block by block.

ghost use Rattle.std.specs.Prelude.{◌≡◌, ◌⊎◌, ◌≤◌, [], replicate, Ok, IfOk, IfSome, IsErrOf, IsOkAnd, OnOk, OnErr, Err};
ghost use Rattle.nl_io.specs.Count.{Rose};
ghost use Rattle.nl_io.specs.Content.{IsAtEnd};
ghost use Rattle.checkpoint_io.specs.declared.cause.Cause.{Cause as LogCause};
ghost use Rattle.checkpoint_io.specs.declared.cause.Cause.TheVariants.{Cut};
ghost use Rattle.checkpoint_io.specs.Fronts.{Break};
ghost use Rattle.checkpoint_io.specs.Places.{TookSuch};
ghost use Rattle.stamp_merge.specs.Mergers.{fresh_list};
ghost use Rattle.decompressor.specs.Waiting.{no_queue};
ghost use Rattle.decompressor.specs.Decompressors.{IsStarted, CanStep, HasNext, HasRest, PrintsNext, PrintsRest, StepsFrom, IsLastStep};

use crate::clock_place::ClockPlace;
use crate::decompressing::open_writers;
use crate::fault::DecodeFault;
use crate::line_context::LineContext;
use crate::printing::print_ready;
use crate::queue::RecordQueue;
use crate::report::Report;
use crate::showing::{add_block, close_all};
use crate::step::Step;
use checkpoint_io::{Block, BlockFault, Reader};
use direct_printf::Origins;
use nl_io::{Sink, Source, TextWriter};
use stamp_merge::Merger;
use std::alloc::{AllocError, Global};
use std::marker::Model;

/// The lines of a log, which are printed block by block.
#[derive(Debug, Drop)]
pub struct LogPrinter {
    alloc: Global,
    reader: Reader,
    context: LineContext,
    merger: Merger,
    // Of each writer the records that weren't printed yet.
    waiting: Vec<RecordQueue>,
    lines: u64,
}

impl Model for LogPrinter {
    ghost use Rattle.direct_printf.specs.Lines.{AreFirstOrigins};
    ghost use Rattle.decompressor.specs.Decompressors.{PrinterState};

    ghost Value = { PrinterState };

    ghost view = { λ p. record {
      reader = p.reader;
      waiting = p.waiting.items;
      lists = p.merger;
      lines = p.lines;
    } };

    ghost invariant = { λ p. AreFirstOrigins p.context.origins p.reader.messages };
}

// A merger of so many lists, and as many queues.
fn without_records(alloc: Global, writers: u32) -> Result<(Merger, Vec<RecordQueue>), AllocError>
    ensures lists { IfOk result (λ parts. parts.0 ≡ replicate writers fresh_list) }
    ensures waiting { IfOk result (λ parts. parts.1.items ≡ replicate writers no_queue) }
{
    let mut waiting = Vec::new(alloc);
    for _ in 0..writers {
        waiting.push(RecordQueue::make(alloc))?;
    }
    Ok((Merger::make(alloc, writers)?, waiting))
}

impl LogPrinter {
    /// Reads the header that a source begins with.
    ///
    /// # Errors
    ///
    /// The source begins with no header, a read failed before its end, or there is no memory.
    pub fn make<S: Source>(alloc: Global, source: &mut S) -> Result<LogPrinter, BlockFault>
        // Nothing was printed, and no blocks were read.
        ensures ok { IfOk result (λ made. IsStarted made (S.left source.old) (S.left source.new)) }
        ensures damaged { (cause : LogCause) → result ≡ Err (BlockFault.Damaged cause)
            → IfSome (S.left source.old) (λ bytes. Break bytes 0 cause) }
        // The bytes that were taken end inside the header.
        ensures cut { IsErrOf result BlockFault.ReadFault
            → TookSuch (λ bytes. Break bytes 0 Cut) (S.left source.old) (S.left source.new) }
        ensures read_fault { IsErrOf result BlockFault.ReadFault
            → Rose (S.faults source.old) (S.faults source.new) }
        ensures counted { ¬ (IsErrOf result BlockFault.ReadFault)
            → S.faults source.new ≡ S.faults source.old }
        ensures count { S.faults source.old ≤ S.faults source.new }
        ensures others { S.rest source.old source.new }
    {
        let reader = Reader::start(alloc, source)?;
        match without_records(alloc, reader.header().writers) {
            Ok((merger, waiting)) => Ok(LogPrinter {
                alloc,
                reader,
                context: LineContext {
                    origins: Origins::make(alloc),
                    place: ClockPlace::first(),
                },
                merger,
                waiting,
                lines: 0,
            }),
            Err(AllocError) => Err(BlockFault::NoMemory),
        }
    }

    // Takes a block that was read, and prints the lines of the records that are settled now.
    fn take_block<K: Sink>(
        &mut self,
        block: Block,
        text_writer: &mut TextWriter,
        out: &mut K,
    ) -> Result<(), DecodeFault>
        requires next { HasNext self.old block }
        requires held { text_writer.old ≡ [] }
        ensures printed { PrintsNext self.old self.new block (K.put out.old) (K.put out.new)
            (K.faults out.old) (K.faults out.new) result }
        ensures write_fault { IsErrOf result DecodeFault.WriteFault → Rose (K.faults out.old) (K.faults out.new) }
        ensures written { ¬ (IsErrOf result DecodeFault.WriteFault) → K.faults out.new ≡ K.faults out.old }
        ensures count { K.faults out.old ≤ K.faults out.new }
        ensures fault { OnErr result (IsErrOf result DecodeFault.WriteFault ⊎ IsErrOf result DecodeFault.NoMemory) }
        ensures held { OnOk result (text_writer.new ≡ []) }
        ensures reader { self.new.reader ≡ self.old.reader }
        ensures others { K.rest out.old out.new }
    {
        add_block(&mut self.merger, &mut self.waiting, &self.reader, block)?;
        self.lines += print_ready(
            self.alloc,
            &self.reader,
            &mut self.context,
            false,
            &mut self.merger,
            &mut self.waiting,
            text_writer,
            out,
        )?;
        Ok(())
    }

    // Prints the lines of all records that wait.
    fn print_rest<K: Sink>(
        &mut self,
        text_writer: &mut TextWriter,
        out: &mut K,
    ) -> Result<(), DecodeFault>
        requires last { HasRest self.old }
        requires held { text_writer.old ≡ [] }
        ensures printed { PrintsRest self.old self.new (K.put out.old) (K.put out.new)
            (K.faults out.old) (K.faults out.new) result }
        ensures write_fault { IsErrOf result DecodeFault.WriteFault → Rose (K.faults out.old) (K.faults out.new) }
        ensures written { ¬ (IsErrOf result DecodeFault.WriteFault) → K.faults out.new ≡ K.faults out.old }
        ensures count { K.faults out.old ≤ K.faults out.new }
        ensures fault { OnErr result (IsErrOf result DecodeFault.WriteFault ⊎ IsErrOf result DecodeFault.NoMemory) }
        ensures reader { self.new.reader ≡ self.old.reader }
        ensures others { K.rest out.old out.new }
    {
        close_all(&mut self.merger, &self.waiting);
        self.lines += print_ready(
            self.alloc,
            &self.reader,
            &mut self.context,
            true,
            &mut self.merger,
            &mut self.waiting,
            text_writer,
            out,
        )?;
        Ok(())
    }

    /// Reads the next block, and prints all lines before which no later one can stand. Where the log has ended, or
    /// breaks there, these are all lines that are left. The text writer has room for the text of a write.
    ///
    /// # Errors
    ///
    /// The log is damaged there, a read or a write failed, or there is no memory.
    #[tactic(auto, using(direct_printf::proofs::lemmas::Origins::first_of_more))]
    pub fn step<S: Source, K: Sink>(
        &mut self,
        source: &mut S,
        text_writer: &mut TextWriter,
        out: &mut K,
    ) -> Result<Step, DecodeFault>
        requires printed { CanStep self.old }
        requires held { text_writer.old ≡ [] }
        // What was printed, and what the answer says of the bytes that stand behind those that were taken. No more than
        // one block of them is read.
        ensures step { StepsFrom self.old self.new (S.left source.old) (S.left source.new)
            (S.faults source.old) (S.faults source.new) (K.put out.old) (K.put out.new) result }
        ensures end { IsOkAnd result IsLastStep → IsAtEnd (S.left source.new) }

        // A write fault is one of this call, and no other answer hides one.
        ensures write_fault { IsErrOf result DecodeFault.WriteFault → Rose (K.faults out.old) (K.faults out.new) }
        ensures written { ¬ (IsErrOf result DecodeFault.WriteFault) → K.faults out.new ≡ K.faults out.old }

        // So is a read fault. A write fault and want of memory may come after it, and nothing else hides one.
        ensures read_fault { IsErrOf result DecodeFault.ReadFault → Rose (S.faults source.old) (S.faults source.new) }
        ensures read { ¬ (IsErrOf result DecodeFault.ReadFault) → ¬ (IsErrOf result DecodeFault.WriteFault)
            → ¬ (IsErrOf result DecodeFault.NoMemory) → S.faults source.new ≡ S.faults source.old }
        ensures out_count { K.faults out.old ≤ K.faults out.new }
        ensures source_count { S.faults source.old ≤ S.faults source.new }

        ensures held { result ≡ Ok Step.More → text_writer.new ≡ [] }

        // All else is as it was.
        ensures out_others { K.rest out.old out.new }
        ensures source_others { S.rest source.old source.new }
    {
        match self.reader.next_block(source) {
            Ok(Some(block)) => {
                self.take_block(block, text_writer, out)?;
                Ok(Step::More)
            }
            Ok(None) => {
                self.print_rest(text_writer, out)?;
                Ok(Step::End(Report {
                    lines: self.lines,
                    unclosed: open_writers(self.alloc, &self.reader)?,
                }))
            }
            Err(BlockFault::Damaged(cause)) => {
                self.print_rest(text_writer, out)?;
                Err(DecodeFault::Damaged {
                    offset: self.reader.offset(),
                    cause,
                })
            }
            Err(BlockFault::ReadFault) => {
                self.print_rest(text_writer, out)?;
                Err(DecodeFault::ReadFault)
            }
            Err(BlockFault::NoMemory) => Err(DecodeFault::NoMemory),
        }
    }
}
