//! Decompressing a whole log.

ghost use Rattle.std.specs.Prelude.{◌≡◌, ◌↔◌, ◌≤◌, ℕ, List, IsErrOf, IfOk, OnOk};
ghost use Rattle.nl_io.specs.Count.{Rose};
ghost use Rattle.nl_io.specs.Content.{IsAtEnd};
ghost use Rattle.checkpoint_io.specs.Readers.{StandsFor};
ghost use Rattle.decompressor.specs.Settling.{open_writers as open_writers_of};
ghost use Rattle.decompressor.specs.Decompressing.{header_fault as header_fault_of, Decompresses};

use crate::fault::DecodeFault;
use crate::log_printer::LogPrinter;
use crate::numbers::Numbers;
use crate::report::Report;
use crate::step::Step;
use checkpoint_io::{BlockFault, Reader};
use nl_io::{Sink, Source, TextWriter};
use std::alloc::{AllocError, Global};

// The writers without a close mark, from the least number on.
pub fn open_writers(alloc: Global, reader: &Reader) -> Result<Numbers, AllocError>
    ensures { (taken : List ℕ) (read : StandsFor reader.now taken)
        → IfOk result (λ unclosed. unclosed ≡ open_writers_of reader.now.header read.blocks) }
{
    let mut unclosed = Numbers::make(alloc);
    for writer in 0..reader.header().writers {
        if !reader.is_closed(writer) {
            unclosed.push(writer)?;
        }
    }
    Ok(unclosed)
}

// The fault of a log whose header can't be read.
fn header_fault(fault: BlockFault) -> DecodeFault
    ensures is { result ≡ header_fault_of fault }
    ensures no_write { ¬ (result ≡ DecodeFault.WriteFault) }
    ensures read { (result ≡ DecodeFault.ReadFault) ↔ (fault ≡ BlockFault.ReadFault) }
{
    match fault {
        BlockFault::Damaged(cause) => DecodeFault::Damaged { offset: 0, cause },
        BlockFault::ReadFault => DecodeFault::ReadFault,
        BlockFault::NoMemory => DecodeFault::NoMemory,
    }
}

/// Prints the lines of the records of a log, which is all that the source has left: by stamp, those of one stamp by
/// writer, and those of one writer in its order. Lines go out as soon as none can come before them any more. Memory is
/// taken for the other records, and for the text of a write.
///
/// # Errors
///
/// `Damaged` comes after the lines of all whole blocks in front of the damage, and `ReadFault` after those of the whole
/// blocks that were read. Where a write fails that is answered, also of a damaged file or after a failed read: a front
/// of these lines went out, and no more of the source is read. So it is where there is no memory.
pub fn decompress<S: Source, K: Sink>(
    alloc: Global,
    source: &mut S,
    out: &mut K,
) -> Result<Report, DecodeFault>
    // What was printed, and what the answer says of the bytes that the source had left.
    ensures text { Decompresses (S.left source.old) (S.left source.new) (S.faults source.old) (S.faults source.new)
        (K.put out.old) (K.put out.new) result }
    ensures end { OnOk result (IsAtEnd (S.left source.new)) }

    // A write fault is one of this call, and no other answer hides one.
    ensures write_fault { IsErrOf result DecodeFault.WriteFault → Rose (K.faults out.old) (K.faults out.new) }
    ensures written { ¬ (IsErrOf result DecodeFault.WriteFault) → K.faults out.new ≡ K.faults out.old }

    // So is a read fault. A write fault and want of memory may come after it, and nothing else hides one.
    ensures read_fault { IsErrOf result DecodeFault.ReadFault → Rose (S.faults source.old) (S.faults source.new) }
    ensures read { ¬ (IsErrOf result DecodeFault.ReadFault) → ¬ (IsErrOf result DecodeFault.WriteFault)
        → ¬ (IsErrOf result DecodeFault.NoMemory) → S.faults source.new ≡ S.faults source.old }
    ensures out_count { K.faults out.old ≤ K.faults out.new }
    ensures source_count { S.faults source.old ≤ S.faults source.new }

    // All else is as it was.
    ensures out_others { K.rest out.old out.new }
    ensures source_others { S.rest source.old source.new }
{
    let mut printer = match LogPrinter::make(alloc, source) {
        Ok(printer) => printer,
        Err(fault) => return Err(header_fault(fault)),
    };
    let mut text_writer = TextWriter::make();
    loop {
        match printer.step(source, &mut text_writer, out)? {
            Step::More => {}
            Step::End(report) => return Ok(report),
        }
    }
}
