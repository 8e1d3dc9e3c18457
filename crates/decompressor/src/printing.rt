//! Printing the lines of a log.

ghost use Rattle.std.specs.Prelude.{◌≡◌, ◌⊎◌, ◌≤◌, ◌||◌, ℕ, List, [], length, slice_get, Some, IfOk, IsErrOf, OnOk, OnErr, map};
ghost use Rattle.nl_io.specs.Count.{Rose};
ghost use Rattle.log_dictionary.specs.declared.message.Message.{Message};
ghost use Rattle.log_dictionary.specs.Clocks.{first_tick};
ghost use Rattle.arg_records.specs.declared.call.Call.{Call};
ghost use Rattle.printf_grammar.specs.declared.limits.TheConstants.{MAX_ARGUMENTS};
ghost use Rattle.buffer_extent.specs.Reading.{types_of};
ghost use Rattle.checkpoint_io.specs.Blocks.{Block};
ghost use Rattle.checkpoint_io.specs.Writers.{closed_kept};
ghost use Rattle.direct_printf.specs.Lines.{Line, origin_text, AreFirstOrigins};
ghost use Rattle.decompressor.specs.Waiting.{HoldsFirst};
ghost use Rattle.decompressor.specs.Decompressors.{HasToPrint, PrintsReady};

use crate::fault::DecodeFault;
use crate::line_context::LineContext;
use crate::queue::RecordQueue;
use crate::showing::show_first;
use arrayvec::ArrayVec;
use buffer_extent::NumberRoom;
use checkpoint_io::Reader;
use direct_printf::{LineParts, LineWriter};
use nl_io::{Sink, TextWriter};
use printf_grammar::{Arg, MAX_ARGUMENTS};
use stamp_merge::{Merger, Next};
use std::alloc::{AllocError, Global};

// So many arguments most messages take at most.
const FEW_ARGUMENTS: usize = 4;

// Makes the line of the first record of a writer, as `make_line` does, in this room for its arguments.
fn make_line_in<'a, const N: usize>(
    reader: &Reader,
    context: &mut LineContext,
    writer: u32,
    queue: &'a RecordQueue,
    room: &mut NumberRoom,
    args: &mut ArrayVec<Arg<'a>, N>,
    line_writer: &mut LineWriter,
    line: &mut Vec<u8>,
) -> Result<usize, AllocError>
    requires first { (call : Call) × (others : List Call)
        × HoldsFirst reader.now.messages reader.now.header.clock.tick queue.now call others
        × (first_tick reader.now.times.clocks ≤ call.stamp) }
    requires few { length (types_of (slice_get reader.now.messages queue.now.head.id)) ≤ N }
    requires origins { context.old.origins ≡ map origin_text reader.now.messages }
    ensures line { (call : Call) (others : List Call)
        (holds : HoldsFirst reader.now.messages reader.now.header.clock.tick queue.now call others)
        (message : Message) (ordinal : ℕ)
        → slice_get reader.now.messages call.id ≡ Some message
        → OnOk result (line.new.items ≡ Line reader.now.times.clocks (record {
          writer = writer;
          ordinal = ordinal;
          stamp = call.stamp;
          message = message;
          args = call.args;
        })) }
    ensures left { (call : Call) (others : List Call)
        (holds : HoldsFirst reader.now.messages reader.now.header.clock.tick queue.now call others)
        → IfOk result (λ left. left ≡ length holds.goes_on.back) }
    ensures kept { context.new.origins ≡ context.old.origins }
{
    line.clear();
    let left = queue.unpack_first(reader.dictionary(), room, args);
    let head = queue.head();
    let clock = context.place.clock_at(reader.clocks(), head.stamp);
    let parts = LineParts {
        writer,
        message: reader.dictionary().message(head.id),
        origin: context.origins.get(head.id),
        stamp: head.stamp,
        args: args.as_slice(),
    };
    line_writer.append(&clock, &parts, line)?;
    Ok(left)
}

// Makes such a line of any number of arguments.
#[inline(never)]
fn make_long_line(
    reader: &Reader,
    context: &mut LineContext,
    writer: u32,
    queue: &RecordQueue,
    room: &mut NumberRoom,
    line_writer: &mut LineWriter,
    line: &mut Vec<u8>,
) -> Result<usize, AllocError>
    requires first { (call : Call) × (others : List Call)
        × HoldsFirst reader.now.messages reader.now.header.clock.tick queue.now call others
        × (first_tick reader.now.times.clocks ≤ call.stamp) }
    requires few { length (types_of (slice_get reader.now.messages queue.now.head.id)) ≤ MAX_ARGUMENTS }
    requires origins { context.old.origins ≡ map origin_text reader.now.messages }
    ensures line { (call : Call) (others : List Call)
        (holds : HoldsFirst reader.now.messages reader.now.header.clock.tick queue.now call others)
        (message : Message) (ordinal : ℕ)
        → slice_get reader.now.messages call.id ≡ Some message
        → OnOk result (line.new.items ≡ Line reader.now.times.clocks (record {
          writer = writer;
          ordinal = ordinal;
          stamp = call.stamp;
          message = message;
          args = call.args;
        })) }
    ensures left { (call : Call) (others : List Call)
        (holds : HoldsFirst reader.now.messages reader.now.header.clock.tick queue.now call others)
        → IfOk result (λ left. left ≡ length holds.goes_on.back) }
    ensures kept { context.new.origins ≡ context.old.origins }
{
    let mut args = ArrayVec::<Arg, MAX_ARGUMENTS>::new();
    make_line_in(
        reader,
        context,
        writer,
        queue,
        room,
        &mut args,
        line_writer,
        line,
    )
}

// Makes the line of the first record of a writer, in place of what is there, and answers how many bytes of its body
// stand behind it.
fn make_line(
    reader: &Reader,
    context: &mut LineContext,
    writer: u32,
    queue: &RecordQueue,
    room: &mut NumberRoom,
    line_writer: &mut LineWriter,
    line: &mut Vec<u8>,
) -> Result<usize, AllocError>
    requires first { (call : Call) × (others : List Call)
        × HoldsFirst reader.now.messages reader.now.header.clock.tick queue.now call others
        × (first_tick reader.now.times.clocks ≤ call.stamp) }
    requires origins { context.old.origins ≡ map origin_text reader.now.messages }
    ensures line { (call : Call) (others : List Call)
        (holds : HoldsFirst reader.now.messages reader.now.header.clock.tick queue.now call others)
        (message : Message) (ordinal : ℕ)
        → slice_get reader.now.messages call.id ≡ Some message
        → OnOk result (line.new.items ≡ Line reader.now.times.clocks (record {
          writer = writer;
          ordinal = ordinal;
          stamp = call.stamp;
          message = message;
          args = call.args;
        })) }
    ensures left { (call : Call) (others : List Call)
        (holds : HoldsFirst reader.now.messages reader.now.header.clock.tick queue.now call others)
        → IfOk result (λ left. left ≡ length holds.goes_on.back) }
    ensures kept { context.new.origins ≡ context.old.origins }
{
    let message = reader.dictionary().message(queue.head().id);
    // Room is cleared where a function begins, so it is little where few arguments are taken.
    if message.format.types().len() > FEW_ARGUMENTS {
        return make_long_line(reader, context, writer, queue, room, line_writer, line);
    }
    let mut args = ArrayVec::<Arg, FEW_ARGUMENTS>::new();
    make_line_in(
        reader,
        context,
        writer,
        queue,
        room,
        &mut args,
        line_writer,
        line,
    )
}

// Whether no records of the writer can come: the log has ended, or the writer is closed.
fn is_done(ended: bool, reader: &Reader, writer: u32) -> bool
    ensures { result ≡ (ended || closed_kept reader.now.writers writer) }
{
    ended || reader.is_closed(writer)
}

/// Prints the lines of the records before which none can come any more, and answers how many there are. Where the log
/// has ended these are all.
pub fn print_ready<K: Sink>(
    alloc: Global,
    reader: &Reader,
    context: &mut LineContext,
    ended: bool,
    merger: &mut Merger,
    waiting: &mut [RecordQueue],
    text_writer: &mut TextWriter,
    out: &mut K,
) -> Result<u64, DecodeFault>
    requires ready { (first all : List Block) × HasToPrint ended reader.now first all waiting.old merger.old }
    requires origins { AreFirstOrigins context.old.origins reader.now.messages }
    requires held { text_writer.old ≡ [] }
    ensures printed { (first all : List Block) → HasToPrint ended reader.now first all waiting.old merger.old
        → PrintsReady ended reader.now first all (K.put out.old) (K.put out.new)
        (K.faults out.old) (K.faults out.new) waiting.new merger.new result }
    ensures write_fault { IsErrOf result DecodeFault.WriteFault → Rose (K.faults out.old) (K.faults out.new) }
    ensures written { ¬ (IsErrOf result DecodeFault.WriteFault) → K.faults out.new ≡ K.faults out.old }
    ensures count { K.faults out.old ≤ K.faults out.new }
    ensures fault { OnErr result (IsErrOf result DecodeFault.WriteFault ⊎ IsErrOf result DecodeFault.NoMemory) }
    ensures origins { AreFirstOrigins context.new.origins reader.now.messages }
    ensures held { OnOk result (text_writer.new ≡ []) }
    ensures others { K.rest out.old out.new }
{
    context.origins.extend(reader.dictionary().as_slice())?;
    let mut line_writer = LineWriter::make();
    let mut room = NumberRoom::new();
    let mut line = Vec::new(alloc);
    let mut lines = 0;
    while let Next::Take(writer) = merger.next() {
        let queue = &mut waiting[writer as usize];
        let left = make_line(
            reader,
            context,
            writer,
            queue,
            &mut room,
            &mut line_writer,
            &mut line,
        )?;
        text_writer.put(out, line.as_slice())?;
        queue.remove_first(reader.dictionary(), reader.header().clock.tick, left);
        show_first(merger, writer, queue, is_done(ended, reader, writer));
        lines += 1;
    }
    text_writer.flush(out)?;
    Ok(lines)
}
