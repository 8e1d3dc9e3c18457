//! What a merger is told of the records that wait.

ghost use Rattle.std.specs.Prelude.{◌≡◌, ℕ, ◌^◌, ◌<◌, Bool, true, false, List, ◌++◌, length, slice_set, OnOk};
ghost use Rattle.log_dictionary.specs.declared.message.Message.{Message};
ghost use Rattle.arg_records.specs.declared.call.Call.{Call};
ghost use Rattle.buffer_extent.specs.Bodies.{IsBody};
ghost use Rattle.checkpoint_io.specs.Blocks.{Block as LogBlock};
ghost use Rattle.checkpoint_io.specs.Readers.{ReaderState};
ghost use Rattle.checkpoint_io.specs.NextBlocks.{Describes, HasBody};
ghost use Rattle.stamp_merge.specs.Mergers.{wants, list_at};
ghost use Rattle.decompressor.specs.Waiting.{list_of, HoldsRecords, HasHeads, AreShown, MayStillCome, AddsBlock};

use crate::queue::RecordQueue;
use checkpoint_io::{Block, Reader};
use stamp_merge::Merger;
use std::alloc::AllocError;

/// Tells the merger the first record of a writer of which it has none, or that none can come.
pub fn show_first(merger: &mut Merger, writer: u32, queue: &RecordQueue, closed: bool)
    requires { wants (list_at merger.old writer) ≡ true }
    ensures { (messages : List Message) (tick : ℕ) (records : List Call) → HoldsRecords messages tick queue.now records
        → merger.new ≡ slice_set merger.old writer (list_of closed records) }
{
    match queue.first_stamp() {
        Some(stamp) => merger.push(writer, stamp),
        None => {
            if closed {
                merger.close(writer);
            }
        }
    }
}

// Tells the merger that no records of the writer can come but those that wait.
fn close_writer(merger: &mut Merger, writer: u32, queue: &RecordQueue)
    requires known { writer < length merger.old }
    requires shown { (closed : Bool) × (messages : List Message) × (tick : ℕ) × (records : List Call)
        × HoldsRecords messages tick queue.now records × (list_at merger.old writer ≡ list_of closed records) }
    ensures { (closed : Bool) (messages : List Message) (tick : ℕ) (records : List Call)
        → HoldsRecords messages tick queue.now records
        → list_at merger.old writer ≡ list_of closed records
        → merger.new ≡ slice_set merger.old writer (list_of true records) }
{
    if queue.is_empty() {
        merger.close(writer);
    }
}

// The records of the extent that was read last wait behind those of their writer.
fn add_records(
    merger: &mut Merger,
    writer: u32,
    queue: &mut RecordQueue,
    reader: &Reader,
) -> Result<(), AllocError>
    requires { (records : List Call)
        × HoldsRecords reader.now.messages reader.now.header.clock.tick queue.old records
        × (list_at merger.old writer ≡ list_of false records) }
    ensures { (records more : List Call) (last : ℕ)
        → HoldsRecords reader.now.messages reader.now.header.clock.tick queue.old records
        → list_at merger.old writer ≡ list_of false records
        → IsBody reader.now.messages reader.now.header.clock.tick last more reader.now.body
        → OnOk result (HoldsRecords reader.now.messages reader.now.header.clock.tick queue.new (records ++ more)
        × (merger.new ≡ slice_set merger.old writer (list_of false (records ++ more)))) }
{
    let was_empty = queue.is_empty();
    queue.push(
        reader.dictionary(),
        reader.header().clock.tick,
        reader.body(),
    )?;
    if was_empty {
        show_first(merger, writer, queue, false);
    }
    Ok(())
}

/// Takes the block that was read last: its records wait, or its writer is closed.
pub fn add_block(
    merger: &mut Merger,
    waiting: &mut [RecordQueue],
    reader: &Reader,
    block: Block,
) -> Result<(), AllocError>
    requires { (closed : ℕ → Bool) × (next : LogBlock) × (records : List (List Call)) × Describes block next
        × HasBody reader.now.header.clock.tick reader.now.messages next reader.now.body
        × MayStillCome closed (length waiting.old) next
        × AreShown closed reader.now waiting.old merger.old records }
    ensures { (closed : ℕ → Bool) (next : LogBlock) (records : List (List Call)) → Describes block next
        → HasBody reader.now.header.clock.tick reader.now.messages next reader.now.body
        → MayStillCome closed (length waiting.old) next
        → AreShown closed reader.now waiting.old merger.old records
        → OnOk result (AddsBlock closed next reader.now records waiting.new merger.new) }
{
    match block {
        Block::Fragment { .. } | Block::Clock(_) => Ok(()),
        Block::Extent { writer } => {
            add_records(merger, writer, &mut waiting[writer as usize], reader)
        }
        Block::Closed { writer } => {
            close_writer(merger, writer, &waiting[writer as usize]);
            Ok(())
        }
    }
}

/// Tells the merger that no more records can come.
pub fn close_all(merger: &mut Merger, waiting: &[RecordQueue])
    requires few { length waiting.now < 2 ^ 32 }
    requires shown { (closed : ℕ → Bool) × (reader : ReaderState) × (records : List (List Call))
        × AreShown closed reader waiting.now merger.old records }
    ensures { (closed : ℕ → Bool) (reader : ReaderState) (records : List (List Call))
        → AreShown closed reader waiting.now merger.old records
        → HasHeads (λ writer. true) merger.new records }
{
    for writer in 0..waiting.len() {
        close_writer(merger, writer as u32, &waiting[writer]);
    }
}
