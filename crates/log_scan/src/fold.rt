//! What is made of the blocks of a log.

ghost use Rattle.std.specs.Prelude.{Option, Some, None, OnOk};
ghost use Rattle.checkpoint_io.specs.Blocks.{Block as LogBlock};
ghost use Rattle.checkpoint_io.specs.Validity.{IsHeader};
ghost use Rattle.log_scan.specs.Parts.{LogPart, header_alone, with_block, StandsNext};

use checkpoint_io::{Block, Header, Reader};
use std::alloc::AllocError;

/// What a reader makes of a log, block by block.
pub trait BlockFold {
    /// It has what this part of a log gives. There is no part before a header was read.
    ghost has: { Self → Option LogPart → Type 0 };

    /// All else that the object stands for, as a relation between two of its states.
    ghost rest: { Self → Self → Type 0 };

    /// Takes the header.
    fn begin(&mut self, header: &Header) -> Result<(), AllocError>
        requires none { has self.old None }
        requires right { IsHeader header.now }
        ensures begun { OnOk result (has self.new (Some (header_alone header.now))) }
        ensures others { rest self.old self.new };

    /// Takes the next block, which is right behind those before. The reader has the messages of all of them, and the
    /// body of an extent.
    fn add(&mut self, reader: &Reader, block: Block) -> Result<(), AllocError>
        requires { (part : LogPart) × (next : LogBlock) × StandsNext part reader.now block next
            × has self.old (Some part) }
        ensures added { (part : LogPart) (next : LogBlock) → StandsNext part reader.now block next
            → has self.old (Some part)
            → OnOk result (has self.new (Some (with_block part next))) }
        ensures others { rest self.old self.new };

    /// A state stands for the same as itself.
    ghost rest_same: { (a : Self) → rest a a };

    /// What stays in two calls stays in both together.
    ghost rest_then: { (a b c : Self) → rest a b → rest b c → rest a c };
}
