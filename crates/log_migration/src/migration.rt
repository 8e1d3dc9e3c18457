//! A log of version 2, made from the blocks of one of version 1.

ghost use Rattle.std.specs.Prelude.{None, OnOk, ⊤};
ghost use Rattle.checkpoint_io.specs.Blocks.{Block as LogBlock};
ghost use Rattle.log_scan.specs.Parts.{LogPart, with_block, StandsNext};
ghost use Rattle.log_migration.specs.Migrations.{MigratesPart, HasMigration};

use crate::new_log::NewLog;
use crate::parts::{add_close, add_extent, add_fragment, add_header};
use checkpoint_io::{Block, Header, Reader};
use log_scan::BlockFold;
use std::alloc::{AllocError, Global};

/// What was made from the part of a log that was read.
#[derive(Debug, Drop)]
pub(crate) struct Migration {
    pub log: NewLog,
    /// How many blocks it has.
    pub blocks: u64,
}

// Puts the next block of a log, which is right behind those before.
fn add_block(reader: &Reader, block: Block, log: &mut NewLog) -> Result<(), AllocError>
    requires { (part : LogPart) × (next : LogBlock) × StandsNext part reader.now block next }
    ensures { (part : LogPart) (next : LogBlock) → StandsNext part reader.now block next → MigratesPart part log.old
        → OnOk result (MigratesPart (with_block part next) log.new) }
{
    match block {
        Block::Fragment { first, count } => add_fragment(reader.dictionary(), first, count, log),
        Block::Extent { writer } => add_extent(writer, reader.body(), log),
        Block::Closed { writer } => add_close(writer, log),
        // Version 1 has none.
        Block::Clock(_) => Ok(()),
    }
}

impl Migration {
    /// That of nothing.
    pub(crate) fn none(alloc: Global) -> Migration
        ensures { HasMigration result None }
    {
        Migration {
            log: NewLog::none(alloc),
            blocks: 0,
        }
    }
}

impl BlockFold for Migration {
    ghost has = { HasMigration };

    ghost rest = { λ a b. ⊤ };

    ghost rest_same = { λ a. tt };

    ghost rest_then = { λ a b c first second. tt };

    fn begin(&mut self, header: &Header) -> Result<(), AllocError> {
        add_header(header, &mut self.log)
    }

    fn add(&mut self, reader: &Reader, block: Block) -> Result<(), AllocError> {
        add_block(reader, block, &mut self.log)?;
        self.blocks += 1;
        Ok(())
    }
}
