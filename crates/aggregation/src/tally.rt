//! Counting the numbers of a log.

ghost use Rattle.std.specs.Prelude.{◌≡◌, [], refl};
ghost use Rattle.std.proofs.Common.{◌∙◌};
ghost use Rattle.log_scan.specs.Parts.{blocks_read};
ghost use Rattle.aggregation.specs.Tallying.{IsTally};

use crate::counting::add_records;
use crate::totals::Totals;
use checkpoint_io::{Block, Header, Reader};
use log_scan::BlockFold;
use std::alloc::AllocError;

/// What was counted in the whole blocks of a log.
#[derive(Clone, Copy, Debug)]
pub struct Tally {
    /// The message.
    pub id: u32,
    /// The place of the argument, from 0.
    pub nth: u32,
    /// How many messages the blocks define. The reader may know more, of a block that broke.
    pub defined: u32,
    /// The totals of the argument.
    pub totals: Totals,
}

impl Tally {
    /// That of no blocks.
    pub fn none(id: u32, nth: u32) -> Tally
        ensures id { result.id ≡ id }
        ensures nth { result.nth ≡ nth }
        ensures tallied { IsTally [] result }
    {
        Tally {
            id,
            nth,
            defined: 0,
            totals: Totals::none(),
        }
    }
}

impl BlockFold for Tally {
    ghost has = { λ tally part. IsTally (blocks_read part) tally };

    ghost rest = { λ a b. (b.id ≡ a.id) × (b.nth ≡ a.nth) };

    ghost rest_same = { λ a. (refl, refl) };

    ghost rest_then = { λ a b c first second. (second.0 ∙ first.0, second.1 ∙ first.1) };

    fn begin(&mut self, _header: &Header) -> Result<(), AllocError> {
        Ok(())
    }

    fn add(&mut self, reader: &Reader, block: Block) -> Result<(), AllocError> {
        match block {
            Block::Extent { .. } => add_records(
                reader.body(),
                reader.dictionary(),
                reader.header().clock.tick,
                self.id,
                self.nth,
                &mut self.totals,
            ),
            Block::Fragment { .. } => self.defined = reader.dictionary().len(),
            Block::Clock(_) | Block::Closed { .. } => {}
        }
        Ok(())
    }
}
