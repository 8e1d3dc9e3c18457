//! The bytes of a log that is made part by part.

ghost use Rattle.std.specs.Prelude.{[]};
ghost use Rattle.log_migration.specs.Migrations.{HoldsLog, PutsPart};

use checkpoint_io::MAX_LOG;
use std::alloc::{AllocError, Global};

/// A log that is made part by part.
#[derive(Debug, Drop)]
pub(crate) struct NewLog {
    /// Its bytes, while they are no more than are read of a log. Past that no more are kept.
    pub bytes: Vec<u8>,
    /// Whether they are more.
    pub large: bool,
}

impl NewLog {
    /// That of no parts.
    pub(crate) fn none(alloc: Global) -> NewLog
        ensures { HoldsLog result [] }
    {
        NewLog {
            bytes: Vec::new(alloc),
            large: false,
        }
    }

    /// Puts a part behind the others.
    pub(crate) fn put(&mut self, part: &[u8]) -> Result<(), AllocError>
        ensures { PutsPart result self.old self.new part.now }
    {
        if self.large {
            return Ok(());
        }
        if self.bytes.len() + part.len() > MAX_LOG as usize {
            self.large = true;
            return Ok(());
        }
        self.bytes.extend_from_slice(part)
    }
}
