ghost use Rattle.std.specs.Prelude.{◌≡◌, ◌≤◌, ◌↔◌, IsTrue, IfOk, Contains};
ghost use Rattle.nl_io.specs.Count.{counted};

use crate::failed::Failed;
use std::alloc::{AllocError, Global};

/// Which calls of an object fail, by their numbers from 0, and how many calls came.
#[derive(Drop)]
pub(crate) struct Script {
    failing: Vec<u64>,
    calls: u64,
}

impl Script {
    /// Before the first call.
    pub(crate) fn make(alloc: Global, failing: &[u64]) -> Result<Script, AllocError>
        ensures failing { IfOk result (λ script. script.failing.items ≡ failing.now) }
        ensures calls { IfOk result (λ script. script.calls ≡ 0) }
    {
        let failing = Vec::from_slice(alloc, failing)?;
        Ok(Script { failing, calls: 0 })
    }

    /// Counts a call, and says whether it is listed.
    pub(crate) fn next_call(&mut self) -> bool
        ensures listed { IsTrue result ↔ Contains self.old.failing.items self.old.calls }
        ensures counted { self.new ≡ record self.old { calls = counted self.old.calls } }
    {
        let listed = self.failing.as_slice().contains(&self.calls);
        self.calls = self.calls.saturating_add(1);
        listed
    }
}

/// How many calls failed: those that were listed, and those that wanted memory.
#[derive(Clone, Copy)]
pub(crate) struct Faults {
    listed: u64,
    starved: u64,
}

impl Faults {
    pub(crate) const NONE: Faults = Faults {
        listed: 0,
        starved: 0,
    };

    pub(crate) fn starved(&self) -> u64
        ensures { result ≡ self.now.starved }
    {
        self.starved
    }

    /// Counts a listed call.
    pub(crate) fn fail(&mut self) -> Failed
        ensures counted { self.new ≡ record self.old { listed = counted self.old.listed } }
        ensures more { self.old.listed ≤ self.new.listed }
    {
        self.listed = self.listed.saturating_add(1);
        Failed
    }

    /// Counts a call that wanted memory.
    pub(crate) fn starve(&mut self) -> Failed
        ensures counted { self.new ≡ record self.old { starved = counted self.old.starved } }
        ensures more { self.old.starved ≤ self.new.starved }
    {
        self.starved = self.starved.saturating_add(1);
        Failed
    }
}
