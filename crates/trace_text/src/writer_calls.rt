//! The calls of all writers.

ghost use Rattle.std.specs.Prelude.{◌≡◌, ◌<◌, ◌≤◌, ◌↔◌, [], ◌∷◌, ◌++◌, length, slice_get, replicate, IsNone, IsTrue, IfOk, OnOk, OnErr};
ghost use Rattle.trace_text.specs.CallReading.{with_call_of};
ghost use Rattle.std.specs.Option.{option_copied};
ghost use Rattle.std.specs.Slice.Iter.{iter_rest};

use arg_records::{Call, Calls};
use std::alloc::{AllocError, Global};
use std::marker::Model;
use std::slice;

/// The calls of each writer. A writer's number is its place, from 0.
#[derive(Debug, Drop)]
pub struct WriterCalls {
    items: Vec<Calls>,
}

impl Model for WriterCalls {
    ghost use Rattle.std.specs.Prelude.{List};
    ghost use Rattle.arg_records.specs.declared.call.Call.{Call};

    ghost Value = { List (List Call) };

    ghost view = { λ w. w.items.items };
}

impl WriterCalls {
    /// No writers. It takes no memory.
    pub fn make(alloc: Global) -> WriterCalls
        ensures { result ≡ [] }
    {
        WriterCalls {
            items: Vec::new(alloc),
        }
    }

    /// Adds a writer at the end. Where that is refused its calls are dropped.
    pub fn push(&mut self, calls: Calls) -> Result<(), AllocError>
        ensures ok { OnOk result (self.new ≡ self.old ++ calls ∷ []) }
        ensures err { OnErr result (self.new ≡ self.old) }
    {
        self.items.push(calls)?;
        Ok(())
    }

    /// So many writers, each with no calls.
    pub fn without_calls(alloc: Global, count: u32) -> Result<WriterCalls, AllocError>
        ensures { IfOk result (λ writers. writers ≡ replicate count []) }
    {
        let mut writers = WriterCalls::make(alloc);
        for _ in 0..count {
            writers.push(Calls::make(alloc))?;
        }
        Ok(writers)
    }

    /// Adds a call at the end of a writer's. Where that is refused the call is dropped.
    pub fn push_call(&mut self, writer: u32, call: Call) -> Result<(), AllocError>
        requires { writer < length self.old }
        ensures ok { OnOk result (self.new ≡ with_call_of self.old writer call) }
        ensures err { OnErr result (self.new ≡ self.old) }
    {
        self.items[writer as usize].push(call)
    }

    /// The number of writers.
    pub fn len(&self) -> usize
        ensures { result ≡ length self.now }
    {
        self.items.len()
    }

    /// Whether there are none.
    pub fn is_empty(&self) -> bool
        ensures { IsTrue result ↔ (self.now ≡ []) }
    {
        self.items.is_empty()
    }

    /// The calls of a writer.
    pub fn get(&self, place: usize) -> Option<&Calls>
        ensures value { option_copied result ≡ slice_get self.now place }
        ensures none { IsNone result ↔ (length self.now ≤ place) }
    {
        self.items.get(place)
    }

    /// The calls of a writer that is there.
    pub fn calls(&self, writer: usize) -> &Calls
        requires { writer < length self.now }
        ensures { slice_get self.now writer ≡ Some result.now }
    {
        &self.items[writer]
    }

    /// The calls of each writer, one writer after the other.
    pub fn iter(&self) -> slice::Iter<'_, Calls>
        ensures { iter_rest result ≡ self.now }
    {
        self.items.iter()
    }
}

impl<'a> IntoIterator for &'a WriterCalls {
    type Item = &'a Calls;

    type IntoIter = slice::Iter<'a, Calls>;

    ghost into_iter_gives = { λ writers it. iter_rest it ≡ writers.now };

    fn into_iter(self) -> Self::IntoIter {
        self.iter()
    }
}
