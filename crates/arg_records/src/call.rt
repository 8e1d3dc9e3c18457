//! Calls and lists of calls.

ghost use Rattle.std.specs.Prelude.{◌≡◌, ◌-◌, ◌<◌, ◌≤◌, ◌↔◌, [], ◌∷◌, ◌++◌, length, slice_get, IsNone, IsTrue, OnOk, OnErr};
ghost use Rattle.std.specs.Option.{option_copied};
ghost use Rattle.std.specs.Slice.Iter.{iter_rest};

use printf_grammar::Values;
use std::alloc::{AllocError, Global};
use std::marker::Model;
use std::slice;

/// A call of a log statement: when it was made, by the ticks of the clock, the id of its message,
/// and the values that it was given. A trace has calls, and a log keeps them as records.
#[derive(Debug, Drop)]
pub struct Call {
    pub stamp: u64,
    pub id: u32,
    pub args: Values,
}

/// The calls of one writer, in order.
#[derive(Debug, Drop)]
pub struct Calls {
    items: Vec<Call>,
}

impl Model for Calls {
    ghost use Rattle.std.specs.Prelude.{List};
    ghost use Rattle.arg_records.specs.declared.call.Call.{Call};

    ghost Value = { List Call };

    ghost view = { λ c. c.items.items };
}

impl Calls {
    /// No calls.
    pub fn make(alloc: Global) -> Calls
        ensures { result ≡ [] }
    {
        Calls {
            items: Vec::new(alloc),
        }
    }

    /// Adds a call at the end. Where that is refused the call is dropped.
    #[inline(always)]
    pub fn push(&mut self, call: Call) -> Result<(), AllocError>
        ensures ok { OnOk result (self.new ≡ self.old ++ call ∷ []) }
        ensures err { OnErr result (self.new ≡ self.old) }
    {
        self.items.push(call)?;
        Ok(())
    }

    /// The number of calls.
    pub fn len(&self) -> usize
        ensures { result ≡ length self.now }
    {
        self.items.len()
    }

    /// Whether there are none.
    pub fn is_empty(&self) -> bool
        ensures { IsTrue result ↔ (self.now ≡ []) }
    {
        self.items.is_empty()
    }

    /// The call at a place, from 0.
    pub fn get(&self, place: usize) -> Option<&Call>
        ensures value { option_copied result ≡ slice_get self.now place }
        ensures none { IsNone result ↔ (length self.now ≤ place) }
    {
        self.items.get(place)
    }

    /// The call at a place that the list has, from 0.
    pub fn call(&self, place: usize) -> &Call
        requires { place < length self.now }
        ensures { slice_get self.now place ≡ Some result.now }
    {
        &self.items[place]
    }

    /// The last call.
    pub fn last(&self) -> Option<&Call>
        ensures { option_copied result ≡ slice_get self.now (length self.now - 1) }
    {
        self.items.last()
    }

    /// The calls, one after the other.
    pub fn iter(&self) -> slice::Iter<'_, Call>
        ensures { iter_rest result ≡ self.now }
    {
        self.items.iter()
    }
}

impl<'a> IntoIterator for &'a Calls {
    type Item = &'a Call;

    type IntoIter = slice::Iter<'a, Call>;

    ghost into_iter_gives = { λ calls it. iter_rest it ≡ calls.now };

    fn into_iter(self) -> Self::IntoIter {
        self.iter()
    }
}
