//! The order in which the calls of a run are printed and written.

ghost use Rattle.std.specs.Prelude.{◌≡◌, ◌++◌, ◌≤◌, length, sum_by, IfOk, OnOk};
ghost use Rattle.trace_text.specs.declared.trace.TheConstants.{MAX_CALLS};
ghost use Rattle.trace_text.specs.Order.{writer_places, places_in_order};

use crate::trace::Trace;
use arg_records::Calls;
use std::alloc::{AllocError, Global};

/// Where a call of a run stands. Calls are printed and written by stamp, those of one stamp by
/// writer, and those of one writer in the order in which it made them.
#[derive(Clone, Copy, Debug, PartialEq, Eq, PartialOrd, Ord)]
pub struct CallPlace {
    /// When the call was made, by the ticks of the clock.
    pub stamp: u64,
    /// The number of the writer that made it.
    pub writer: u32,
    /// How many calls that writer had made before.
    pub ordinal: u32,
}

/// How many calls a run has.
pub fn call_count(trace: &Trace) -> usize
    ensures { result ≡ sum_by length trace.now.writers }
{
    let mut count = 0;
    for calls in trace.writers.iter() {
        count += calls.len();
    }
    count
}

/// Appends the places of the calls of a writer.
fn add_places(writer: u32, calls: &Calls, places: &mut Vec<CallPlace>) -> Result<(), AllocError>
    requires { length calls.now ≤ MAX_CALLS }
    ensures { OnOk result (places.new.items ≡ places.old.items ++ writer_places (writer, calls.now)) }
{
    for (ordinal, call) in calls.iter().enumerate() {
        places.push(CallPlace {
            stamp: call.stamp,
            writer,
            ordinal: ordinal as u32,
        })?;
    }
    Ok(())
}

/// The places of a run's calls, in order: each call's once.
///
/// # Errors
///
/// There is no memory for the places.
pub fn places_in_order(alloc: Global, trace: &Trace) -> Result<Vec<CallPlace>, AllocError>
    ensures { IfOk result (λ places. places.items ≡ places_in_order trace.now) }
{
    let mut places = Vec::with_capacity(alloc, call_count(trace))?;
    for (writer, calls) in trace.writers.iter().enumerate() {
        add_places(writer as u32, calls, &mut places)?;
    }
    places.sort_unstable();
    Ok(places)
}
