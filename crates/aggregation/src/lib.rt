//! Totals of an argument over the records of a log.
#![tactic(auto)]

mod aggregating;
mod counting;
mod fault;
pub mod laws;
mod tally;
mod totals;

pub use aggregating::aggregate;
pub use fault::AggregateFault;
pub use totals::Totals;
