//! The order in which sorted lists of stamps are merged.
#![tactic(auto)]

mod laws;
mod merge;
mod merger;

pub use laws::{orders_are_merged, orders_take_each_stamp_once, worked_order};
pub use merge::merge_order;
pub use merger::{Merger, Next};
