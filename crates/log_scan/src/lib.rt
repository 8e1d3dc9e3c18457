//! Reading a whole log: what is made of its blocks, and how that ends.
#![tactic(auto)]

mod fold;
mod scan;
mod scanning;

pub use fold::BlockFold;
pub use scan::{Scan, ScanEnd};
pub use scanning::{scan_log, scan_rest};
