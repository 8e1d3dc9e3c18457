//! The commands over logs.
#![tactic(auto)]

mod aggregating;
mod damage;
mod decompressing;
pub mod laws;
mod migrating;
mod totals_line;

pub use aggregating::aggregate;
pub use decompressing::decompress;
pub use migrating::migrate;
