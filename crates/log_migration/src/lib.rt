//! Logs of version 1 as logs of version 2.
#![tactic(auto)]

mod fault;
pub mod laws;
mod migrating;
mod migration;
mod new_log;
mod parts;

pub use fault::MigrateFault;
pub use migrating::migrate;
