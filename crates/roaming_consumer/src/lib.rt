//! Taking the calls of many writers, one writer after another, and writing the log of them.
#![tactic(auto)]

mod beginning;
mod blocks;
mod clocks;
mod collecting;
mod draft;
mod fragments;
mod gathering;
pub mod laws;
mod making;
mod part_out;
mod parting;
mod put_frame;
mod roamer;
mod visit;
mod visiting;

pub use clocks::ClockRefusal;
pub use part_out::PartOut;
pub use roamer::Roamer;
pub use visit::{SinkFault, Visit};
