//! The text that a log stands for, and printing it.
#![tactic(auto)]

mod clock_place;
mod decompressing;
mod decompressor;
mod fault;
pub mod laws;
mod line_context;
mod log_printer;
mod numbers;
mod printing;
mod queue;
mod report;
mod showing;
mod step;

pub use decompressing::decompress;
pub use decompressor::Decompressor;
pub use fault::DecodeFault;
pub use numbers::Numbers;
pub use report::Report;
pub use step::Step;
