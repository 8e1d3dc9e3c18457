//! The pure machine of a ring: its state, each step of its two ends, and what holds at every moment.
#![tactic(auto)]

pub mod laws;
mod reach;
mod records;
mod ring;
mod rings;
mod steps;
mod track;
mod view;

pub use records::{RoamerRecord, WriterRecord};
pub use rings::{MAX_RINGS, Rings};
pub use steps::{Barred, Event, StepKind};
pub use view::RingView;
