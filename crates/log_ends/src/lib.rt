//! The ends of a session as values that live across calls: what a program holds that logs without threads of ours.
#![tactic(auto)]

mod argument;
mod backlog;
mod clocking;
mod consumer;
mod end;
mod giving;
pub mod laws;
mod opening;
mod part_end;
mod parting;
mod pumping;
mod rooms;
mod session;
mod settling;
mod setup;
mod slots;
mod texts;
mod writer;

pub use argument::{CArgument, SIGNED, TEXT, UNSIGNED};
pub use consumer::{ConsumerEnd, Pumped, VERSION};
pub use end::End;
pub use opening::{OpenFault, open};
pub use part_end::PartEnd;
pub use parting::PartRefusal;
pub use session::{SessionEnd, WriterFault};
pub use settling::settle;
pub use setup::Setup;
pub use slots::{
    Slot, end_part, end_session, finish_writer, give_writer, log_call, open_into, pump_log,
    tell_clock, text_limit_of,
};
pub use writer::{LogFault, WriterEnd};
