//! What is asked of a ring in which one thread stages the frames of its calls and another takes them.
#![tactic(auto)]

mod answers;
pub mod laws;
mod limits;
mod places;
mod planned;
mod stage;
mod stage_in;
mod stage_out;
mod stored_out;

pub use answers::{Full, StageFault, Taken};
pub use limits::{MAX_POSITION, OFFER_ROOM};
pub use places::{need, need_from_place};
pub use stage::{Stage, StageDone};
pub use stage_in::StageIn;
pub use stage_out::StageOut;
pub use stored_out::{StoreFault, StoredOut};
