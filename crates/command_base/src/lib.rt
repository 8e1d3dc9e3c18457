//! What all commands have in common: how one ends, what it reads, makes and prints, and the words on the standard
//! error. A command is described by a task, and one relation says of any task what its answer leaves.
#![tactic(auto)]

mod input;
mod note;
mod output;
mod refusal;
mod report;
mod saving;
mod status;

pub use input::{open, read_file};
pub use note::Note;
pub use output::{print, print_pieces, printed};
pub use refusal::{Refusal, ToldCause};
pub use report::{say, say_end, say_note};
pub use saving::save;
pub use status::Status;
