//! Ends of any kind.

use crate::consumer::ConsumerEnd;
use crate::session::SessionEnd;
use crate::writer::WriterEnd;

/// An end of a session.
#[derive(Drop)]
pub enum End {
    Session(SessionEnd),
    Writer(WriterEnd),
    Consumer(ConsumerEnd),
}
