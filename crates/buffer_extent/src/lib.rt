//! The records of calls, as the bytes of an extent's body.
#![tactic(auto)]

mod body;
mod eight;
mod fault;
mod judge;
mod kept;
mod laws;
mod numbers;
mod put;
mod staged;
mod take;
mod texts;
mod unpack;

pub use arg_records::{Call as LogRecord, Calls as Records};
pub use body::read_body;
pub use fault::{BodyCause, BodyFault};
pub use judge::judge_body;
pub use laws::{
    a_record_with_a_number, a_record_with_a_text, bodies_are_read, bodies_are_told_apart,
    body_or_break, causes_have_numbers_and_names, heads_are_read_first, no_record_begins_another,
    records_are_read_again, records_break_by_these_causes, records_have_room,
    three_codes_in_two_bytes,
};
pub use put::{RECORD_ROOM, put_record};
pub use take::RecordHeader;
pub use unpack::{NumberRoom, RecordRoom, unpack_arguments, unpack_head, unpack_record};
