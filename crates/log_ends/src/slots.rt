//! Places of ends, and the calls over them.

ghost use Rattle.std.specs.Prelude.{◌≡◌, ◌<◌, ◌^◌, true, false, None, map, option_map, MatchOption, IfSome};
ghost use Rattle.log_ends.specs.Arguments.{argument_given};
ghost use Rattle.log_ends.specs.Writers.{LogsCall, FinishesWriter};
ghost use Rattle.log_ends.specs.Sessions.{session_messages, EndsSession};
ghost use Rattle.log_ends.specs.Texts.{text_limit};
ghost use Rattle.log_ends.specs.Consumers.{Pumps, IfGave};
ghost use Rattle.log_ends.specs.Clocking.{TakesClock};
ghost use Rattle.log_ends.specs.Parting.{EndsLog};
ghost use Rattle.log_ends.specs.Slots.{end_in, session_in, OnWriter, OnSession, OnConsumer, IsAnswered, GivesInto, OpensInto};

use crate::argument::CArgument;
use crate::consumer::Pumped;
use crate::end::End;
use crate::opening::{OpenFault, open};
use crate::parting::PartRefusal;
use crate::session::WriterFault;
use crate::setup::Setup;
use crate::writer::LogFault;
use log_dictionary::Clock;
use roaming_consumer::ClockRefusal;
use std::alloc::Global;

/// A place that may hold an end.
pub type Slot = Option<Box<End>>;

/// Opens a session, whose ends it puts into the two places. There is no answer, and nothing is done, where one of them
/// holds an end.
pub fn open_into(
    alloc: Global,
    text: &[u8],
    setup: Setup,
    session: &mut Slot,
    consumer: &mut Slot,
) -> Option<Result<(), OpenFault>>
    ensures { MatchOption result ((end_in session.new ≡ end_in session.old)
        × (end_in consumer.new ≡ end_in consumer.old)
        × (¬ ((end_in session.old ≡ None) × (end_in consumer.old ≡ None))))
        (λ outcome. (end_in session.old ≡ None) × (end_in consumer.old ≡ None)
        × OpensInto text.now setup outcome (end_in session.new) (end_in consumer.new)) }
{
    if session.is_some() || consumer.is_some() {
        return None;
    }
    let (ours, theirs) = match open(alloc, text, setup) {
        Ok(ends) => ends,
        Err(fault) => return Some(Err(fault)),
    };
    let Ok(ours) = Box::new(alloc, End::Session(ours)) else {
        return Some(Err(OpenFault::NoMemory));
    };
    let Ok(theirs) = Box::new(alloc, End::Consumer(theirs)) else {
        return Some(Err(OpenFault::NoMemory));
    };
    *session = Some(ours);
    *consumer = Some(theirs);
    Some(Ok(()))
}

/// Puts the next writer of the session into the other place. There is no answer, and nothing is done, where there is no
/// session, or the other place holds an end.
pub fn give_writer(
    alloc: Global,
    session: &mut Slot,
    writer: &mut Slot,
) -> Option<Result<(), WriterFault>>
    ensures empty { end_in writer.old ≡ None
        → OnSession (end_in session.old) (end_in session.new) (λ old new.
        IsAnswered result (λ outcome. GivesInto old new outcome (end_in writer.new)))
        ((result ≡ None) × (end_in writer.new ≡ None)) }
    ensures held { ¬ (end_in writer.old ≡ None)
        → (result ≡ None) × (end_in session.new ≡ end_in session.old) × (end_in writer.new ≡ end_in writer.old) }
{
    if writer.is_some() {
        return None;
    }
    let Some(end) = session.as_mut() else {
        return None;
    };
    let End::Session(session) = &mut **end else {
        return None;
    };
    match session.next_writer(alloc) {
        Ok(next) => {
            *writer = Some(next);
            Some(Ok(()))
        }
        Err(fault) => Some(Err(fault)),
    }
}

/// Logs a call with the writer. There is no answer where there is none.
pub fn log_call(
    writer: &mut Slot,
    stamp: u64,
    id: u32,
    args: &[CArgument<'_>],
) -> Option<Result<(), LogFault>>
    ensures { OnWriter (end_in writer.old) (end_in writer.new) (λ old new.
        IsAnswered result (λ outcome. LogsCall old stamp id (map argument_given args.now) outcome new)) (result ≡ None) }
{
    let Some(end) = writer.as_mut() else {
        return None;
    };
    let End::Writer(writer) = &mut **end else {
        return None;
    };
    Some(writer.log(stamp, id, args))
}

/// Finishes the writer, and answers whether it wasn't finished before. There is no answer where there is none.
pub fn finish_writer(writer: &mut Slot) -> Option<bool>
    ensures { OnWriter (end_in writer.old) (end_in writer.new) (λ old new.
        IsAnswered result (λ outcome. FinishesWriter old outcome new)) (result ≡ None) }
{
    let Some(end) = writer.as_mut() else {
        return None;
    };
    let End::Writer(writer) = &mut **end else {
        return None;
    };
    Some(writer.finish())
}

/// Ends the session, and answers whether there is one.
pub fn end_session(session: &mut Slot) -> bool
    ensures { OnSession (end_in session.old) (end_in session.new) (λ old new.
        (result ≡ true) × EndsSession old new) (result ≡ false) }
{
    let Some(end) = session.as_mut() else {
        return false;
    };
    let End::Session(session) = &mut **end else {
        return false;
    };
    session.end();
    true
}

/// The limit of a text of the session's messages, as [`SessionEnd::text_limit`] has it. There is no answer where there
/// is no session.
pub fn text_limit_of(session: &Slot, id: u32, nth: u32) -> Option<Option<u16>>
    ensures { result ≡ option_map (λ ours. text_limit (session_messages ours) id nth)
        (session_in (end_in session.now)) }
{
    let Some(end) = session.as_ref() else {
        return None;
    };
    let End::Session(session) = &**end else {
        return None;
    };
    Some(session.text_limit(id, nth))
}

/// Pumps bytes of the log out of the consumer. There is no answer, and nothing is done, where there is none.
pub fn pump_log(consumer: &mut Slot, into: &mut [u8]) -> Option<Pumped>
    ensures pumps { OnConsumer (end_in consumer.old) (end_in consumer.new) (λ old new.
        IsAnswered result (λ answer. Pumps old into.old answer new into.new))
        ((result ≡ None) × (into.new ≡ into.old)) }
    ensures bound { IfSome result (λ answer. IfGave answer (λ n. n < 2 ^ 63)) }
{
    let Some(end) = consumer.as_mut() else {
        return None;
    };
    let End::Consumer(consumer) = &mut **end else {
        return None;
    };
    Some(consumer.pump(into))
}

/// Ends the part that the consumer gives. There is no answer, and nothing is done, where there is none.
pub fn end_part(consumer: &mut Slot) -> Option<Result<(), PartRefusal>>
    ensures { OnConsumer (end_in consumer.old) (end_in consumer.new) (λ old new.
        IsAnswered result (λ outcome. EndsLog old outcome new)) (result ≡ None) }
{
    let Some(end) = consumer.as_mut() else {
        return None;
    };
    let End::Consumer(consumer) = &mut **end else {
        return None;
    };
    Some(consumer.next_part())
}

/// Tells the consumer a further clock. There is no answer, and nothing is done, where there is none.
pub fn tell_clock(consumer: &mut Slot, clock: Clock) -> Option<Result<(), ClockRefusal>>
    ensures { OnConsumer (end_in consumer.old) (end_in consumer.new) (λ old new.
        IsAnswered result (λ outcome. TakesClock old clock outcome new)) (result ≡ None) }
{
    let Some(end) = consumer.as_mut() else {
        return None;
    };
    let End::Consumer(consumer) = &mut **end else {
        return None;
    };
    Some(consumer.take_clock(clock))
}
