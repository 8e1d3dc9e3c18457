//! The calls.

ghost use Rattle.std.specs.Prelude.{◌≡◌, ℕ, ℤ, pos, Some, None, Result, map, option_map};
ghost use Rattle.log_ends.specs.declared.opening.OpenFault.{OpenFault};
ghost use Rattle.log_ends.specs.declared.session.WriterFault.{WriterFault};
ghost use Rattle.log_ends.specs.declared.writer.LogFault.{LogFault};
ghost use Rattle.log_ends.specs.declared.consumer.Pumped.{Pumped};
ghost use Rattle.log_ends.specs.Arguments.{argument_given};
ghost use Rattle.log_ends.specs.Writers.{LogsCall, FinishesWriter};
ghost use Rattle.log_ends.specs.Sessions.{session_messages, EndsSession};
ghost use Rattle.log_ends.specs.Texts.{text_limit};
ghost use Rattle.roaming_consumer.specs.declared.clocks.ClockRefusal.{ClockRefusal};
ghost use Rattle.log_ends.specs.Consumers.{Pumps};
ghost use Rattle.log_ends.specs.Clocking.{TakesClock};
ghost use Rattle.log_ends.specs.declared.parting.PartRefusal.{PartRefusal};
ghost use Rattle.log_ends.specs.Parting.{EndsLog};
ghost use Rattle.log_ends.specs.Slots.{session_in, OnWriter, OnSession, OnConsumer, GivesInto, OpensInto};
ghost use Rattle.nanolog_c.specs.declared.answers.TheConstants.{DONE, BAD_HANDLE, NO_CONSUMER};
ghost use Rattle.nanolog_c.specs.Codes.{
  open_code,
  line_after,
  writer_code,
  limit_code,
  log_code,
  need_after,
  room_after,
  finish_code,
  pump_code,
  clock_code,
  part_code,
};

use crate::answers::{
    VERSION, clock_answer, end_answer, finish_answer, limit_answer, log_answer, open_answer,
    part_answer, pump_answer, writer_answer,
};
use crate::handle::Handle;
use log_dictionary::Clock;
use log_ends::{
    CArgument, Setup, end_part, end_session, finish_writer, give_writer, log_call, open_into,
    pump_log, tell_clock, text_limit_of,
};
use std::alloc::Global;

/// Tells the version of the calls. Its name has the version too, so that a header of another one doesn't link.
#[unsafe(no_mangle)]
pub extern "C" fn nanolog_version_1() -> i32
    ensures { result ≡ pos 1 }
{
    VERSION
}

/// Opens a session.
#[unsafe(no_mangle)]
pub extern "C" fn nanolog_open(
    alloc: Global,
    dictionary: &[u8],
    ring: u64,
    writers: u32,
    batch: u32,
    tick: u64,
    nanos: u64,
    rate: u64,
    session: &mut Handle,
    consumer: &mut Handle,
    line: &mut u64,
) -> i32
    ensures free { session.old.value ≡ None → consumer.old.value ≡ None
        → (outcome : Result (Unit {0}) OpenFault) × (result ≡ open_code (Some outcome))
        × (line.new ≡ line_after (Some outcome) line.old)
        × OpensInto dictionary.now (record {
          ring = ring;
          writers = writers;
          batch = batch;
          clock = record { tick = tick; nanos = nanos; rate = rate };
        }) outcome session.new.value consumer.new.value }
    ensures held { ¬ ((session.old.value ≡ None) × (consumer.old.value ≡ None))
        → (result ≡ BAD_HANDLE) × (session.new.value ≡ session.old.value)
        × (consumer.new.value ≡ consumer.old.value) × (line.new ≡ line.old) }
{
    let clock = Clock { tick, nanos, rate };
    let setup = Setup {
        ring,
        writers,
        batch,
        clock,
    };
    let mut ours = session.take(alloc);
    let mut theirs = consumer.take(alloc);
    let outcome = open_into(alloc, dictionary, setup, &mut ours, &mut theirs);
    session.put(alloc, ours);
    consumer.put(alloc, theirs);
    open_answer(outcome, line)
}

/// Gives out the next writer.
#[unsafe(no_mangle)]
pub extern "C" fn nanolog_writer(alloc: Global, session: &mut Handle, writer: &mut Handle) -> i32
    ensures free { writer.old.value ≡ None → OnSession session.old.value session.new.value (λ old new.
        (outcome : Result (Unit {0}) WriterFault) × (result ≡ writer_code (Some outcome))
        × GivesInto old new outcome writer.new.value)
        ((result ≡ BAD_HANDLE) × (writer.new.value ≡ None)) }
    ensures held { ¬ (writer.old.value ≡ None)
        → (result ≡ BAD_HANDLE) × (session.new.value ≡ session.old.value) × (writer.new.value ≡ writer.old.value) }
{
    let mut ours = session.take(alloc);
    let mut next = writer.take(alloc);
    let outcome = give_writer(alloc, &mut ours, &mut next);
    session.put(alloc, ours);
    writer.put(alloc, next);
    writer_answer(outcome)
}

/// Tells how many bytes of a text a message prints.
#[unsafe(no_mangle)]
pub extern "C" fn nanolog_text_limit(alloc: Global, session: &mut Handle, id: u32, nth: u32) -> i32
    ensures limit { result ≡ limit_code (option_map (λ ours. text_limit (session_messages ours) id nth)
        (session_in session.old.value)) }
    ensures same { session.new.value ≡ session.old.value }
{
    let end = session.take(alloc);
    let outcome = text_limit_of(&end, id, nth);
    session.put(alloc, end);
    limit_answer(outcome)
}

/// Logs a call.
#[unsafe(no_mangle)]
pub extern "C" fn nanolog_log(
    alloc: Global,
    writer: &mut Handle,
    stamp: u64,
    id: u32,
    args: &[CArgument<'_>],
    need: &mut u64,
    room: &mut u64,
) -> i32
    ensures { OnWriter writer.old.value writer.new.value (λ old new.
        (outcome : Result (Unit {0}) LogFault) × (result ≡ log_code (Some outcome))
        × (need.new ≡ need_after (Some outcome) need.old) × (room.new ≡ room_after (Some outcome) room.old)
        × LogsCall old stamp id (map argument_given args.now) outcome new)
        ((result ≡ BAD_HANDLE) × (need.new ≡ need.old) × (room.new ≡ room.old)) }
{
    let mut end = writer.take(alloc);
    let outcome = log_call(&mut end, stamp, id, args);
    writer.put(alloc, end);
    log_answer(outcome, need, room)
}

/// Finishes a writer.
#[unsafe(no_mangle)]
pub extern "C" fn nanolog_finish(alloc: Global, writer: &mut Handle) -> i32
    ensures { OnWriter writer.old.value writer.new.value (λ old new.
        (outcome : _) × (result ≡ finish_code (Some outcome)) × FinishesWriter old outcome new) (result ≡ BAD_HANDLE) }
{
    let mut end = writer.take(alloc);
    let outcome = finish_writer(&mut end);
    writer.put(alloc, end);
    finish_answer(outcome)
}

/// Ends a session.
#[unsafe(no_mangle)]
pub extern "C" fn nanolog_end(alloc: Global, session: &mut Handle) -> i32
    ensures { OnSession session.old.value session.new.value (λ old new. (result ≡ DONE) × EndsSession old new)
        (result ≡ BAD_HANDLE) }
{
    let mut end = session.take(alloc);
    let is_session = end_session(&mut end);
    session.put(alloc, end);
    end_answer(is_session)
}

/// Gives the next bytes of the log.
#[unsafe(no_mangle)]
pub extern "C" fn nanolog_pump(alloc: Global, consumer: &mut Handle, into: &mut [u8]) -> i64
    ensures { OnConsumer consumer.old.value consumer.new.value (λ old new.
        (answer : Pumped) × (result ≡ pump_code (Some answer)) × Pumps old into.old answer new into.new)
        ((result ≡ NO_CONSUMER) × (into.new ≡ into.old)) }
{
    let mut end = consumer.take(alloc);
    let outcome = pump_log(&mut end, into);
    consumer.put(alloc, end);
    pump_answer(outcome)
}

/// Tells a further clock.
#[unsafe(no_mangle)]
pub extern "C" fn nanolog_clock(
    alloc: Global,
    consumer: &mut Handle,
    tick: u64,
    nanos: u64,
    rate: u64,
) -> i32
    ensures { OnConsumer consumer.old.value consumer.new.value (λ old new.
        (outcome : Result (Unit {0}) ClockRefusal) × (result ≡ clock_code (Some outcome))
        × TakesClock old (record { tick = tick; nanos = nanos; rate = rate }) outcome new)
        (result ≡ BAD_HANDLE) }
{
    let mut end = consumer.take(alloc);
    let outcome = tell_clock(&mut end, Clock { tick, nanos, rate });
    consumer.put(alloc, end);
    clock_answer(outcome)
}

/// Ends the part of the log that is given.
#[unsafe(no_mangle)]
pub extern "C" fn nanolog_next_part(alloc: Global, consumer: &mut Handle) -> i32
    ensures { OnConsumer consumer.old.value consumer.new.value (λ old new.
        (outcome : Result (Unit {0}) PartRefusal) × (result ≡ part_code (Some outcome)) × EndsLog old outcome new)
        (result ≡ BAD_HANDLE) }
{
    let mut end = consumer.take(alloc);
    let outcome = end_part(&mut end);
    consumer.put(alloc, end);
    part_answer(outcome)
}

/// Gives up a handle.
#[unsafe(no_mangle)]
pub extern "C" fn nanolog_free(alloc: Global, handle: Handle) {
    drop(handle.into_box(alloc));
}
