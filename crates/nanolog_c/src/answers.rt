//! The numbers that the calls answer.

ghost use Rattle.std.specs.Prelude.{◌≡◌, ◌<◌, ◌^◌, ℤ, IfSome};
ghost use Rattle.log_ends.specs.Consumers.{IfGave};
ghost use Rattle.nanolog_c.specs.Codes.{
  open_code,
  line_after,
  writer_code,
  limit_code,
  log_code,
  need_after,
  room_after,
  finish_code,
  end_code,
  pump_code,
  clock_code,
  part_code,
};

use log_ends::{LogFault, OpenFault, PartRefusal, Pumped, WriterFault};
use roaming_consumer::ClockRefusal;

/// Done.
pub(crate) const DONE: i32 = 0;

pub(crate) const FULL: i32 = 1;

pub(crate) const TOO_LONG: i32 = 2;

pub(crate) const MISFIT: i32 = 3;

pub(crate) const EARLY: i32 = 4;

pub(crate) const FINISHED: i32 = 5;

pub(crate) const WORN_OUT: i32 = 6;

pub(crate) const NO_WRITER: i32 = 1;

pub(crate) const REACHED: i32 = 1;

/// The part is being ended already.
pub(crate) const ENDING: i32 = 1;

/// The part is the last one.
pub(crate) const LAST_PART: i32 = 5;

pub(crate) const NO_MEMORY: i32 = -1;

pub(crate) const BAD_DICTIONARY: i32 = -2;

pub(crate) const OUT_OF_RANGE: i32 = -3;

pub(crate) const BAD_HANDLE: i32 = -4;

/// What is asked for is no text.
pub(crate) const NO_TEXT: i32 = -5;

/// The version of the calls.
pub(crate) const VERSION: i32 = 1;

/// What a pump answers where nothing waits.
pub(crate) const NOTHING: i64 = 0;

pub(crate) const AT_END: i64 = -1;

pub(crate) const PART_OVER: i64 = -2;

pub(crate) const NO_ROOM: i64 = -3;

pub(crate) const NO_CONSUMER: i64 = -4;

/// What the opening of a session answers. It writes a line where the dictionary is refused.
pub(crate) fn open_answer(outcome: Option<Result<(), OpenFault>>, line: &mut u64) -> i32
    ensures code { result ≡ open_code outcome }
    ensures line { line.new ≡ line_after outcome line.old }
{
    match outcome {
        Some(Ok(())) => DONE,
        Some(Err(OpenFault::OutOfRange)) => OUT_OF_RANGE,
        Some(Err(OpenFault::BadDictionary { line: refused })) => {
            *line = refused;
            BAD_DICTIONARY
        }
        Some(Err(OpenFault::NoMemory)) => NO_MEMORY,
        None => BAD_HANDLE,
    }
}

/// What the giving out of a writer answers.
pub(crate) fn writer_answer(outcome: Option<Result<(), WriterFault>>) -> i32
    ensures { result ≡ writer_code outcome }
{
    match outcome {
        Some(Ok(())) => DONE,
        Some(Err(WriterFault::NoWriter)) => NO_WRITER,
        Some(Err(WriterFault::NoMemory)) => NO_MEMORY,
        None => BAD_HANDLE,
    }
}

/// What is answered of the limit of a text.
pub(crate) fn limit_answer(outcome: Option<Option<u16>>) -> i32
    ensures { result ≡ limit_code outcome }
{
    match outcome {
        Some(Some(limit)) => i32::from(limit),
        Some(None) => NO_TEXT,
        None => BAD_HANDLE,
    }
}

/// What a call that was logged answers, or wasn't. It writes how many words were wanted, and how many were free, where
/// there was too little room.
pub(crate) fn log_answer(
    outcome: Option<Result<(), LogFault>>,
    need: &mut u64,
    room: &mut u64,
) -> i32
    ensures code { result ≡ log_code outcome }
    ensures need { need.new ≡ need_after outcome need.old }
    ensures room { room.new ≡ room_after outcome room.old }
{
    match outcome {
        Some(Ok(())) => DONE,
        Some(Err(LogFault::Full(full))) => {
            *need = full.need;
            *room = full.room;
            FULL
        }
        Some(Err(LogFault::TooLong)) => TOO_LONG,
        Some(Err(LogFault::Misfit)) => MISFIT,
        Some(Err(LogFault::Early)) => EARLY,
        Some(Err(LogFault::Finished)) => FINISHED,
        Some(Err(LogFault::WornOut)) => WORN_OUT,
        None => BAD_HANDLE,
    }
}

/// What the finishing of a writer answers.
pub(crate) fn finish_answer(outcome: Option<bool>) -> i32
    ensures { result ≡ finish_code outcome }
{
    match outcome {
        Some(true) => DONE,
        Some(false) => FINISHED,
        None => BAD_HANDLE,
    }
}

/// What the ending of a session answers.
pub(crate) fn end_answer(is_session: bool) -> i32
    ensures { result ≡ end_code is_session }
{
    if is_session { DONE } else { BAD_HANDLE }
}

/// What a pump answers.
pub(crate) fn pump_answer(outcome: Option<Pumped>) -> i64
    requires { IfSome outcome (λ answer. IfGave answer (λ n. n < 2 ^ 63)) }
    ensures { result ≡ pump_code outcome }
{
    match outcome {
        Some(Pumped::Gave(count)) => count as i64,
        Some(Pumped::NoRoom) => NO_ROOM,
        Some(Pumped::Nothing) => NOTHING,
        Some(Pumped::PartOver) => PART_OVER,
        Some(Pumped::AtEnd) => AT_END,
        None => NO_CONSUMER,
    }
}

/// What is answered of a clock.
pub(crate) fn clock_answer(outcome: Option<Result<(), ClockRefusal>>) -> i32
    ensures { result ≡ clock_code outcome }
{
    match outcome {
        Some(Ok(())) => DONE,
        Some(Err(ClockRefusal::Misfit)) => OUT_OF_RANGE,
        Some(Err(ClockRefusal::Reached)) => REACHED,
        None => BAD_HANDLE,
    }
}

/// What the ending of a part answers.
pub(crate) fn part_answer(outcome: Option<Result<(), PartRefusal>>) -> i32
    ensures { result ≡ part_code outcome }
{
    match outcome {
        Some(Ok(())) => DONE,
        Some(Err(PartRefusal::AtEnd)) => LAST_PART,
        Some(Err(PartRefusal::Ending)) => ENDING,
        None => BAD_HANDLE,
    }
}
