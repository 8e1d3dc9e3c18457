//! Traces that are generated.

ghost use Rattle.std.specs.Prelude.{◌≡◌, ◌<◌, ◌≤◌, ◌++◌, ◌∷◌, [], List, IfOk, OnOk};
ghost use Rattle.std.specs.List.{AllByRecursion};
ghost use Rattle.printf_grammar.specs.declared.piece.Piece.{Piece};
ghost use Rattle.printf_grammar.specs.Spelling.{Spells};
ghost use Rattle.session_options.specs.declared.limits.TheConstants.{MAX_GENERATED_WRITERS, MAX_GENERATED};
ghost use Rattle.trace_generator.specs.Generated.{generated_message, generated_messages, Generated};

use crate::generator::{FIRST_TICK, Generator};
use log_dictionary::{Clock, Clocks, Dictionary, Message, Severity};
use printf_grammar::{Bytes, ParseFault, parse};
use std::alloc::{AllocError, Global};
use trace_text::{Trace, WriterCalls};

/// The version of the traces that are generated.
const VERSION: u8 = 1;

const CLOCK: Clock = Clock {
    tick: FIRST_TICK,
    nanos: 1_514_764_800_000_000_000,
    rate: 2_000_000_000,
};

// A message of the generated program.
fn message_of(
    alloc: Global,
    severity: Severity,
    line: u32,
    format: &[u8],
) -> Result<Message, AllocError>
    requires { (pieces : List Piece) × Spells format.now pieces }
    ensures { IfOk result (λ message. (pieces : List Piece) → Spells format.now pieces
        → message ≡ generated_message severity line format.now pieces) }
{
    let format = match parse(alloc, format) {
        Ok(format) => format,
        Err(ParseFault::NoMemory) => return Err(AllocError),
        Err(ParseFault::Bad { .. }) => unreachable!(),
    };
    Ok(Message {
        file: Bytes::from_slice(alloc, b"gen.cc")?,
        line,
        severity,
        format,
    })
}

// Adds a message that stands on another line than those before.
fn add_message(
    alloc: Global,
    dictionary: &mut Dictionary,
    severity: Severity,
    line: u32,
    format: &[u8],
) -> Result<(), AllocError>
    requires spelled { (pieces : List Piece) × Spells format.now pieces }
    requires later { AllByRecursion (λ message. message.line < line) dictionary.old }
    ensures { OnOk result ((pieces : List Piece) → Spells format.now pieces →
        dictionary.new ≡ dictionary.old ++ generated_message severity line format.now pieces ∷ []) }
{
    let message = message_of(alloc, severity, line, format)?;
    match dictionary.add(message) {
        Ok(_) => Ok(()),
        Err(_) => Err(AllocError),
    }
}

// The four messages.
fn messages(alloc: Global) -> Result<Dictionary, AllocError>
    ensures { IfOk result (λ dictionary. dictionary ≡ generated_messages) }
{
    let mut messages = Dictionary::make(alloc);
    add_message(
        alloc,
        &mut messages,
        Severity::Error,
        10,
        b"disk %u failed at %#lx",
    )?;
    add_message(
        alloc,
        &mut messages,
        Severity::Warning,
        20,
        b"queue %s is %d%% full",
    )?;
    add_message(
        alloc,
        &mut messages,
        Severity::Notice,
        30,
        b"request %llu took %5d us",
    )?;
    add_message(alloc, &mut messages, Severity::Debug, 40, b"state %c")?;
    Ok(messages)
}

/// The trace of a seed, with so many calls of so many writers: calls of four messages, whose stamps and arguments are
/// drawn one after the other. The writers take turns.
pub fn generate(alloc: Global, seed: u64, calls: u32, writers: u32) -> Result<Trace, AllocError>
    requires few_calls { calls ≤ MAX_GENERATED }
    requires some_writer { 1 ≤ writers }
    requires few_writers { writers ≤ MAX_GENERATED_WRITERS }
    ensures { IfOk result (λ trace. trace ≡ Generated seed calls writers) }
{
    let mut trace = Trace {
        version: VERSION,
        dictionary: messages(alloc)?,
        clocks: Clocks::make(alloc, CLOCK)?,
        writers: WriterCalls::without_calls(alloc, writers)?,
    };
    let mut generator = Generator::of_seed(seed);
    for k in 0..calls {
        let call = generator.next_call(alloc)?;
        trace.push_call(k % writers, call)?;
    }
    Ok(trace)
}
