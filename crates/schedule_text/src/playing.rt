//! A schedule that is played: its steps are made, and what becomes of the rings is printed.

ghost use Rattle.std.specs.Prelude.{◌≡◌, ◌≤◌, [], length, IfOk, IfErr, OnOk};
ghost use Rattle.session_options.specs.declared.limits.TheConstants.{MIN_RING};
ghost use Rattle.ring_machine.specs.declared.rings.TheConstants.{MAX_RINGS};
ghost use Rattle.ring_machine.specs.Rings.{new_rings};
ghost use Rattle.schedule_text.specs.declared.head_line.TheConstants.{MAX_WORDS};
ghost use Rattle.schedule_text.specs.Judged.{steps_judged, judged};
ghost use Rattle.schedule_text.specs.Playing.{Reached, StopsInHead, RunsSteps, Plays};

use crate::cause::ScheduleCause;
use crate::head_line::read_sizes;
use crate::printing::{put_end, put_step};
use crate::stepping::go_on;
use nl_io::{Sink, TextWriter};
use ring_machine::Rings;
use std::alloc::Global;

/// The most steps of a schedule.
pub const MAX_STEPS: u64 = 1_000_000;

/// So many bytes decide what a schedule comes to: no schedule that is played to its end has as many, and no line does
/// of which it isn't clear, in front of them, what it is.
pub const MAX_TEXT: usize = 65_000_200;

/// The first line of a schedule, with its line feed.
const FIRST_LINE: &[u8] = b"nanolog-schedule 1\n";

/// Why a schedule wasn't played to its end.
#[derive(Clone, Copy, Debug, PartialEq, Eq)]
pub enum ScheduleFault {
    /// A line is refused, counted from 1.
    Refused { line: u64, cause: ScheduleCause },
    WriteFault,
    NoMemory,
}

/// The rings of a schedule, and the lines of its steps.
#[derive(Clone, Copy)]
struct Head<'a> {
    rings: u32,
    words: u64,
    steps: &'a [u8],
}

/// That one of the first two lines is refused.
fn refused(line: u64) -> ScheduleFault
    ensures { result ≡ ScheduleFault.Refused line ScheduleCause.Header }
{
    ScheduleFault::Refused {
        line,
        cause: ScheduleCause::Header,
    }
}

/// What the first two lines say.
fn head_of(text: &[u8]) -> Result<Head<'_>, ScheduleFault>
    ensures rings { IfOk result (λ head. (1 ≤ head.rings) × (head.rings ≤ MAX_RINGS)) }
    ensures words { IfOk result (λ head. (MIN_RING ≤ head.words) × (head.words ≤ MAX_WORDS)) }
    ensures steps { IfOk result (λ head. judged text.now
        ≡ steps_judged MAX_STEPS (new_rings head.rings head.words) 0 head.steps.now) }
    ensures stops { IfErr result (StopsInHead (judged text.now)) }
{
    let Some(rest) = text.strip_prefix(FIRST_LINE) else {
        return Err(refused(1));
    };
    let Some(((rings, words), steps)) = read_sizes(rest) else {
        return Err(refused(2));
    };
    Ok(Head {
        rings,
        words,
        steps,
    })
}

/// Makes the steps of the lines, and puts the line of each.
fn run_steps<O: Sink>(
    out: &mut O,
    writer: &mut TextWriter,
    rings: &mut Rings,
    text: &[u8],
) -> Result<(), ScheduleFault>
    requires empty { writer.old ≡ [] }
    requires reached { Reached 0 rings.old }
    ensures runs { RunsSteps (steps_judged MAX_STEPS rings.old 0 text.now) rings.new (O.put out.old) (O.put out.new)
        (O.faults out.old) (O.faults out.new) writer.new result }
    ensures few { OnOk result (length rings.new ≤ MAX_RINGS) }
    ensures others { O.rest out.old out.new }
{
    let mut rest = text;
    let mut made = 0;
    while !rest.is_empty() {
        let next = match go_on(rings, made, rest) {
            Ok(next) => next,
            Err(fault) => return Err(fault),
        };
        made += 1;
        match put_step(out, writer, made, next.ring, next.step, &next.view) {
            Ok(()) => {}
            Err(_) => return Err(ScheduleFault::WriteFault),
        }
        rest = next.rest;
    }
    Ok(())
}

/// Makes the steps of the lines in new rings, and prints the line of each, and then those of the rings.
fn play_in<O: Sink>(out: &mut O, rings: &mut Rings, text: &[u8]) -> Result<(), ScheduleFault>
    requires reached { Reached 0 rings.old }
    ensures plays { Plays (steps_judged MAX_STEPS rings.old 0 text.now) (O.put out.old) (O.put out.new)
        (O.faults out.old) (O.faults out.new) result }
    ensures others { O.rest out.old out.new }
{
    let mut writer = TextWriter::make();
    match run_steps(out, &mut writer, rings, text) {
        Ok(()) => match put_end(out, &mut writer, rings) {
            Ok(()) => Ok(()),
            Err(_) => Err(ScheduleFault::WriteFault),
        },
        Err(ScheduleFault::Refused { line, cause }) => match writer.flush(out) {
            Ok(()) => Err(ScheduleFault::Refused { line, cause }),
            Err(_) => Err(ScheduleFault::WriteFault),
        },
        Err(fault) => Err(fault),
    }
}

/// Makes the steps of a schedule, one line after the other. For each step it prints its number, what it is, and the
/// positions of its ring behind it; behind the last one, how many frames each ring has sent and got, and how far it is
/// closed. The memory that it takes doesn't grow with what it prints.
///
/// # Errors
///
/// `Refused` comes behind the lines of the steps before the refused line, and `WriteFault` behind a front of the lines,
/// as `NoMemory` may.
pub fn play<O: Sink>(alloc: Global, text: &[u8], out: &mut O) -> Result<(), ScheduleFault>
    ensures plays { Plays (judged text.now) (O.put out.old) (O.put out.new) (O.faults out.old) (O.faults out.new)
        result }
    ensures others { O.rest out.old out.new }
{
    let head = match head_of(text) {
        Ok(head) => head,
        Err(fault) => return Err(fault),
    };
    let Ok(mut rings) = Rings::make(alloc, head.rings, head.words) else {
        return Err(ScheduleFault::NoMemory);
    };
    play_in(out, &mut rings, head.steps)
}
