//! The words on the standard error.

ghost use Rattle.std.specs.Prelude.{◌≡◌, ◌++◌, codes};
ghost use Rattle.nl_io.specs.TextWriters.{text_of_pieces};
ghost use Rattle.command_base.specs.Endings.{StillOpen, told_cause, status_of, refusal_ending, note_ending, answer_ending};
ghost use Rattle.command_base.specs.Words.{fault_words, words_of};
ghost use Rattle.command_base.specs.Printing.{Says, Tells};

use crate::note::Note;
use crate::output::put_pieces;
use crate::refusal::{Refusal, ToldCause};
use crate::status::Status;
use itoa::Buffer;
use nl_io::{Sink, write_all};

/// Writes the pieces, one behind the other.
fn say_pieces<E: Sink>(err: &mut E, pieces: &[&str])
    ensures said { Says (text_of_pieces pieces.now) (E.put err.old) (E.put err.new)
        (E.faults err.old) (E.faults err.new) }
    ensures others { E.rest err.old err.new }
{
    // That they can't be written changes nothing else.
    let _ = put_pieces(err, pieces);
}

/// Writes what is wrong with a file: its name, a place behind a colon, what it is there, and the cause.
fn say_cause<'a, E: Sink>(
    err: &mut E,
    name: &'a str,
    colon: &'a str,
    place: &'a str,
    what: &'a str,
    number: &'a str,
    cause: &'a str,
)
    ensures said { Says (codes "nanolog: " ++ name.now ++ (colon.now ++ place.now) ++ what.now ++ number.now
        ++ codes " " ++ cause.now ++ codes "\n") (E.put err.old) (E.put err.new) (E.faults err.old)
        (E.faults err.new) }
    ensures others { E.rest err.old err.new }
{
    say_pieces(
        err,
        &[
            "nanolog: ",
            name,
            colon,
            place,
            what,
            number,
            " ",
            cause,
            "\n",
        ],
    )
}

/// Writes what is wrong with a file, at a place where one is told.
fn say_fault<E: Sink>(err: &mut E, name: &str, place: Option<u64>, what: &str, cause: ToldCause)
    ensures said { Says (fault_words name.now place what.now (told_cause cause)) (E.put err.old) (E.put err.new)
        (E.faults err.old) (E.faults err.new) }
    ensures others { E.rest err.old err.new }
{
    let mut place_digits = Buffer::new();
    let mut number_digits = Buffer::new();
    let number = number_digits.format(cause.number);
    match place {
        Some(place) => {
            let place = place_digits.format(place);
            say_cause(err, name, ":", place, what, number, cause.name)
        }
        None => say_cause(err, name, "", "", what, number, cause.name),
    }
}

/// Writes that writers of a log are still open.
fn say_open<'a, E: Sink>(err: &mut E, log: &'a str, numbers: &'a str)
    ensures said { Says (words_of (StillOpen log.now numbers.now)) (E.put err.old) (E.put err.new)
        (E.faults err.old) (E.faults err.new) }
    ensures others { E.rest err.old err.new }
{
    say_pieces(
        err,
        &["nanolog: ", log, ": writers still open:", numbers, "\n"],
    )
}

/// Writes lines that were made before.
fn say_lines<E: Sink>(err: &mut E, lines: &[u8])
    ensures said { Says lines.now (E.put err.old) (E.put err.new) (E.faults err.old) (E.faults err.new) }
    ensures others { E.rest err.old err.new }
{
    // That they can't be written changes nothing else.
    let _ = write_all(err, lines);
}

/// Writes the words that go with a refusal. That they can't be written changes nothing else.
pub fn say<E: Sink>(err: &mut E, refusal: &Refusal<'_>)
    ensures said { Says (words_of (refusal_ending refusal.now)) (E.put err.old) (E.put err.new)
        (E.faults err.old) (E.faults err.new) }
    ensures others { E.rest err.old err.new }
{
    match refusal {
        Refusal::Usage { lines } => say_lines(err, lines),
        Refusal::Absent(name) => say_pieces(err, &["nanolog: ", name, ": absent\n"]),
        Refusal::ReadFault(name) => say_pieces(err, &["nanolog: ", name, ": read fault\n"]),
        Refusal::Refused { name, line, cause } => {
            say_fault(err, name, *line, ": refused: ", *cause)
        }
        Refusal::RefusedSources { lines } => say_lines(err, lines),
        Refusal::Damaged {
            name,
            offset,
            cause,
        } => say_fault(err, name, Some(*offset), ": damaged: ", *cause),
        Refusal::WriteFault(name) => say_pieces(err, &["nanolog: ", name, ": write fault\n"]),
        Refusal::NoMemory => say_pieces(err, &["nanolog: want of memory\n"]),
    }
}

/// Writes a note, if there is one. That it can't be written changes nothing else.
pub fn say_note<E: Sink>(err: &mut E, note: &Note<'_>)
    ensures said { Tells (note_ending note.now) (E.put err.old) (E.put err.new) (E.faults err.old) (E.faults err.new) }
    ensures others { E.rest err.old err.new }
{
    match note {
        Note::Nothing => {}
        Note::StillOpen { log, numbers } => say_open(err, log, numbers),
    }
}

/// Says how a command ended, and answers that as a status.
pub fn say_end<E: Sink>(err: &mut E, answer: Result<Note<'_>, Refusal<'_>>) -> Status
    ensures status { result ≡ status_of (answer_ending answer.entry) }
    ensures told { Tells (answer_ending answer.entry) (E.put err.old) (E.put err.new) (E.faults err.old)
        (E.faults err.new) }
    ensures others { E.rest err.old err.new }
{
    match answer {
        Ok(note) => {
            say_note(err, &note);
            Status::Done
        }
        Err(refusal) => {
            say(err, &refusal);
            refusal.status()
        }
    }
}
