//! What the program does, from its words to its answer.

ghost use Rattle.std.specs.Prelude.{◌≡◌, ◌⊎◌, ℕ, List, Some};
ghost use Rattle.cli_words.specs.Commands.{Replay, command_of as command_spelled, texts_of};
ghost use Rattle.cli_words.specs.CommandViews.{command_is};
ghost use Rattle.cli_words.specs.Rows.{IsLawful};
ghost use Rattle.cli_words.specs.Usage.{usage_text};
ghost use Rattle.command_base.specs.Endings.{Ending, Usage, NoMemory as WantsMemory};
ghost use Rattle.command_base.specs.Endings.{status_of, refusal_ending, ending_of, answer_ending};
ghost use Rattle.command_base.specs.Printing.{Tells};
ghost use Rattle.command_base.specs.Scenes.{scene};
ghost use Rattle.trace_text.specs.Recordings.{Recording};
ghost use Rattle.trace_session.specs.declared.drops.Dropped.{Dropped};
ghost use Rattle.session_options.specs.declared.options.Options.{Options};
ghost use Rattle.session_commands.specs.Headline.{Headline};
ghost use Rattle.nanolog_cli.specs.Outcomes.{quick_part, Answers};

use cli_words::{Command, command_of, usage};
use command_base::{Note, Refusal, Status, say_end};
use dictionary_commands::{header, inject};
use log_commands::{aggregate, decompress, migrate};
use nl_io::{Files, Sink};
use schedule_commands::schedule;
use session_commands::{replay, selftest};
use source_commands::preprocess;
use std::alloc::Global;
use std::sync::{Arc, Wait};
use std::thread::Threads;
use trace_commands::{direct, generate};
use trace_session::Gate;
use word_ring::WordRing;

/// The answer of a command that has nothing to tell beside its text.
fn without_note<'a>(answer: Result<(), Refusal<'a>>) -> Result<Note<'a>, Refusal<'a>>
    ensures { answer_ending result ≡ ending_of answer.entry }
{
    answer?;
    Ok(Note::Nothing)
}

/// The refusal of words that are no command.
fn no_command(alloc: Global) -> Refusal<'static>
    ensures { (refusal_ending result ≡ Usage usage_text) ⊎ (refusal_ending result ≡ WantsMemory) }
{
    match usage(alloc) {
        Ok(lines) => Refusal::Usage { lines },
        Err(_) => Refusal::NoMemory,
    }
}

/// Does what the command says, unless that may wait for others.
fn run_quick<'a, F: Files, O: Sink>(
    alloc: Global,
    command: Command<'a>,
    files: &mut F,
    out: &mut O,
) -> Result<Note<'a>, Refusal<'a>>
    requires lawful { IsLawful (command_is command) }
    ensures ends { Answers (quick_part (Some (command_is command.entry)))
        (scene (F.desk files.old) (O.put out.old) (O.faults out.old))
        (scene (F.desk files.new) (O.put out.new) (O.faults out.new)) (answer_ending result) }
    ensures files_others { F.rest files.old files.new }
    ensures out_others { O.rest out.old out.new }
{
    match command {
        Command::Preprocess {
            dictionary,
            sources,
        } => without_note(preprocess(alloc, files, dictionary, &sources, out)),
        Command::Direct { trace } => without_note(direct(alloc, files, trace, out)),
        Command::Replay { .. } | Command::Selftest { .. } => Err(no_command(alloc)),
        Command::Decompress { log } => decompress(alloc, files, log, out),
        Command::Aggregate { log, id, nth } => {
            without_note(aggregate(alloc, files, log, id, nth, out))
        }
        Command::Generate {
            seed,
            calls,
            writers,
        } => without_note(generate(alloc, seed, calls, writers, out)),
        Command::Schedule { file } => without_note(schedule(alloc, files, file, out)),
        Command::Migrate { old, new } => without_note(migrate(alloc, files, old, new, out)),
        Command::Inject {
            dictionary,
            source,
            output,
        } => without_note(inject(alloc, files, dictionary, source, output, out)),
        Command::Header { dictionary, output } => {
            without_note(header(alloc, files, dictionary, output, out))
        }
    }
}

/// Does what the command says.
fn run<'a, R, F, O, G>(
    rt: R,
    alloc: Global,
    command: Command<'a>,
    files: &mut F,
    out: &mut O,
    gate: &Arc<G, Global>,
) -> Result<Note<'a>, Refusal<'a>>
where
    R: Threads + Wait + Copy + Send + 'static,
    F: Files,
    O: Sink,
    G: Gate + 'static,
    requires lawful { IsLawful (command_is command) }
    ensures ends { Answers (Some (command_is command.entry))
        (scene (F.desk files.old) (O.put out.old) (O.faults out.old))
        (scene (F.desk files.new) (O.put out.new) (O.faults out.new)) (answer_ending result) }
    ensures files_others { F.rest files.old files.new }
    ensures out_others { O.rest out.old out.new }
{
    match command {
        Command::Replay {
            trace,
            log,
            options,
        } => without_note(replay::<R, WordRing, F, O, G>(
            rt, alloc, files, trace, log, &options, out, gate,
        )),
        Command::Selftest {
            seed,
            calls,
            writers,
        } => without_note(selftest::<R, WordRing, O, G>(
            rt, alloc, seed, calls, writers, out, gate,
        )),
        command => run_quick(alloc, command, files, out),
    }
}

/// Does what the words ask for, if they ask for something, unless that may wait for others.
fn run_quick_words<'a, F: Files, O: Sink>(
    alloc: Global,
    words: &'a [String],
    files: &mut F,
    out: &mut O,
) -> Result<Note<'a>, Refusal<'a>>
    ensures ends { Answers (quick_part (command_spelled (texts_of words.now)))
        (scene (F.desk files.old) (O.put out.old) (O.faults out.old))
        (scene (F.desk files.new) (O.put out.new) (O.faults out.new)) (answer_ending result) }
    ensures files_others { F.rest files.old files.new }
    ensures out_others { O.rest out.old out.new }
{
    match command_of(alloc, words)? {
        Some(command) => run_quick(alloc, command, files, out),
        None => Err(no_command(alloc)),
    }
}

/// Does what the words ask for, if they ask for something.
fn run_words<'a, R, F, O, G>(
    rt: R,
    alloc: Global,
    words: &'a [String],
    files: &mut F,
    out: &mut O,
    gate: &Arc<G, Global>,
) -> Result<Note<'a>, Refusal<'a>>
where
    R: Threads + Wait + Copy + Send + 'static,
    F: Files,
    O: Sink,
    G: Gate + 'static,
    ensures ends { Answers (command_spelled (texts_of words.now))
        (scene (F.desk files.old) (O.put out.old) (O.faults out.old))
        (scene (F.desk files.new) (O.put out.new) (O.faults out.new)) (answer_ending result) }
    ensures files_others { F.rest files.old files.new }
    ensures out_others { O.rest out.old out.new }
{
    match command_of(alloc, words)? {
        Some(command) => run(rt, alloc, command, files, out, gate),
        None => Err(no_command(alloc)),
    }
}

/// Does what the words after the program's name ask for, and answers how that ended.
///
/// `preprocess DICT FILE..` writes the messages of the sources, and prints how many they are, and how many statements;
/// where something of the sources is refused, all of that is told. `direct TRACE` prints the lines of all calls of the
/// trace. `replay TRACE LOG` makes the calls that the level keeps, those of each writer in a thread of its own, through
/// rings, and writes their log; it prints which calls were dropped, and how many were accepted, dropped and filtered.
/// It may wait for its threads. `decompress LOG` prints the lines of the log, up to where it is damaged, and tells of
/// writers without a close mark. `aggregate LOG ID NTH` prints how many numbers an argument of a message has in the
/// log, the least, the greatest and the sum of them, also of what stands in front of a damage. `generate SEED CALLS
/// WRITERS` prints a trace that is drawn from the seed. `selftest SEED CALLS WRITERS` makes the calls of that trace by
/// a session in memory, decompresses its log, and prints how many calls there were; it may wait for its threads too.
/// `schedule FILE` makes the steps of a schedule in rings of its own, and prints a line for each step and each ring.
/// `migrate OLD NEW` writes the log of version 2 that has what a log of version 1 has, and prints how many blocks it has.
/// `inject DICT FILE OUT` writes the source with calls by number in place of its log statements, and prints how many
/// these are; what is refused of the source is told as by `preprocess`. `header DICT OUT` writes what a program needs to
/// know of the messages of the dictionary, and prints how many they are. A file that is no trace, or no dictionary, is
/// refused, and so is a log that has no such argument, or of which no log of version 2 is made.
///
/// The gate is called by the threads of a session on their way.
pub fn nanolog<R, F, O, E, G>(
    rt: R,
    alloc: Global,
    words: &[String],
    files: &mut F,
    out: &mut O,
    err: &mut E,
    gate: &Arc<G, Global>,
) -> Status
where
    R: Threads + Wait + Copy + Send + 'static,
    F: Files,
    O: Sink,
    E: Sink,
    G: Gate + 'static,
    // The answer is the status of an end. What that says of the files and the standard output is so, and it is put into
    // words on the standard error. Where all was done nothing is said, but of writers of a log that are still open.
    ensures ends { (ending : Ending) × (result ≡ status_of ending)
        × Answers (command_spelled (texts_of words.now))
        (scene (F.desk files.old) (O.put out.old) (O.faults out.old))
        (scene (F.desk files.new) (O.put out.new) (O.faults out.new)) ending
        × Tells ending (E.put err.old) (E.put err.new) (E.faults err.old) (E.faults err.new) }

    // The headline: where the words ask for a replay and the answer is Done, its six clauses hold of one run, one list
    // of drops and one log.
    ensures headline { (trace log : List ℕ) (options : Options)
        → command_spelled (texts_of words.now) ≡ Some (Replay trace log options) → result ≡ Status.Done
        → (run : Recording) × (drops : List Dropped) × (bytes : List ℕ) × Headline trace log options
        (scene (F.desk files.old) (O.put out.old) (O.faults out.old))
        (scene (F.desk files.new) (O.put out.new) (O.faults out.new)) run drops bytes }

    // All else is as it was.
    ensures files_others { F.rest files.old files.new }
    ensures out_others { O.rest out.old out.new }
    ensures err_others { E.rest err.old err.new }
{
    say_end(err, run_words(rt, alloc, words, files, out, gate))
}

/// Does what the words after the program's name ask for, as [`nanolog`] does, but for `replay` and `selftest`: these
/// are answered as a faulty command line is, and nothing is done. It starts no thread, and waits for nobody.
pub fn quick<F: Files, O: Sink, E: Sink>(
    alloc: Global,
    words: &[String],
    files: &mut F,
    out: &mut O,
    err: &mut E,
) -> Status
    // The answer is the status of an end, as that of `nanolog` is.
    ensures ends { (ending : Ending) × (result ≡ status_of ending)
        × Answers (quick_part (command_spelled (texts_of words.now)))
        (scene (F.desk files.old) (O.put out.old) (O.faults out.old))
        (scene (F.desk files.new) (O.put out.new) (O.faults out.new)) ending
        × Tells ending (E.put err.old) (E.put err.new) (E.faults err.old) (E.faults err.new) }

    // All else is as it was.
    ensures files_others { F.rest files.old files.new }
    ensures out_others { O.rest out.old out.new }
    ensures err_others { E.rest err.old err.new }
{
    say_end(err, run_quick_words(alloc, words, files, out))
}
