//! How the program ended, which nothing else can make than a run of it.

ghost use Rattle.std.specs.Prelude.{◌≡◌, Option};
ghost use Rattle.std.specs.Process.{exit_status};
ghost use Rattle.cli_words.specs.Commands.{Command};
ghost use Rattle.command_base.specs.Endings.{Ending, NoMemory, status_of};
ghost use Rattle.command_base.specs.declared.status.Status.TheVariants.{NoMemory as IsNoMemory};
ghost use Rattle.nanolog_cli.specs.Outcomes.{Answers};
ghost use Rattle.command_base.specs.Printing.{Tells};
ghost use Rattle.command_base.specs.Scenes.{scene};
ghost use Rattle.command_base.specs.Statuses.{status_number};

use command_base::{Refusal, say_end};
use nanolog_cli::{Status, nanolog};
use nl_io::{Files, Sink};
use std::env;
use std::io::{self, Eprint, ErrorKind};
use std::marker::Model;
use std::process::{ExitCode, Termination};
use std::rt::Env;
use std::sync::{Arc, Wait};
use std::thread::Threads;
use trace_session::FreeGate;

/// How the program ended. Only `run_words` makes one, and it can't be let go, so that `main` ends with what it answers.
pub struct Ended {
    status: Status,
}

impl Model for Ended {
    ghost use Rattle.command_base.specs.declared.status.Status.{Status};

    ghost Value = { Status };

    ghost view = { λ ended. ended.status };
}

impl Termination for Ended {
    fn report<R: Eprint>(self, _rt: &R) -> ExitCode
        ensures { exit_status result ≡ status_number self }
    {
        let Ended { status } = self;
        ExitCode::from(status.number())
    }
}

/// The words after the program's name. Where one of them isn't UTF-8 there are none, as no command has such a word.
fn words_of(rt: &(impl Env + AllocGlobal)) -> io::Result<Vec<String>> {
    match env::args(rt) {
        Ok(args) => Ok(args.skip(1).collect(rt.alloc())?),
        Err(error) if error.kind() == ErrorKind::InvalidData => Ok(Vec::new(rt.alloc())),
        Err(error) => Err(error),
    }
}

/// The words, and the gate of the threads. There are none where memory is wanting.
fn words_and_gate(rt: &(impl Env + AllocGlobal)) -> io::Result<(Vec<String>, Arc<FreeGate>)> {
    Ok((words_of(rt)?, Arc::new(rt.alloc(), FreeGate)?))
}

/// Says that memory is wanting.
fn want_memory<E: Sink>(err: &mut E) -> Status
    ensures status { result ≡ IsNoMemory }
    ensures told { Tells NoMemory (E.put err.old) (E.put err.new) (E.faults err.old) (E.faults err.new) }
{
    say_end(err, Err(Refusal::NoMemory))
}

/// Does what the words after the program's name ask for. Which words these are is told to no contract.
pub(crate) fn run_words<P, R, F, O, E>(
    process: &P,
    rt: R,
    files: &mut F,
    out: &mut O,
    err: &mut E,
) -> Ended
where
    P: Env + AllocGlobal,
    R: Threads + Wait + Copy + Send + 'static,
    F: Files,
    O: Sink,
    E: Sink,
    // It ends as a command does, or as words that spell none, or memory was wanting for the words.
    ensures ends { (command : Option Command) × (ending : Ending) × (result ≡ status_of ending)
        × Answers command (scene (F.desk files.old) (O.put out.old) (O.faults out.old))
        (scene (F.desk files.new) (O.put out.new) (O.faults out.new)) ending
        × Tells ending (E.put err.old) (E.put err.new) (E.faults err.old) (E.faults err.new) }
{
    let Ok((words, gate)) = words_and_gate(process) else {
        return Ended {
            status: want_memory(err),
        };
    };
    Ended {
        status: nanolog(rt, process.alloc(), &words, files, out, err, &gate),
    }
}
