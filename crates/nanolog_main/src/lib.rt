//! The program `nanolog` but for its `main`: its words, its files and its outputs.
#![tactic(auto)]

ghost use Rattle.std.specs.Prelude.{◌≡◌, ℕ, Option, None};
ghost use Rattle.cli_words.specs.Commands.{Command};
ghost use Rattle.command_base.specs.Endings.{Ending, status_of};
ghost use Rattle.command_base.specs.Printing.{Tells};
ghost use Rattle.command_base.specs.Scenes.{Scene};
ghost use Rattle.nanolog_cli.specs.Outcomes.{Answers};
ghost use Rattle.nanolog_main.specs.System.{untold_scene};

mod ended;

pub use ended::Ended;
use ended::run_words;
use nl_io::{StdFiles, StdSink};
use std::rt::{self, Env, Stderr, Stdout};
use std::sync::Wait;
use std::thread::Threads;

/// Runs the program over the files of the system. What these hold, and what the outputs get, is told to no contract:
/// the answer is that of a command over a system of which nothing else is told.
pub fn run<R>(rt: R, out: Stdout, err: Stderr) -> Ended
where
    R: rt::Files + Env + AllocGlobal + Threads + Wait + Copy + Send + Drop + 'static,
    ensures ends { (command : Option Command) × (ending : Ending) × (after : Scene) × (failed : ℕ)
        × (result ≡ status_of ending) × Answers command untold_scene after ending
        × Tells ending None None 0 failed }
{
    let mut files = StdFiles::make(rt, rt.alloc());
    let mut out = StdSink::make(out);
    let mut err = StdSink::make(err);
    run_words(&rt, rt, &mut files, &mut out, &mut err)
}
