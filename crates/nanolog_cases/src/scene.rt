//! Runs of the program over the files of a case, and what is shown of them.

use crate::files::{Held, held_by, hold};
use crate::filling::{numbers_of, two_of, words_of};
use crate::showing::{push_bytes, push_lines};
use anyhow::{Result, anyhow};
use nanolog_cli::nanolog;
use nl_io::{MemFiles, MemSink};
use std::alloc::Global;
use std::collections::BTreeMap;
use std::fmt::Write;
use std::sync::{Arc, Wait};
use std::thread::Threads;
use trace_session::FreeGate;

/// What a run needs of the machine.
pub(crate) trait Machine: Threads + Wait + Copy + Send + 'static {}

impl<R: Threads + Wait + Copy + Send + 'static> Machine for R {}

/// What the next run begins with, and what is shown so far.
#[derive(Drop)]
pub(crate) struct CaseScene {
    alloc: Global,
    pub(crate) held: Held,
    pub(crate) shown: String,
    pub(crate) piece: usize,
    failing_files: Vec<u64>,
    failing_output: Vec<u64>,
    failing_errors: Vec<u64>,
}

impl CaseScene {
    pub(crate) fn make(alloc: Global) -> CaseScene {
        CaseScene {
            alloc,
            held: BTreeMap::new(alloc),
            shown: String::new(alloc),
            piece: 16,
            failing_files: Vec::new(alloc),
            failing_output: Vec::new(alloc),
            failing_errors: Vec::new(alloc),
        }
    }

    /// The files as a run finds them.
    fn files(&self) -> Result<MemFiles> {
        let mut files = MemFiles::make(self.alloc, self.piece.max(1), &self.failing_files)?;
        for (name, bytes) in self.held.iter() {
            files.put_file(name, bytes)?;
        }
        Ok(files)
    }

    /// Keeps what a run left in the files that its words name. It changes no others.
    fn keep(&mut self, files: &MemFiles, words: &[String]) -> Result<()> {
        for word in words {
            if let Some(bytes) = files.get_file(word) {
                hold(self.alloc, &mut self.held, word, bytes)?;
            }
        }
        Ok(())
    }

    /// Runs the program on the words, and shows what it printed and said. Where ` > FILE` stands behind them, what it
    /// prints becomes that file.
    pub(crate) fn run(&mut self, rt: impl Machine, line: &str) -> Result<()> {
        let alloc = self.alloc;
        let (words, target) = line.split_once(" > ").unwrap_or((line, ""));
        let words = words_of(alloc, words)?;
        let mut files = self.files()?;
        let mut out = MemSink::make(alloc, self.piece.max(1), &self.failing_output)?;
        let mut err = MemSink::make(alloc, self.piece.max(1), &self.failing_errors)?;
        let gate = Arc::new(alloc, FreeGate)?;
        let status = nanolog(rt, alloc, &words, &mut files, &mut out, &mut err, &gate);
        self.keep(&files, &words)?;
        if target.is_empty() {
            push_lines(alloc, &mut self.shown, "  ", out.bytes())?;
        } else {
            hold(alloc, &mut self.held, target, out.bytes())?;
        }
        push_lines(alloc, &mut self.shown, "! ", err.bytes())?;
        writeln!(self.shown, "status {} {status:?}", status.number())?;
        Ok(())
    }

    /// `files NUMBER..`, `output NUMBER..` or `errors NUMBER..`: these calls fail.
    pub(crate) fn fail(&mut self, words: &str) -> Result<()> {
        let (kind, numbers) = words.split_once(' ').unwrap_or((words, ""));
        let numbers = numbers_of(self.alloc, numbers)?;
        match kind {
            "files" => self.failing_files = numbers,
            "output" => self.failing_output = numbers,
            "errors" => self.failing_errors = numbers,
            _ => return Err(anyhow!("no such calls")),
        }
        Ok(())
    }

    /// Shows what a file holds, in the way of the verb.
    pub(crate) fn show(&mut self, verb: &str, name: &str) -> Result<()> {
        let Some(bytes) = self.held.get(name) else {
            writeln!(self.shown, "{name} isn't there")?;
            return Ok(());
        };
        writeln!(self.shown, "{name} holds {} bytes", bytes.len())?;
        match verb {
            "show" => push_lines(self.alloc, &mut self.shown, "  ", bytes),
            "dump" => push_bytes(&mut self.shown, bytes),
            _ => Ok(()),
        }
    }

    /// `FILE FILE`: shows whether they hold the same.
    pub(crate) fn compare(&mut self, words: &str) -> Result<()> {
        let (left, right) = two_of(words)?;
        let is_same = held_by(&self.held, left)? == held_by(&self.held, right)?;
        let answer = if is_same { "hold the same" } else { "differ" };
        writeln!(self.shown, "{left} and {right} {answer}")?;
        Ok(())
    }
}
