//! What is found in a source.

use log_dictionary::Severity;
use printf_grammar::{Bytes, Format, FormatCause};

/// Why a statement is refused.
#[derive(Clone, Copy, Debug, PartialEq, Eq)]
pub enum StatementCause {
    /// Its first argument names no severity.
    Severity,
    /// Its second argument isn't literals and PRI words, with one literal at least, or an escape is wrong.
    FormatNotLiteral,
    /// Its format is broken from this cause at this place.
    Format(FormatCause, usize),
    /// It has fewer arguments than its format takes.
    TooFew,
    /// No parenthesis closes it.
    Unclosed,
    /// The name of its file is empty or too long.
    FileName,
}

/// A statement of a source.
#[derive(Debug, Drop)]
pub struct Statement {
    /// The name of its file.
    pub file: Bytes,
    /// The line where it begins.
    pub line: u32,
    pub severity: Severity,
    pub format: Format,
    /// How many arguments follow the format.
    pub args: u32,
    /// Where it begins in the source.
    pub start: usize,
    /// The place of the comma behind its format or, where no argument follows, of its closing parenthesis.
    pub head: usize,
    /// Where it ends: the place behind its closing parenthesis.
    pub end: usize,
}

/// A statement that is refused.
#[derive(Debug, Drop)]
pub struct BadStatement {
    pub file: Bytes,
    pub line: u32,
    pub cause: StatementCause,
}

/// What is found in a source.
#[derive(Debug, Drop)]
pub enum Found {
    Statement(Statement),
    Bad(BadStatement),
}
