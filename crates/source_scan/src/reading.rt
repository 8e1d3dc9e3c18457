//! Statements whose parentheses close.

ghost use Rattle.std.specs.Prelude.{◌↔◌, IsTrue, IfOk};
ghost use Rattle.source_scan.specs.Readings.{IsFileName};

use crate::found::{BadStatement, Found, Statement, StatementCause};
use crate::items::format_bytes;
use crate::severity::named_severity;
use log_dictionary::{MAX_FILE_NAME, Severity};
use printf_grammar::{Bytes, Format, ParseFault, parse};
use source_tokens::Token;
use std::alloc::{AllocError, Global};

/// Where a statement stands, and the tokens of its first two arguments.
#[derive(Clone, Copy, Debug)]
pub struct StatementReading<'a> {
    pub file: &'a [u8],
    pub line: u32,
    pub severity: &'a [Token],
    pub format: &'a [Token],
    /// How many arguments follow the format.
    pub args: u32,
    pub start: usize,
    pub head: usize,
    pub end: usize,
}

fn is_file_name(name: &[u8]) -> bool
    ensures { IsTrue result ↔ IsFileName name.now }
{
    name.len() >= 1 && name.len() <= MAX_FILE_NAME
}

impl StatementReading<'_> {
    ghost use Rattle.source_scan.specs.Readings.{parted_of, IsRefused, IsWithFormat, IsRead};

    /// The statement, refused from this cause.
    fn refused(&self, alloc: Global, cause: StatementCause) -> Result<Found, AllocError>
        ensures { IfOk result (IsRefused (parted_of self.now) cause) }
    {
        let file = Bytes::from_slice(alloc, self.file)?;
        let line = self.line;
        Ok(Found::Bad(BadStatement { file, line, cause }))
    }

    /// The statement with this severity and format, if there are enough arguments.
    fn with_format(
        &self,
        alloc: Global,
        severity: Severity,
        format: Format,
    ) -> Result<Found, AllocError>
        ensures { IfOk result (IsWithFormat (parted_of self.now) severity format) }
    {
        if (self.args as usize) < format.types().len() {
            return self.refused(alloc, StatementCause::TooFew);
        }
        let file = Bytes::from_slice(alloc, self.file)?;
        Ok(Found::Statement(Statement {
            file,
            line: self.line,
            severity,
            format,
            args: self.args,
            start: self.start,
            head: self.head,
            end: self.end,
        }))
    }

    /// What stands there, or what is wrong with it.
    pub fn found(&self, alloc: Global, source: &[u8]) -> Result<Found, AllocError>
        ensures { IfOk result (IsRead source.now (parted_of self.now)) }
    {
        if !is_file_name(self.file) {
            return self.refused(alloc, StatementCause::FileName);
        }
        let Some(severity) = named_severity(source, self.severity) else {
            return self.refused(alloc, StatementCause::Severity);
        };
        let Some(bytes) = format_bytes(alloc, source, self.format)? else {
            return self.refused(alloc, StatementCause::FormatNotLiteral);
        };
        match parse(alloc, bytes.as_slice()) {
            Ok(format) => self.with_format(alloc, severity, format),
            Err(ParseFault::Bad { cause, place }) => {
                self.refused(alloc, StatementCause::Format(cause, place))
            }
            Err(ParseFault::NoMemory) => Err(AllocError),
        }
    }
}
