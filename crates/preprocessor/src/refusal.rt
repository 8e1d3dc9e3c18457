//! What of sources is refused, and why.

ghost use Rattle.std.specs.Prelude.{◌≡◌};
ghost use Rattle.preprocessor.specs.Causes.{cause_number, cause_name};

use printf_grammar::Bytes;
use source_scan::StatementCause;

/// Why a statement or a whole source is refused.
#[derive(Clone, Copy, Debug, PartialEq, Eq)]
pub enum RefusalCause {
    /// The statement is bad.
    Statement(StatementCause),
    /// The source has more than 16,777,216 bytes.
    TooLarge,
    /// The message of the statement would be one more than 65,536.
    TooMany,
    /// The dictionary has no message of the statement.
    NotInDictionary,
}

/// What is refused.
#[derive(Debug, Drop)]
pub struct SourceRefusal {
    /// The name of the file.
    pub file: Bytes,
    /// The line of the statement, or 0 where a whole source is refused.
    pub line: u32,
    pub cause: RefusalCause,
}

impl RefusalCause {
    /// Its number, which is only another name.
    pub fn number(self) -> u8
        ensures { result ≡ cause_number self }
    {
        match self {
            RefusalCause::Statement(StatementCause::Severity) => 1,
            RefusalCause::Statement(StatementCause::FormatNotLiteral) => 2,
            RefusalCause::Statement(StatementCause::Format(_, _)) => 3,
            RefusalCause::Statement(StatementCause::TooFew) => 4,
            RefusalCause::Statement(StatementCause::Unclosed) => 5,
            RefusalCause::Statement(StatementCause::FileName) => 6,
            RefusalCause::TooLarge => 7,
            RefusalCause::TooMany => 8,
            RefusalCause::NotInDictionary => 9,
        }
    }

    /// Its name, as it is printed.
    pub fn name(self) -> &'static str
        ensures { result.now ≡ cause_name self }
    {
        match self {
            RefusalCause::Statement(StatementCause::Severity) => "Severity",
            RefusalCause::Statement(StatementCause::FormatNotLiteral) => "FormatNotLiteral",
            RefusalCause::Statement(StatementCause::Format(_, _)) => "Format",
            RefusalCause::Statement(StatementCause::TooFew) => "TooFew",
            RefusalCause::Statement(StatementCause::Unclosed) => "Unclosed",
            RefusalCause::Statement(StatementCause::FileName) => "FileName",
            RefusalCause::TooLarge => "TooLarge",
            RefusalCause::TooMany => "TooMany",
            RefusalCause::NotInDictionary => "NotInDictionary",
        }
    }
}
