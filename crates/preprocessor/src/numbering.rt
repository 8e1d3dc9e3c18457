//! The messages of sources, and their numbers.

ghost use Rattle.std.specs.Prelude.{◌≡◌, ◌<◌, ◌≤◌, ◌++◌, ◌∷◌, [], ℕ, List, length, IfOk, true, false};
ghost use Rattle.std.specs.List.{AllByRecursion};
ghost use Rattle.source_scan.specs.Readings.{IsFileName};
ghost use Rattle.preprocessor.specs.Findings.{SourceFile, Finding, IsMessageOf, IsFinding, AreFindings, IsNamed};
ghost use Rattle.preprocessor.specs.Findings.Finding.{stated, refused};
ghost use Rattle.preprocessor.specs.Numbering.{HoldsFindings, NumbersSources};

use crate::refusal::{RefusalCause, SourceRefusal};
use log_dictionary::{AddFault, Dictionary, Message};
use printf_grammar::Bytes;
use source_scan::{Found, MAX_SOURCE, Statement, scan};
use std::alloc::{AllocError, Global};

/// What was found in the sources so far.
#[derive(Debug, Drop)]
pub struct Numbering {
    /// The messages of the statements, each once, in the order of the sources and then of the
    /// places where they stand first.
    pub dictionary: Dictionary,
    /// The number of the statements, of which several may have one message.
    pub statements: u64,
    /// What is refused, in the same order.
    pub refusals: Vec<SourceRefusal>,
    /// Whether a message was one too many. Nothing is counted or refused after it.
    pub is_stopped: bool,
}

// Whether a source isn't scanned.
fn is_too_large(source: &[u8]) -> bool
    ensures large { result ≡ true → MAX_SOURCE < length source.now }
    ensures small { result ≡ false → length source.now ≤ MAX_SOURCE }
{
    source.len() > MAX_SOURCE
}

/// The message of a statement.
pub fn message_of(statement: Statement) -> Message
    requires { IsFileName statement.file }
    ensures { IsMessageOf statement result }
{
    Message {
        file: statement.file,
        line: statement.line,
        severity: statement.severity,
        format: statement.format,
    }
}

impl Numbering {
    /// No sources. It takes no memory.
    pub fn make(alloc: Global) -> Numbering
        ensures { NumbersSources [] result }
    {
        Numbering {
            dictionary: Dictionary::make(alloc),
            statements: 0,
            refusals: Vec::new(alloc),
            is_stopped: false,
        }
    }

    fn add_refusal(mut self, refusal: SourceRefusal) -> Result<Numbering, AllocError>
        requires { self.is_stopped ≡ false }
        ensures { IfOk result (λ next. (before : List Finding) → HoldsFindings before self
            → HoldsFindings (before ++ refused refusal ∷ []) next) }
    {
        self.refusals.push(refusal)?;
        Ok(self)
    }

    // The dictionary drops a message that it doesn't take, so the name of its file is copied first.
    fn add_message(mut self, alloc: Global, message: Message) -> Result<Numbering, AllocError>
        requires { self.is_stopped ≡ false }
        ensures { IfOk result (λ next. (before : List Finding) → HoldsFindings before self
            → HoldsFindings (before ++ stated message ∷ []) next) }
    {
        let excess = SourceRefusal {
            file: Bytes::from_slice(alloc, message.file.as_slice())?,
            line: message.line,
            cause: RefusalCause::TooMany,
        };
        match self.dictionary.add(message) {
            Ok(_) => {
                // So many statements are never counted; the call would give up as without memory.
                let Some(statements) = self.statements.checked_add(1) else {
                    return Err(AllocError);
                };
                self.statements = statements;
            }
            Err(AddFault::TooMany) => {
                self.refusals.push(excess)?;
                self.is_stopped = true;
            }
            Err(AddFault::NoMemory) => return Err(AllocError),
        }
        Ok(self)
    }

    fn add_one(self, alloc: Global, one: Found) -> Result<Numbering, AllocError>
        requires { IsNamed one }
        ensures { IfOk result (λ next. (before : List Finding) (finding : Finding) → IsFinding one finding
            → HoldsFindings before self → HoldsFindings (before ++ finding ∷ []) next) }
    {
        if self.is_stopped {
            return Ok(self);
        }
        match one {
            Found::Statement(statement) => self.add_message(alloc, message_of(statement)),
            Found::Bad(bad) => self.add_refusal(SourceRefusal {
                file: bad.file,
                line: bad.line,
                cause: RefusalCause::Statement(bad.cause),
            }),
        }
    }

    fn add_all(self, alloc: Global, found: Vec<Found>) -> Result<Numbering, AllocError>
        requires { AllByRecursion IsNamed found.items }
        ensures { IfOk result (λ next. (before findings : List Finding) → AreFindings found.items findings
            → HoldsFindings before self → HoldsFindings (before ++ findings) next) }
    {
        let mut numbering = self;
        for one in found {
            numbering = numbering.add_one(alloc, one)?;
        }
        Ok(numbering)
    }

    /// The same with one source more, of a file of this name. A line directive of the source may
    /// name another file.
    ///
    /// # Errors
    ///
    /// There is no memory. What was found before is dropped too, since a part of the source's
    /// messages may be among it.
    pub fn add_source(
        self,
        alloc: Global,
        file: &[u8],
        source: &[u8],
    ) -> Result<Numbering, AllocError>
        ensures { IfOk result (λ next. (files : List SourceFile) → NumbersSources files self
            → NumbersSources (files ++ record { name = file.now; bytes = source.now } ∷ []) next) }
    {
        if is_too_large(source) {
            return self.add_too_large(alloc, file);
        }
        if self.is_stopped {
            return Ok(self);
        }
        let found = scan(alloc, file, source)?;
        self.add_all(alloc, found)
    }

    /// The same with one source more that has more than `MAX_SOURCE` bytes, whatever they are. So
    /// it needn't be held in memory.
    ///
    /// # Errors
    ///
    /// There is no memory. What was found before is dropped too.
    pub fn add_too_large(self, alloc: Global, file: &[u8]) -> Result<Numbering, AllocError>
        ensures { IfOk result (λ next. (files : List SourceFile) (source : List ℕ) → MAX_SOURCE < length source
            → NumbersSources files self
            → NumbersSources (files ++ record { name = file.now; bytes = source } ∷ []) next) }
    {
        if self.is_stopped {
            return Ok(self);
        }
        self.add_refusal(SourceRefusal {
            file: Bytes::from_slice(alloc, file)?,
            line: 0,
            cause: RefusalCause::TooLarge,
        })
    }
}
