//! What becomes of the statements of a source.

ghost use Rattle.std.specs.Prelude.{◌++◌, ◌∷◌, [], List, OnOk, IfOk};
ghost use Rattle.std.specs.List.{AllByRecursion};
ghost use Rattle.source_scan.specs.declared.found.Found.{Found};
ghost use Rattle.source_scan.specs.declared.found.Found.TheVariants as found;
ghost use Rattle.source_scan.specs.Readings.{IsFileName};
ghost use Rattle.preprocessor.specs.Findings.{IsNamed};
ghost use Rattle.code_inject.specs.Outcomes.{HoldsOutcomes};

use crate::rewrite::Rewrite;
use log_dictionary::Dictionary;
use preprocessor::{RefusalCause, SourceRefusal, message_of};
use source_scan::{Found, Statement};
use std::alloc::{AllocError, Global};

/// The heads that are rewritten, and what is refused, each in order.
#[derive(Debug, Drop)]
pub(crate) struct Outcomes {
    pub rewrites: Vec<Rewrite>,
    pub refusals: Vec<SourceRefusal>,
}

impl Outcomes {
    fn add_statement(
        &mut self,
        dictionary: &Dictionary,
        statement: Statement,
    ) -> Result<(), AllocError>
        requires { IsFileName statement.file }
        ensures { OnOk result ((before : List Found) → HoldsOutcomes dictionary.now before self.old
            → HoldsOutcomes dictionary.now (before ++ found.Statement statement ∷ []) self.new) }
    {
        let start = statement.start;
        let head = statement.head;
        let message = message_of(statement);
        match dictionary.id_of(&message) {
            Some(id) => self.rewrites.push(Rewrite { start, head, id })?,
            None => self.refusals.push(SourceRefusal {
                file: message.file,
                line: message.line,
                cause: RefusalCause::NotInDictionary,
            })?,
        }
        Ok(())
    }

    fn add(&mut self, dictionary: &Dictionary, one: Found) -> Result<(), AllocError>
        requires { IsNamed one }
        ensures { OnOk result ((before : List Found) → HoldsOutcomes dictionary.now before self.old
            → HoldsOutcomes dictionary.now (before ++ one ∷ []) self.new) }
    {
        match one {
            Found::Statement(statement) => self.add_statement(dictionary, statement),
            Found::Bad(bad) => {
                self.refusals.push(SourceRefusal {
                    file: bad.file,
                    line: bad.line,
                    cause: RefusalCause::Statement(bad.cause),
                })?;
                Ok(())
            }
        }
    }
}

/// What becomes of what a scan found.
pub(crate) fn outcomes_of(
    alloc: Global,
    dictionary: &Dictionary,
    found: Vec<Found>,
) -> Result<Outcomes, AllocError>
    requires { AllByRecursion IsNamed found.items }
    ensures { IfOk result (λ outcomes. HoldsOutcomes dictionary.now found.items outcomes) }
{
    let mut outcomes = Outcomes {
        rewrites: Vec::new(alloc),
        refusals: Vec::new(alloc),
    };
    for one in found {
        outcomes.add(dictionary, one)?;
    }
    Ok(outcomes)
}
