//! Rewritten sources.

ghost use Rattle.std.specs.Prelude.{◌≡◌, ◌≤◌, ◌++◌, ℕ, List, length, IfOk, IfErr, OnErr};
ghost use Rattle.code_inject.specs.declared.injection.InjectFault.TheVariants.{NoMemory};
ghost use Rattle.code_inject.specs.Injected.{InjectsSource, StopsInjection};

use crate::outcomes::outcomes_of;
use crate::rewrite::append_rewritten;
use log_dictionary::Dictionary;
use preprocessor::{MAX_SOURCE, SourceRefusal};
use source_scan::scan;
use std::alloc::{AllocError, Global};

/// Why a source wasn't rewritten.
#[derive(Debug, Drop)]
pub enum InjectFault {
    /// These statements are bad, or the dictionary has no message of theirs, in the order of the source.
    Bad(Vec<SourceRefusal>),
    NoMemory,
}

impl From<AllocError> for InjectFault {
    ghost from_gives = { λ _ fault. fault ≡ NoMemory };

    fn from(_error: AllocError) -> InjectFault {
        InjectFault::NoMemory
    }
}

/// Appends the source with each statement as a call by number: from its start to before the comma
/// behind its format, or its closing parenthesis, stand `NANO_LOG_CALL(`, the id of its message in
/// the dictionary and as many line feeds as stood there. At first the file has this name. The answer
/// is the number of statements.
///
/// # Errors
///
/// A statement is bad or has no message in the dictionary, or there is no memory. `out` is as before.
pub fn inject(
    alloc: Global,
    file: &[u8],
    source: &[u8],
    dictionary: &Dictionary,
    out: &mut Vec<u8>,
) -> Result<u32, InjectFault>
    requires { length source.now ≤ MAX_SOURCE }
    ensures ok { IfOk result (λ count. (text : List ℕ) × (out.new.items ≡ out.old.items ++ text)
        × InjectsSource file.now source.now dictionary.now text count) }
    ensures fault { IfErr result (StopsInjection file.now source.now dictionary.now) }
    ensures err { OnErr result (out.new.items ≡ out.old.items) }
{
    let found = scan(alloc, file, source)?;
    let outcomes = outcomes_of(alloc, dictionary, found)?;
    if !outcomes.refusals.is_empty() {
        return Err(InjectFault::Bad(outcomes.refusals));
    }
    append_rewritten(out, source, outcomes.rewrites.as_slice())?;
    Ok(outcomes.rewrites.len() as u32)
}
