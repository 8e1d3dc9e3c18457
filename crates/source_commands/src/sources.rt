//! Sources that are read one by one.

ghost use Rattle.std.specs.Prelude.{◌≡◌, ◌≢◌, ◌<◌, ◌++◌, ◌∷◌, [], ℕ, List, length, IfOk, IfErr, IfSome, IfNone};
ghost use Rattle.source_scan.specs.declared.statement.TheConstants.{MAX_SOURCE};
ghost use Rattle.preprocessor.specs.Findings.{SourceFile};
ghost use Rattle.preprocessor.specs.Numbering.{NumbersSources};
ghost use Rattle.command_base.specs.Endings.{refusal_ending};
ghost use Rattle.source_commands.specs.Sources.{IsMissing, IsNumbered, GiveNothing};
ghost use Rattle.command_base.specs.Words.{contents};

use command_base::{Refusal, read_file};
use nl_io::Files;
use preprocessor::{MAX_SOURCE, Numbering};
use std::alloc::{AllocError, Global};

/// The numbering with one source more, which is `None` where it is too large to be scanned.
fn with_source(
    alloc: Global,
    numbering: Numbering,
    name: &str,
    source: Option<Vec<u8>>,
) -> Result<Numbering, AllocError>
    ensures { IfOk result (λ next. (sources : List SourceFile) (bytes : List ℕ)
        → IfSome source (λ read. read.items ≡ bytes) → IfNone source (MAX_SOURCE < length bytes)
        → NumbersSources sources numbering
        → NumbersSources (sources ++ record { name = name.now; bytes = bytes } ∷ []) next) }
{
    match source {
        Some(source) => numbering.add_source(alloc, name.as_bytes(), &source),
        None => numbering.add_too_large(alloc, name.as_bytes()),
    }
}

/// What is answered where a source can't be read: that, unless something is refused of the sources before it.
fn without_source<'a>(numbering: Numbering, refusal: Refusal<'a>) -> Result<Numbering, Refusal<'a>>
    ensures refused { IfOk result (λ same. (same ≡ numbering) × (numbering.refusals.items ≢ [])
        × IsMissing (refusal_ending refusal.entry)) }
    ensures unread { IfErr result (λ told. (told ≡ refusal.entry)
        × (IsMissing (refusal_ending told) → numbering.refusals.items ≡ [])) }
{
    match refusal {
        Refusal::Absent(_) | Refusal::ReadFault(_) if !numbering.refusals.is_empty() => {
            Ok(numbering)
        }
        refusal => Err(refusal),
    }
}

/// What stands in the sources of these names. Where something of them is refused, they are read up to one that isn't
/// there or can't be read, or to a message that is one too many.
pub(crate) fn number_sources<'a, F: Files>(
    alloc: Global,
    files: &mut F,
    names: &[&'a str],
) -> Result<Numbering, Refusal<'a>>
    ensures numbered { IfOk result (IsNumbered (contents names.now) (F.desk files.old) (F.desk files.new)) }
    ensures nothing { IfErr result (λ refusal. GiveNothing (contents names.now) (F.desk files.old) (F.desk files.new)
        (refusal_ending refusal)) }
    ensures others { F.rest files.old files.new }
{
    let mut numbering = Numbering::make(alloc);
    for name in names {
        if numbering.is_stopped {
            return Ok(numbering);
        }
        let source = match read_file(alloc, files, name, MAX_SOURCE) {
            Ok(source) => source,
            Err(refusal) => return without_source(numbering, refusal),
        };
        numbering = with_source(alloc, numbering, name, source)?;
    }
    Ok(numbering)
}
