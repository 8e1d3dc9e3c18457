//! The words on what is refused.

ghost use Rattle.std.specs.Prelude.{◌≡◌, ◌++◌, IfOk, OnOk, OnErr, take, vec_len};
ghost use Rattle.std.specs.List.{flat_map};
ghost use Rattle.preprocessor.specs.Causes.{cause_place, refusal_fields, refusal_line};

use crate::refusal::{RefusalCause, SourceRefusal};
use itoa::Buffer;
use source_scan::StatementCause;
use std::alloc::{AllocError, Global};

// Where and why a format is broken. After an error a part may stand behind what was there, here
// and below.
fn push_place(out: &mut Vec<u8>, cause: RefusalCause) -> Result<(), AllocError>
    ensures ok { OnOk result (out.new.items ≡ out.old.items ++ cause_place cause) }
    ensures err { OnErr result (take (vec_len out.old) out.new.items ≡ out.old.items) }
{
    let RefusalCause::Statement(StatementCause::Format(cause, place)) = cause else {
        return Ok(());
    };
    let mut buffer = Buffer::new();
    out.push(b' ')?;
    out.extend_from_slice(cause.name().as_bytes())?;
    out.extend_from_slice(b" at ")?;
    out.extend_from_slice(buffer.format(place).as_bytes())
}

fn push_fields(out: &mut Vec<u8>, refusal: &SourceRefusal) -> Result<(), AllocError>
    ensures ok { OnOk result (out.new.items ≡ out.old.items ++ refusal_fields refusal.now) }
    ensures err { OnErr result (take (vec_len out.old) out.new.items ≡ out.old.items) }
{
    let mut buffer = Buffer::new();
    out.extend_from_slice(b"nanolog: ")?;
    out.extend_from_slice(refusal.file.as_slice())?;
    out.push(b':')?;
    out.extend_from_slice(buffer.format(refusal.line).as_bytes())?;
    out.extend_from_slice(b": refused: ")?;
    out.extend_from_slice(buffer.format(refusal.cause.number()).as_bytes())?;
    out.push(b' ')?;
    out.extend_from_slice(refusal.cause.name().as_bytes())
}

fn push_line(out: &mut Vec<u8>, refusal: &SourceRefusal) -> Result<(), AllocError>
    ensures ok { OnOk result (out.new.items ≡ out.old.items ++ refusal_line refusal.now) }
    ensures err { OnErr result (take (vec_len out.old) out.new.items ≡ out.old.items) }
{
    push_fields(out, refusal)?;
    push_place(out, refusal.cause)?;
    out.push(b'\n')?;
    Ok(())
}

/// Appends the line that says what is refused. After an error `out` is as before.
pub fn push_refusal(out: &mut Vec<u8>, refusal: &SourceRefusal) -> Result<(), AllocError>
    ensures ok { OnOk result (out.new.items ≡ out.old.items ++ refusal_line refusal.now) }
    ensures err { OnErr result (out.new.items ≡ out.old.items) }
{
    let before = out.len();
    let pushed = push_line(out, refusal);
    if pushed.is_err() {
        out.truncate(before);
    }
    pushed
}

/// The lines that say what is refused, one for each.
pub fn refusal_lines(alloc: Global, refusals: &[SourceRefusal]) -> Result<Vec<u8>, AllocError>
    ensures { IfOk result (λ lines. lines.items ≡ flat_map refusal_line refusals.now) }
{
    let mut lines = Vec::new(alloc);
    for refusal in refusals {
        push_refusal(&mut lines, refusal)?;
    }
    Ok(lines)
}
