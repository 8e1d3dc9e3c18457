//! What printf writes.

ghost use Rattle.std.specs.Prelude.{◌≡◌, ◌++◌, map, OnOk, OnErr, take, vec_len};
ghost use Rattle.printf_grammar.specs.Types.{Types, Fits};
ghost use Rattle.direct_printf.specs.Fields.{Text};

use crate::field::{append_field, count_arguments};
use printf_grammar::{Argument, Format, Piece};
use std::alloc::AllocError;

/// Appends what printf writes for the format and the arguments. After an error `out` is as before.
pub fn render<A: Argument>(format: &Format, args: &[A], out: &mut Vec<u8>) -> Result<(), AllocError>
    requires { Fits (map A.value args.now) (Types format.now.pieces) }
    ensures ok { OnOk result (out.new.items ≡ out.old.items ++ Text format.now (map A.value args.now)) }
    ensures err { OnErr result (out.new.items ≡ out.old.items) }
{
    let before = out.len();
    let written = append_text(format, args, out);
    if written.is_err() {
        out.truncate(before);
    }
    written
}

// After an error a part of the text may stand behind what was there.
fn append_text<A: Argument>(
    format: &Format,
    args: &[A],
    out: &mut Vec<u8>,
) -> Result<(), AllocError>
    requires { Fits (map A.value args.now) (Types format.now.pieces) }
    ensures ok { OnOk result (out.new.items ≡ out.old.items ++ Text format.now (map A.value args.now)) }
    ensures err { OnErr result (take (vec_len out.old) out.new.items ≡ out.old.items) }
{
    let bytes = format.bytes();
    let mut next = 0;
    for piece in format.pieces() {
        match piece {
            Piece::Literal { start, end } => out.extend_from_slice(&bytes[*start..*end])?,
            Piece::Percent => out.push(b'%')?,
            Piece::Field(spec) => {
                let end = next + count_arguments(spec);
                append_field(spec, &args[next..end], out)?;
                next = end;
            }
        }
    }
    Ok(())
}
