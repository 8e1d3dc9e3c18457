//! What literals stand for.

ghost use Rattle.std.specs.Prelude.{◌≡◌, ◌++◌, IfOk, OnOk};
ghost use Rattle.source_scan.specs.Escapes.{meaning_bytes, unescaped_literal};

use crate::escape::{Meaning, part_of};
use printf_grammar::Bytes;
use std::alloc::{AllocError, Global};

/// Appends what a part of a literal stands for.
fn push_meaning(bytes: &mut Vec<u8>, meaning: Meaning) -> Result<(), AllocError>
    ensures { OnOk result (bytes.new.items ≡ bytes.old.items ++ meaning_bytes meaning) }
{
    match meaning {
        Meaning::Byte(byte) => {
            bytes.push(byte)?;
        }
        Meaning::Character(character) => {
            let mut encoded = [0; 4];
            let text = character.encode_utf8(&mut encoded);
            bytes.extend_from_slice(text.as_bytes())?;
        }
    }
    Ok(())
}

/// What the text between the marks of a literal stands for, if each escape in it is one. The text has no splices.
pub fn literal_bytes(alloc: Global, body: &[u8]) -> Result<Option<Bytes>, AllocError>
    ensures { IfOk result (λ bytes. bytes ≡ unescaped_literal body.now) }
{
    let mut bytes = Vec::new(alloc);
    let mut rest = body;
    while let [first, behind @ ..] = rest {
        let Some((meaning, len)) = part_of(*first, behind) else {
            return Ok(None);
        };
        push_meaning(&mut bytes, meaning)?;
        rest = behind.split_at(len).1;
    }
    Ok(Some(Bytes::from_slice(alloc, &bytes)?))
}
