//! Dictionaries as they are written, and texts in quotation marks.

ghost use Rattle.std.specs.Prelude.{◌≡◌, ◌<◌, ◌/◌, ◌%◌, ◌++◌, ◌∷◌, [], OnOk, OnErr, take, vec_len, codes};
ghost use Rattle.std.specs.Char.{digit_char};
ghost use Rattle.log_dictionary.specs.Canonical.{canonical_byte, quoted_text, message_fields, message_text, messages_text, dictionary_text};

use crate::dictionary::Dictionary;
use crate::message::Message;
use itoa::Buffer;
use std::alloc::AllocError;

fn hexadecimal_digit(number: u8) -> u8
    requires { number < 16 }
    ensures { result ≡ digit_char number }
{
    if number < 10 {
        b'0' + number
    } else {
        b'a' - 10 + number
    }
}

fn escape(byte: u8) -> [u8; 4]
    ensures { result ≡ codes "\\x" ++ digit_char (byte / 16) ∷ digit_char (byte % 16) ∷ [] }
{
    let high = hexadecimal_digit(byte / 16);
    let low = hexadecimal_digit(byte % 16);
    [b'\\', b'x', high, low]
}

// After an error `out` is as before.
fn push_byte(out: &mut Vec<u8>, byte: u8) -> Result<(), AllocError>
    ensures ok { OnOk result (out.new.items ≡ out.old.items ++ canonical_byte byte) }
    ensures err { OnErr result (out.new.items ≡ out.old.items) }
{
    match byte {
        b'"' => out.extend_from_slice(b"\\\""),
        b'\\' => out.extend_from_slice(b"\\\\"),
        b'\n' => out.extend_from_slice(b"\\n"),
        b'\t' => out.extend_from_slice(b"\\t"),
        0x20..=0x7e => out.extend_from_slice(&[byte]),
        _ => out.extend_from_slice(&escape(byte)),
    }
}

/// Appends a text in quotation marks. After an error a part of it may stand behind what was there.
pub fn push_text(out: &mut Vec<u8>, bytes: &[u8]) -> Result<(), AllocError>
    ensures ok { OnOk result (out.new.items ≡ out.old.items ++ quoted_text bytes.now) }
    ensures err { OnErr result (take (vec_len out.old) out.new.items ≡ out.old.items) }
{
    out.push(b'"')?;
    for byte in bytes {
        push_byte(out, *byte)?;
    }
    out.push(b'"')?;
    Ok(())
}

// The line up to its texts. After an error a part of it may stand behind what was there, here and
// below.
fn push_fields(out: &mut Vec<u8>, id: usize, message: &Message) -> Result<(), AllocError>
    ensures ok { OnOk result (out.new.items ≡ out.old.items ++ message_fields id message.now) }
    ensures err { OnErr result (take (vec_len out.old) out.new.items ≡ out.old.items) }
{
    let mut buffer = Buffer::new();
    out.extend_from_slice(b"message ")?;
    out.extend_from_slice(buffer.format(id).as_bytes())?;
    out.push(b' ')?;
    out.extend_from_slice(message.severity.name().as_bytes())?;
    out.push(b' ')?;
    out.extend_from_slice(buffer.format(message.line).as_bytes())?;
    out.push(b' ')?;
    Ok(())
}

fn push_message(out: &mut Vec<u8>, id: usize, message: &Message) -> Result<(), AllocError>
    ensures ok { OnOk result (out.new.items ≡ out.old.items ++ message_text (id, message.now)) }
    ensures err { OnErr result (take (vec_len out.old) out.new.items ≡ out.old.items) }
{
    push_fields(out, id, message)?;
    push_text(out, message.file.as_slice())?;
    out.push(b' ')?;
    push_text(out, message.format.bytes())?;
    out.push(b'\n')?;
    Ok(())
}

fn push_messages(out: &mut Vec<u8>, dictionary: &Dictionary) -> Result<(), AllocError>
    ensures ok { OnOk result (out.new.items ≡ out.old.items ++ messages_text dictionary.now) }
    ensures err { OnErr result (take (vec_len out.old) out.new.items ≡ out.old.items) }
{
    for (id, message) in dictionary.iter().enumerate() {
        push_message(out, id, message)?;
    }
    Ok(())
}

impl Dictionary {
    /// Appends a line for each message. After an error `out` is as before.
    pub fn write_messages(&self, out: &mut Vec<u8>) -> Result<(), AllocError>
        ensures ok { OnOk result (out.new.items ≡ out.old.items ++ messages_text self.now) }
        ensures err { OnErr result (out.new.items ≡ out.old.items) }
    {
        let before = out.len();
        let written = push_messages(out, self);
        if written.is_err() {
            out.truncate(before);
        }
        written
    }

    /// Appends the first line of a trace of version 1 and a line for each message. After an error
    /// `out` is as before.
    pub fn write_text(&self, out: &mut Vec<u8>) -> Result<(), AllocError>
        ensures ok { OnOk result (out.new.items ≡ out.old.items ++ dictionary_text self.now) }
        ensures err { OnErr result (out.new.items ≡ out.old.items) }
    {
        let before = out.len();
        out.extend_from_slice(b"nanolog-trace 1\n")?;
        let written = self.write_messages(out);
        if written.is_err() {
            out.truncate(before);
        }
        written
    }
}
