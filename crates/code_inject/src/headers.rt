//! The header of a dictionary.

ghost use Rattle.std.specs.Prelude.{◌≡◌, ◌++◌, OnOk, OnErr, take, vec_len};
ghost use Rattle.code_inject.specs.Headers.{type_letter, types_line, severity_line, array_opening, array_text, header_opening, header_text};

use itoa::Buffer;
use log_dictionary::{Dictionary, Message};
use printf_grammar::ArgType;
use std::alloc::AllocError;

/// An array of the header, which has a line for each message.
#[derive(Clone, Copy, Debug, PartialEq, Eq)]
pub(crate) enum HeaderArray {
    /// The letters of the types.
    Types,
    /// The numbers of the severities.
    Severities,
}

fn type_letter(kind: ArgType) -> u8
    ensures { result ≡ type_letter kind }
{
    match kind {
        ArgType::Int => b'i',
        ArgType::UInt => b'u',
        ArgType::Long => b'l',
        ArgType::ULong => b'm',
        ArgType::Width => b'w',
        ArgType::Precision => b'p',
        ArgType::Text => b's',
    }
}

// After an error a part may stand behind what was there, here and below.
fn push_types(out: &mut Vec<u8>, message: &Message) -> Result<(), AllocError>
    ensures ok { OnOk result (out.new.items ≡ out.old.items ++ types_line message.now) }
    ensures err { OnErr result (take (vec_len out.old) out.new.items ≡ out.old.items) }
{
    out.push(b'"')?;
    for kind in message.format.types() {
        out.push(type_letter(*kind))?;
    }
    out.extend_from_slice(b"\",\n")
}

fn push_severity(out: &mut Vec<u8>, message: &Message) -> Result<(), AllocError>
    ensures ok { OnOk result (out.new.items ≡ out.old.items ++ severity_line message.now) }
    ensures err { OnErr result (take (vec_len out.old) out.new.items ≡ out.old.items) }
{
    let mut buffer = Buffer::new();
    out.extend_from_slice(buffer.format(message.severity.number()).as_bytes())?;
    out.extend_from_slice(b",\n")
}

impl HeaderArray {
    ghost use Rattle.code_inject.specs.Headers.{array_name, array_line};

    fn name(self) -> &'static [u8]
        ensures { result.now ≡ array_name self }
    {
        match self {
            HeaderArray::Types => b"char *const nano_log_types",
            HeaderArray::Severities => b"unsigned char nano_log_severity",
        }
    }

    fn push_line(self, out: &mut Vec<u8>, message: &Message) -> Result<(), AllocError>
        ensures ok { OnOk result (out.new.items ≡ out.old.items ++ array_line self message.now) }
        ensures err { OnErr result (take (vec_len out.old) out.new.items ≡ out.old.items) }
    {
        match self {
            HeaderArray::Types => push_types(out, message),
            HeaderArray::Severities => push_severity(out, message),
        }
    }
}

fn push_array_opening(out: &mut Vec<u8>, array: HeaderArray) -> Result<(), AllocError>
    ensures ok { OnOk result (out.new.items ≡ out.old.items ++ array_opening array) }
    ensures err { OnErr result (take (vec_len out.old) out.new.items ≡ out.old.items) }
{
    out.extend_from_slice(b"static const ")?;
    out.extend_from_slice(array.name())?;
    out.extend_from_slice(b"[] = {\n")
}

fn push_array(
    out: &mut Vec<u8>,
    array: HeaderArray,
    dictionary: &Dictionary,
) -> Result<(), AllocError>
    ensures ok { OnOk result (out.new.items ≡ out.old.items ++ array_text array dictionary.now) }
    ensures err { OnErr result (take (vec_len out.old) out.new.items ≡ out.old.items) }
{
    push_array_opening(out, array)?;
    for message in dictionary {
        array.push_line(out, message)?;
    }
    out.extend_from_slice(b"0};\n")?;
    Ok(())
}

fn push_opening(out: &mut Vec<u8>, messages: u32) -> Result<(), AllocError>
    ensures ok { OnOk result (out.new.items ≡ out.old.items ++ header_opening messages) }
    ensures err { OnErr result (take (vec_len out.old) out.new.items ≡ out.old.items) }
{
    let mut buffer = Buffer::new();
    out.extend_from_slice(b"/* nanolog-header 1 */\n#define NANO_LOG_MESSAGES ")?;
    out.extend_from_slice(buffer.format(messages).as_bytes())?;
    out.push(b'\n')?;
    Ok(())
}

fn push_header(out: &mut Vec<u8>, dictionary: &Dictionary) -> Result<(), AllocError>
    ensures ok { OnOk result (out.new.items ≡ out.old.items ++ header_text dictionary.now) }
    ensures err { OnErr result (take (vec_len out.old) out.new.items ≡ out.old.items) }
{
    push_opening(out, dictionary.len())?;
    push_array(out, HeaderArray::Types, dictionary)?;
    push_array(out, HeaderArray::Severities, dictionary)?;
    Ok(())
}

/// Appends the header of the dictionary, a text in C: how many messages there are, and of each the
/// letters of its types and the number of its severity. After an error `out` is as before.
pub fn header(dictionary: &Dictionary, out: &mut Vec<u8>) -> Result<(), AllocError>
    ensures ok { OnOk result (out.new.items ≡ out.old.items ++ header_text dictionary.now) }
    ensures err { OnErr result (out.new.items ≡ out.old.items) }
{
    let before = out.len();
    let pushed = push_header(out, dictionary);
    if pushed.is_err() {
        out.truncate(before);
    }
    pushed
}
