//! What the lines of a message have in common.

ghost use Rattle.std.specs.Prelude.{◌≡◌, ◌<◌, [], Some, IfOk, OnOk, length, map, slice_get};
ghost use Rattle.direct_printf.specs.Lines.{origin_text, AreFirstOrigins};

use itoa::Buffer;
use log_dictionary::Message;
use printf_grammar::Bytes;
use std::alloc::{AllocError, Global};
use std::marker::Model;

/// Behind the file's name a text has at most so many bytes.
const MAX_BEHIND: usize = 20;

/// Of each message what stands in its lines between the time and the writer: where it stands, and
/// how grave it is. It is made once, and each line of the message has it.
#[derive(Debug, Drop)]
pub struct Origins {
    alloc: Global,
    texts: Vec<Bytes>,
}

impl Model for Origins {
    ghost use Rattle.std.specs.Prelude.{List, ℕ};

    ghost Value = { List (List ℕ) };

    ghost view = { λ origins. origins.texts.items };
}

impl Origins {
    /// Those of no messages.
    pub fn make(alloc: Global) -> Origins
        ensures { result ≡ [] }
    {
        Origins {
            alloc,
            texts: Vec::new(alloc),
        }
    }

    /// Makes those of the messages behind the ones that were there before. After an error some of
    /// them may be made.
    pub fn extend(&mut self, messages: &[Message]) -> Result<(), AllocError>
        requires { AreFirstOrigins self.old messages.now }
        ensures ok { OnOk result (self.new ≡ map origin_text messages.now) }
        ensures first { AreFirstOrigins self.new messages.now }
    {
        while let Some(message) = messages.get(self.texts.len()) {
            self.texts.push(origin_of(self.alloc, message)?)?;
        }
        Ok(())
    }

    /// That of the message with this id.
    pub fn get(&self, id: u32) -> &[u8]
        requires { id < length self.now }
        ensures { slice_get self.now id ≡ Some result.now }
    {
        self.texts[id as usize].as_slice()
    }
}

fn origin_of(alloc: Global, message: &Message) -> Result<Bytes, AllocError>
    ensures { IfOk result (λ text. text ≡ origin_text message.now) }
{
    let file = message.file.as_slice();
    let mut buffer = Buffer::new();
    let mut text = Bytes::with_capacity(alloc, file.len() + MAX_BEHIND)?;
    text.extend_from_slice(file)?;
    text.push(b':')?;
    text.extend_from_slice(buffer.format(message.line).as_bytes())?;
    text.push(b' ')?;
    text.extend_from_slice(message.severity.name().as_bytes())?;
    text.push(b'[')?;
    Ok(text)
}
