//! Arguments as a C program gives them.

ghost use Rattle.std.specs.Prelude.{◌≡◌};

use printf_grammar::Arg;

/// The kind of a signed number.
pub const SIGNED: u8 = 0;

/// The kind of an unsigned number.
pub const UNSIGNED: u8 = 1;

/// The kind of a text.
pub const TEXT: u8 = 2;

/// What stands for an argument of no kind: no conversion takes it.
const NO_TEXT: &[u8] = b"\0";

/// An argument of a call: a number in a word, or a text.
#[repr(C)]
pub struct CArgument<'a> {
    /// Its kind.
    pub tag: u8,
    /// The number, which stands in two's complement where it is signed.
    pub word: u64,
    /// The text.
    pub text: &'a [u8],
}

impl printf_grammar::Argument for CArgument<'_> {
    ghost use Rattle.log_ends.specs.Arguments.{argument_given};

    ghost value = { argument_given };

    fn arg(&self) -> Arg<'_> {
        match self.tag {
            SIGNED => Arg::Signed(self.word.cast_signed()),
            UNSIGNED => Arg::Unsigned(self.word),
            TEXT => Arg::Text(self.text),
            _ => Arg::Text(NO_TEXT),
        }
    }
}
