//! Classes of bytes that stand in runs.

ghost use Rattle.std.specs.Prelude.{◌≡◌};
ghost use Rattle.source_tokens.specs.Bytes.{begins_word, continues_word, is_space, is_number_byte};

/// A class of bytes.
#[derive(Clone, Copy, Debug)]
pub(crate) enum Class {
    /// Space other than the end of a line.
    Space,
    /// What an identifier goes on with.
    Word,
    /// All but the end of a line.
    Line,
}

impl Class {
    ghost use Rattle.source_tokens.specs.Bytes.{is_of_class};

    #[inline]
    pub(crate) fn has(self, byte: u8) -> bool
        ensures { result ≡ is_of_class self byte }
    {
        match self {
            Class::Space => is_space(byte),
            Class::Word => continues_word(byte),
            Class::Line => byte != b'\n',
        }
    }
}

#[inline]
pub(crate) fn is_space(byte: u8) -> bool
    ensures { result ≡ is_space byte }
{
    matches!(byte, b'\t' | 11 | 12 | b'\r' | b' ')
}

#[inline]
pub(crate) fn begins_word(byte: u8) -> bool
    ensures { result ≡ begins_word byte }
{
    byte.is_ascii_alphabetic() || byte == b'_' || byte == b'$' || byte >= 128
}

#[inline]
pub(crate) fn continues_word(byte: u8) -> bool
    ensures { result ≡ continues_word byte }
{
    begins_word(byte) || byte.is_ascii_digit()
}

#[inline]
pub(crate) fn is_number_byte(byte: u8) -> bool
    ensures { result ≡ is_number_byte byte }
{
    byte.is_ascii_alphabetic() || byte.is_ascii_digit() || byte == b'_'
}
