//! Kinds of what a source is made of.

/// What stands in a source.
#[derive(Clone, Copy, Debug, PartialEq, Eq)]
pub enum TokenKind {
    /// Space other than the end of a line; also a byte order mark and splices at the front of a source.
    Space,
    /// The LF that ends a line and stands in no comment and no raw string.
    NewLine,
    /// `//` and the rest of its line.
    LineComment,
    /// `/*` to `*/`, or to the end of the source.
    BlockComment,
    Identifier,
    /// A preprocessing number.
    Number,
    /// From one `"` to the next, without a prefix.
    StringLiteral,
    /// From one `'` to the next, without a prefix.
    CharacterConstant,
    /// A raw string with its prefix.
    RawString,
    /// A string literal that its line or the source ends.
    BrokenString,
    /// A character constant that its line or the source ends.
    BrokenConstant,
    /// A raw string that the source ends.
    BrokenRawString,
    /// This byte, which is none of the others.
    Punctuator(u8),
    /// A directive: from a `#` that is the first token of its line up to the LF that ends it.
    Directive,
}
