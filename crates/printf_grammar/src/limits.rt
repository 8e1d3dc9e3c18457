//! How great the parts of a format and its arguments may be.

/// The most bytes that a format has.
pub const MAX_FORMAT: usize = 4095;

/// The greatest width and the greatest precision, in characters.
pub const MAX_SIZE: u16 = 4095;

/// The most arguments that a format takes.
pub const MAX_ARGUMENTS: usize = 64;

/// The most bytes that a text argument has.
pub const MAX_TEXT: usize = 4000;
