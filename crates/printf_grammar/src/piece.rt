/// What a format is made of: a literal, `%%` or a conversion.
#[derive(Clone, Copy, Debug, PartialEq, Eq)]
pub enum Piece {
    /// The bytes from `start` up to `end`, which are copied as they are.
    Literal { start: usize, end: usize },
    /// `%%`, which writes one `%`.
    Percent,
    /// A conversion.
    Field(Spec),
}

/// What stands between a field's `%` and its end.
#[derive(Clone, Copy, Debug, PartialEq, Eq)]
pub struct Spec {
    /// The flag `-`.
    pub minus: bool,
    /// The flag `+`.
    pub plus: bool,
    /// The flag space.
    pub space: bool,
    /// The flag `#`.
    pub sharp: bool,
    /// The flag `0`.
    pub zero: bool,
    pub width: Size,
    pub precision: Size,
    pub length: Length,
    pub conversion: Conversion,
}

/// A width or a precision.
#[derive(Clone, Copy, Debug, PartialEq, Eq)]
pub enum Size {
    Absent,
    /// `*`: an argument gives it.
    Star,
    /// The number itself, at most 4,095.
    Given(u16),
}

/// A length modifier; `Plain` where none stands.
#[derive(Clone, Copy, Debug, PartialEq, Eq)]
pub enum Length {
    Plain,
    HH,
    H,
    L,
    LL,
    J,
    Z,
    T,
}

/// A conversion, by its letter.
#[derive(Clone, Copy, Debug, PartialEq, Eq)]
pub enum Conversion {
    D,
    I,
    O,
    U,
    X,
    UpperX,
    C,
    S,
    P,
}
