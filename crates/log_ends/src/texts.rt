//! How many bytes of its texts a format prints.

ghost use Rattle.std.specs.Prelude.{◌≡◌, ◌<◌, ◌+◌, length};
ghost use Rattle.log_ends.specs.Texts.{
  printed_bytes,
  value_limit,
  star_limits,
  piece_limits,
  text_limits,
  limit_at,
  text_limit,
};

use log_dictionary::Dictionary;
use printf_grammar::{Conversion, MAX_TEXT, Piece, Size, Spec};

/// How many bytes of a text are printed at most under this precision.
fn bytes_printed(precision: Size) -> u16
    ensures { result ≡ printed_bytes precision }
{
    let most = MAX_TEXT as u16;
    match precision {
        Size::Given(count) => count.min(most),
        Size::Absent | Size::Star => most,
    }
}

/// The same of the value that the conversion takes, where it is a text.
fn limit_of_value(spec: Spec) -> Option<u16>
    ensures { result ≡ value_limit spec.conversion spec.precision }
{
    match spec.conversion {
        Conversion::S => Some(bytes_printed(spec.precision)),
        _ => None,
    }
}

/// How many arguments a width or a precision takes.
fn stars(size: Size) -> usize
    ensures { result ≡ length (star_limits size) }
{
    match size {
        Size::Star => 1,
        Size::Absent | Size::Given(_) => 0,
    }
}

/// How many arguments the piece takes.
fn argument_count(piece: Piece) -> usize
    ensures { result ≡ length (piece_limits piece) }
{
    match piece {
        Piece::Field(spec) => stars(spec.width) + stars(spec.precision) + 1,
        _ => 0,
    }
}

/// The limit of one of the arguments that the piece takes, where it is a text.
fn limit_in(piece: Piece, nth: usize) -> Option<u16>
    requires { nth < length (piece_limits piece) }
    ensures { result ≡ limit_at (piece_limits piece) nth }
{
    match piece {
        Piece::Field(spec) if nth == stars(spec.width) + stars(spec.precision) => {
            limit_of_value(spec)
        }
        _ => None,
    }
}

/// The limit of one of the arguments that the pieces take, where it is a text.
fn limit_among(pieces: &[Piece], nth: usize) -> Option<u16>
    ensures { result ≡ limit_at (text_limits pieces.now) nth }
{
    let mut left = nth;
    for piece in pieces {
        let count = argument_count(*piece);
        if left < count {
            return limit_in(*piece, left);
        }
        left -= count;
    }
    None
}

/// The limit of one of the arguments that the message with the id takes, where there are both and the argument is a
/// text.
pub(crate) fn limit_of(dictionary: &Dictionary, id: u32, nth: u32) -> Option<u16>
    ensures { result ≡ text_limit dictionary.now id nth }
{
    let Some(message) = dictionary.get(id) else {
        return None;
    };
    limit_among(message.format.pieces(), nth as usize)
}
