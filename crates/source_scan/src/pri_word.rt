//! The words of `<inttypes.h>` that stand for conversions.

ghost use Rattle.std.specs.Prelude.{◌≡◌};
ghost use Rattle.std.specs.Option.{option_map};
ghost use Rattle.source_scan.specs.PriWords.{is_pri_letter, is_int_width, is_long_width, pri_bytes, conversion_bytes};

/// What a PRI word stands for.
#[derive(Clone, Copy, Debug, PartialEq, Eq)]
pub struct PriConversion {
    /// The letter of the conversion: one of `diouxX`.
    pub letter: u8,
    /// Whether `l` stands before it.
    pub is_long: bool,
}

fn is_pri_letter(letter: u8) -> bool
    ensures { result ≡ is_pri_letter letter }
{
    matches!(letter, b'd' | b'i' | b'o' | b'u' | b'x' | b'X')
}

fn is_int_width(width: &[u8]) -> bool
    ensures { result ≡ is_int_width width.now }
{
    matches!(width, [b'8'] | [b'1', b'6'] | [b'3', b'2'])
}

fn is_long_width(width: &[u8]) -> bool
    ensures { result ≡ is_long_width width.now }
{
    matches!(
        width,
        [b'6', b'4'] | [b'M', b'A', b'X'] | [b'P', b'T', b'R']
    )
}

/// What the word stands for: PRI, a letter and a width.
pub fn pri_conversion(word: &[u8]) -> Option<PriConversion>
    ensures { option_map conversion_bytes result ≡ pri_bytes word.now }
{
    let [b'P', b'R', b'I', letter, width @ ..] = word else {
        return None;
    };
    let letter = *letter;
    if !is_pri_letter(letter) {
        return None;
    }
    if is_int_width(width) {
        return Some(PriConversion {
            letter,
            is_long: false,
        });
    }
    if is_long_width(width) {
        return Some(PriConversion {
            letter,
            is_long: true,
        });
    }
    None
}
