ghost use Rattle.std.specs.Prelude.{◌≡◌, ◌↔◌, ◌++◌, map, IsTrue, OnOk, FitsSigned, neg_ℤ, pos, ◌≤ℤ◌};
ghost use Rattle.std.specs.Int.{w32};
ghost use Rattle.printf_grammar.specs.declared.argument.Value.TheVariants.{Signed as SignedValue};
ghost use Rattle.printf_grammar.specs.declared.limits.TheConstants.{MAX_SIZE};
ghost use Rattle.printf_grammar.specs.Types.{Fits, IsText, signed_type, unsigned_type, conversion_type, field_types, piece_types};

use crate::argument::{Arg, Argument};
use crate::limits::{MAX_SIZE, MAX_TEXT};
use crate::piece::{Conversion, Length, Piece, Size, Spec};
use std::alloc::AllocError;

/// What a format takes at one place of its arguments.
#[derive(Clone, Copy, Debug, PartialEq, Eq)]
pub enum ArgType {
    /// Signed, from -2^31 to 2^31-1.
    Int,
    /// Unsigned, up to 2^32-1.
    UInt,
    /// Signed, 64 bits.
    Long,
    /// Unsigned, 64 bits.
    ULong,
    /// Signed, from -4,095 to 4,095.
    Width,
    /// Signed, from -2^31 to 4,095.
    Precision,
    /// At most 4,000 bytes, none of them NUL.
    Text,
}

impl ArgType {
    ghost use Rattle.printf_grammar.specs.Types.{argument_value, FitsType};

    /// Whether the argument is of this type's kind and in its range.
    pub fn takes(self, arg: Arg) -> bool
        ensures { IsTrue result ↔ FitsType (argument_value arg.entry) self }
    {
        match arg {
            Arg::Signed(number) => self.takes_signed(number),
            Arg::Unsigned(number) => match self {
                ArgType::UInt => number <= 0xffff_ffff,
                ArgType::ULong => true,
                _ => false,
            },
            Arg::Text(text) => self == ArgType::Text && is_text(text),
        }
    }

    /// Whether the signed number is of this type's kind and in its range.
    fn takes_signed(self, number: i64) -> bool
        ensures { IsTrue result ↔ FitsType (SignedValue number) self }
    {
        match self {
            ArgType::Int => is_int(number),
            ArgType::Long => true,
            ArgType::Width => is_size(number),
            ArgType::Precision => is_int(number) && number <= MAX_SIZE as i64,
            _ => false,
        }
    }
}

fn is_int(number: i64) -> bool
    ensures { IsTrue result ↔ FitsSigned w32 number }
{
    number >= i32::MIN as i64 && number <= i32::MAX as i64
}

fn is_size(number: i64) -> bool
    ensures { IsTrue result ↔ ((neg_ℤ (pos MAX_SIZE) ≤ℤ number) × (number ≤ℤ pos MAX_SIZE)) }
{
    number >= -(MAX_SIZE as i64) && number <= MAX_SIZE as i64
}

fn is_text(text: &[u8]) -> bool
    ensures { IsTrue result ↔ IsText text.now }
{
    text.len() <= MAX_TEXT && text.iter().all(|byte| *byte != 0)
}

/// Whether there are as many arguments as types, each of its type's kind and in its range.
pub fn fits<A: Argument>(types: &[ArgType], args: &[A]) -> bool
    ensures { IsTrue result ↔ Fits (map A.value args.now) types.now }
{
    if types.len() != args.len() {
        return false;
    }
    for (place, kind) in types.iter().enumerate() {
        if !kind.takes(args[place].arg()) {
            return false;
        }
    }
    true
}

fn signed_of(length: Length) -> ArgType
    ensures { result ≡ signed_type length }
{
    match length {
        Length::Plain | Length::HH | Length::H => ArgType::Int,
        _ => ArgType::Long,
    }
}

fn unsigned_of(length: Length) -> ArgType
    ensures { result ≡ unsigned_type length }
{
    match length {
        Length::Plain | Length::HH | Length::H => ArgType::UInt,
        _ => ArgType::ULong,
    }
}

fn converted_of(conversion: Conversion, length: Length) -> ArgType
    ensures { result ≡ conversion_type conversion length }
{
    match conversion {
        Conversion::D | Conversion::I => signed_of(length),
        Conversion::O | Conversion::U | Conversion::X | Conversion::UpperX => unsigned_of(length),
        Conversion::C => ArgType::Int,
        Conversion::S => ArgType::Text,
        Conversion::P => ArgType::ULong,
    }
}

fn push_field(types: &mut Vec<ArgType>, spec: Spec) -> Result<(), AllocError>
    ensures { OnOk result (types.new.items ≡ types.old.items ++ field_types spec) }
{
    if spec.width == Size::Star {
        types.push(ArgType::Width)?;
    }
    if spec.precision == Size::Star {
        types.push(ArgType::Precision)?;
    }
    types.push(converted_of(spec.conversion, spec.length))?;
    Ok(())
}

/// Appends the types of what the piece takes. After a refusal some of them may stand there.
pub(crate) fn push_types(types: &mut Vec<ArgType>, piece: Piece) -> Result<(), AllocError>
    ensures { OnOk result (types.new.items ≡ types.old.items ++ piece_types piece) }
{
    match piece {
        Piece::Field(spec) => push_field(types, spec),
        _ => Ok(()),
    }
}
