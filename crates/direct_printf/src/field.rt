//! A field with its own arguments.

ghost use Rattle.std.specs.Prelude.{◌≡◌, ◌≤◌, ◌<◌, ◌^◌, ◌++◌, ◌≤ℤ◌, ◌&&◌, ◌||◌, pos, unsigned_abs, is_none, map, OnOk, OnErr, take, vec_len};
ghost use Rattle.printf_grammar.specs.declared.limits.TheConstants.{MAX_SIZE};
ghost use Rattle.printf_grammar.specs.declared.piece.Size.TheVariants.{Star};
ghost use Rattle.printf_grammar.specs.Types.{Fits, field_types};
ghost use Rattle.direct_printf.specs.Fields.{Field, argument_count, stars, width_of, is_left_star, precision_of, is_integer};

use crate::conversion::{append_converted, signed};
use crate::padding::{NO_PADDING, Padding};
use printf_grammar::{Argument, Conversion, Size, Spec};
use std::alloc::AllocError;

/// How many arguments a field takes.
pub fn count_arguments(spec: &Spec) -> usize
    ensures { result ≡ argument_count spec.now }
{
    if spec.width == Size::Absent && spec.precision == Size::Absent {
        return 1;
    }
    count_stars(spec.width) + count_stars(spec.precision) + 1
}

fn count_stars(size: Size) -> usize
    ensures value { result ≡ stars size }
    ensures limit { result ≤ 1 }
{
    match size {
        Size::Star => 1,
        Size::Absent | Size::Given(_) => 0,
    }
}

/// Appends a field; the arguments are those that it takes.
pub fn append_field<A: Argument>(
    spec: &Spec,
    args: &[A],
    out: &mut Vec<u8>,
) -> Result<(), AllocError>
    requires { Fits (map A.value args.now) (field_types spec.now) }
    ensures ok { OnOk result (out.new.items ≡ out.old.items ++ Field spec.now (map A.value args.now)) }
    ensures err { OnErr result (take (vec_len out.old) out.new.items ≡ out.old.items) }
{
    if spec.width == Size::Absent && spec.precision == Size::Absent {
        return append_converted(spec, NO_PADDING, None, args[0].arg(), out);
    }
    let precision_at = count_stars(spec.width);
    let value_at = precision_at + count_stars(spec.precision);
    let precision = field_precision(spec.precision, signed(args[precision_at].arg()));
    let padding = field_padding(spec, signed(args[0].arg()), precision);
    append_converted(spec, padding, precision, args[value_at].arg(), out)
}

// `width` is the argument of the width's `*`.
fn field_padding(spec: &Spec, width: i64, precision: Option<u16>) -> Padding
    requires { spec.now.width ≡ Star → unsigned_abs width < 2 ^ 16 }
    ensures width { result.width ≡ width_of spec.now.width width }
    ensures left { result.left ≡ (spec.now.minus || is_left_star spec.now.width width) }
    ensures zeros { result.zeros ≡ (spec.now.zero && is_integer spec.now.conversion && is_none precision) }
{
    Padding {
        width: field_width(spec.width, width),
        left: spec.minus || turns_left(spec.width, width),
        zeros: spec.zero && spells_integer(spec.conversion) && precision.is_none(),
    }
}

// The width, where `argument` is that of its `*`.
fn field_width(size: Size, argument: i64) -> u16
    requires { size ≡ Star → unsigned_abs argument < 2 ^ 16 }
    ensures { result ≡ width_of size argument }
{
    match size {
        Size::Absent => 0,
        Size::Star => argument.unsigned_abs() as u16,
        Size::Given(width) => width,
    }
}

// A negative width argument is the flag `-` too.
fn turns_left(size: Size, argument: i64) -> bool
    ensures { result ≡ is_left_star size argument }
{
    match size {
        Size::Star => argument < 0,
        Size::Absent | Size::Given(_) => false,
    }
}

// A negative precision argument counts as an omitted precision.
fn field_precision(size: Size, argument: i64) -> Option<u16>
    requires { size ≡ Star → argument ≤ℤ pos MAX_SIZE }
    ensures { result ≡ precision_of size argument }
{
    match size {
        Size::Absent => None,
        Size::Star if argument < 0 => None,
        Size::Star => Some(argument as u16),
        Size::Given(precision) => Some(precision),
    }
}

fn spells_integer(conversion: Conversion) -> bool
    ensures { result ≡ is_integer conversion }
{
    match conversion {
        Conversion::C | Conversion::S | Conversion::P => false,
        Conversion::D
        | Conversion::I
        | Conversion::O
        | Conversion::U
        | Conversion::X
        | Conversion::UpperX => true,
    }
}
