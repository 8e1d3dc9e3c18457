//! Laws of what printf writes, and what it is for some formats and arguments, worked by hand.
#![tactic(auto)]

ghost use Rattle.std.specs.Prelude.{◌≡◌, ◌≤◌, ◌<◌, ◌^◌, ℕ, Bool, ℤ, pos, negsuc, true, List, [], ◌∷◌, ◌++◌, length};
ghost use Rattle.std.specs.Prelude.{codes, FitsSigned, IsTrue, IsPermutation, IsSortedBy};
ghost use Rattle.std.specs.Int.{w64};
ghost use Rattle.std.specs.Str.Parse.{digits_value, signed_digits_value};
ghost use Rattle.printf_grammar.specs.declared.piece.Spec.{Spec};
ghost use Rattle.printf_grammar.specs.declared.piece.Length.{Length};
ghost use Rattle.printf_grammar.specs.declared.argument.Value.{Value};
ghost use Rattle.printf_grammar.specs.Pieces.{Parsed};
ghost use Rattle.printf_grammar.specs.Spelling.{Spells};
ghost use Rattle.printf_grammar.specs.Types.{Types, Fits};
ghost use Rattle.printf_grammar.specs.declared.piece.Piece.TheVariants as pieces;
ghost use Rattle.printf_grammar.specs.declared.piece.Size.TheVariants.{Star, Given};
ghost use Rattle.printf_grammar.specs.declared.piece.Length.TheVariants.{HH, L};
ghost use Rattle.printf_grammar.specs.declared.piece.Conversion.TheVariants.{O, U, X, UpperX, C, S, P};
ghost use Rattle.printf_grammar.specs.declared.argument.Value.TheVariants as values;
ghost use Rattle.printf_grammar.specs.Narrow.{plain_d};
ghost use Rattle.log_dictionary.specs.Calls.{LogCall};
ghost use Rattle.log_dictionary.specs.Rows.{row_clock};
ghost use Rattle.direct_printf.specs.Fields.{Digits, Field, Text, argument_at, signed_of, width_of, wrap_signed};
ghost use Rattle.direct_printf.specs.Joined.{joined};
ghost use Rattle.direct_printf.specs.Lines.{call_before, in_order, Direct};
ghost use Rattle.direct_printf.specs.Rows.{earlier_call, later_call, row_lines};

/// A field is never shorter than its width.
pub fn fields_are_as_wide_as_asked()
    ensures { (spec : Spec) (arguments : List Value) →
        width_of spec.width (signed_of (argument_at arguments 0)) ≤ length (Field spec arguments) }
{}

/// The digits of a number read back in their base at every precision, and are at least as many as
/// the precision says.
pub fn digits_spell_the_number()
    ensures value { (number base precision : ℕ) (upper : Bool) → 2 ≤ base → base ≤ 16 → number < 2 ^ 64 →
        digits_value base (Digits number base upper precision) ≡ number }
    ensures many { (number base precision : ℕ) (upper : Bool)
        → precision ≤ length (Digits number base upper precision) }
{}

/// `%d` with nothing but a length reads back as the number, wrapped to the size that the length says.
pub fn numbers_read_back()
    ensures { (length : Length) (number : ℤ) → FitsSigned w64 number →
        signed_digits_value 10 (Field (record plain_d { length = length }) (values.Signed number ∷ []))
        ≡ wrap_signed length number }
{}

/// Two formats, one behind the other, write what the first writes, and then what the second writes.
pub fn joined_formats_write_joined_texts()
    ensures { (first second : Parsed) (before behind : List Value) →
        Spells first.bytes first.pieces → Fits before (Types first.pieces) →
        Text (joined first second) (before ++ behind) ≡ Text first before ++ Text second behind }
{}

/// `%5d|%-5d|%05d` of 42, 42 and -42, and `%-05d|` of 42, where the flag `-` leaves the flag `0` no effect.
pub fn pads_to_the_width()
    ensures three_ways { Text (record {
      bytes = codes "%5d|%-5d|%05d";
      pieces =
          pieces.Field (record plain_d { width = Given 5 })
          ∷ pieces.Literal 3 4
          ∷ pieces.Field (record plain_d { width = Given 5; minus = true })
          ∷ pieces.Literal 8 9
          ∷ pieces.Field (record plain_d { width = Given 5; zero = true }) ∷ [];
    })
        (values.Signed (pos 42) ∷ values.Signed (pos 42) ∷ values.Signed (negsuc 41) ∷ [])
        ≡ codes "   42|42   |-0042" }
    ensures left_before_zeros { Text (record {
      bytes = codes "%-05d|";
      pieces =
          pieces.Field (record plain_d { width = Given 5; minus = true; zero = true })
          ∷ pieces.Literal 5 6 ∷ [];
    })
        (values.Signed (pos 42) ∷ [])
        ≡ codes "42   |" }
{}

/// `%.0d`, `%#.0o`, `%#x`, `%+.0d`, `% .0d` and `%#4x` of 0.
pub fn zero_has_few_digits()
    ensures no_digits { Field (record plain_d { precision = Given 0 }) (values.Signed (pos 0) ∷ []) ≡ [] }
    ensures one_octal { Field (record plain_d { conversion = O; sharp = true; precision = Given 0 })
        (values.Unsigned 0 ∷ []) ≡ codes "0" }
    ensures no_prefix { Field (record plain_d { conversion = X; sharp = true }) (values.Unsigned 0 ∷ []) ≡ codes "0" }
    ensures sign_alone { Field (record plain_d { plus = true; precision = Given 0 }) (values.Signed (pos 0) ∷ [])
        ≡ codes "+" }
    ensures space_alone { Field (record plain_d { space = true; precision = Given 0 }) (values.Signed (pos 0) ∷ [])
        ≡ codes " " }
    ensures padded_without_prefix { Field (record plain_d { conversion = X; sharp = true; width = Given 4 })
        (values.Unsigned 0 ∷ []) ≡ codes "   0" }
{}

/// `%*d|%.*s` of -6, 7, -1 and `abc`.
pub fn stars_take_arguments()
    ensures { Text (record {
      bytes = codes "%*d|%.*s";
      pieces =
          pieces.Field (record plain_d { width = Star })
          ∷ pieces.Literal 3 4
          ∷ pieces.Field (record plain_d { precision = Star; conversion = S }) ∷ [];
    })
        (values.Signed (negsuc 5) ∷ values.Signed (pos 7) ∷ values.Signed (negsuc 0) ∷ values.Text (codes "abc") ∷ [])
        ≡ codes "7     |abc" }
{}

/// `%hhd %hhu %+08.3d` of 300, 4294967295 and 5, and `%hhd` of 200.
pub fn wraps_by_length()
    ensures row { Text (record {
      bytes = codes "%hhd %hhu %+08.3d";
      pieces =
          pieces.Field (record plain_d { length = HH })
          ∷ pieces.Literal 4 5
          ∷ pieces.Field (record plain_d { length = HH; conversion = U })
          ∷ pieces.Literal 9 10
          ∷ pieces.Field (record plain_d { plus = true; zero = true; width = Given 8; precision = Given 3 }) ∷ [];
    })
        (values.Signed (pos 300) ∷ values.Unsigned 4294967295 ∷ values.Signed (pos 5) ∷ [])
        ≡ codes "44 255     +005" }
    ensures negative { Field (record plain_d { length = HH }) (values.Signed (pos 200) ∷ []) ≡ codes "-56" }
{}

/// `%8p|%-8p|%p` of 0, 255 and 2^64 - 1.
pub fn pointers()
    ensures { Text (record {
      bytes = codes "%8p|%-8p|%p";
      pieces =
          pieces.Field (record plain_d { width = Given 8; conversion = P })
          ∷ pieces.Literal 3 4
          ∷ pieces.Field (record plain_d { width = Given 8; minus = true; conversion = P })
          ∷ pieces.Literal 8 9
          ∷ pieces.Field (record plain_d { conversion = P }) ∷ [];
    })
        (values.Unsigned 0 ∷ values.Unsigned 255 ∷ values.Unsigned 18446744073709551615 ∷ [])
        ≡ codes "   (nil)|0xff    |0xffffffffffffffff" }
{}

/// `%.2s|%5s|%c%c` of `abc`, the empty text, 65 and 321.
pub fn texts_and_bytes()
    ensures { Text (record {
      bytes = codes "%.2s|%5s|%c%c";
      pieces =
          pieces.Field (record plain_d { precision = Given 2; conversion = S })
          ∷ pieces.Literal 4 5
          ∷ pieces.Field (record plain_d { width = Given 5; conversion = S })
          ∷ pieces.Literal 8 9
          ∷ pieces.Field (record plain_d { conversion = C })
          ∷ pieces.Field (record plain_d { conversion = C }) ∷ [];
    })
        (values.Text (codes "abc") ∷ values.Text [] ∷ values.Signed (pos 65) ∷ values.Signed (pos 321) ∷ [])
        ≡ codes "ab|     |AA" }
{}

/// `%#o %#X %ld` of 8, 255 and -2^63, and `%#.3o` of 8.
pub fn other_bases()
    ensures row { Text (record {
      bytes = codes "%#o %#X %ld";
      pieces =
          pieces.Field (record plain_d { sharp = true; conversion = O })
          ∷ pieces.Literal 3 4
          ∷ pieces.Field (record plain_d { sharp = true; conversion = UpperX })
          ∷ pieces.Literal 7 8
          ∷ pieces.Field (record plain_d { length = L }) ∷ [];
    })
        (values.Unsigned 8 ∷ values.Unsigned 255 ∷ values.Signed (negsuc 9223372036854775807) ∷ [])
        ≡ codes "010 0XFF -9223372036854775808" }
    ensures precision_gives_the_zero { Field (record plain_d { sharp = true; precision = Given 3; conversion = O })
        (values.Unsigned 8 ∷ []) ≡ codes "010" }
{}

/// Of two calls the one with the smaller stamp comes first, whatever the writers are. At equal
/// stamps it is that of the writer with the smaller number, and of two calls of one writer that
/// with the smaller ordinal. No call comes before itself, nor do two before one another.
pub fn calls_go_by_stamp_then_writer_then_ordinal()
    ensures stamp { (a b : LogCall) → a.stamp < b.stamp → IsTrue (call_before a b) }
    ensures writer { (a b : LogCall) → a.stamp ≡ b.stamp → a.writer < b.writer → IsTrue (call_before a b) }
    ensures ordinal { (a b : LogCall) → a.stamp ≡ b.stamp → a.writer ≡ b.writer → a.ordinal < b.ordinal
        → IsTrue (call_before a b) }
    ensures itself { (call : LogCall) → ¬ (IsTrue (call_before call call)) }
    ensures one_way { (a b : LogCall) → IsTrue (call_before a b) → ¬ (IsTrue (call_before b a)) }
{}

/// Calls put in order are the same calls, and none of them comes before the one in front of it. Calls that are in order
/// stay as they are.
pub fn calls_are_put_in_order()
    ensures same { (calls : List LogCall) → IsPermutation (in_order calls) calls }
    ensures ordered { (calls : List LogCall) → IsSortedBy call_before (in_order calls) }
    ensures stay { (calls : List LogCall) → IsSortedBy call_before calls → in_order calls ≡ calls }
{}

/// The second writer's call is the earlier one: its line comes first.
pub fn earlier_calls_come_first()
    ensures order { in_order (later_call ∷ earlier_call ∷ []) ≡ earlier_call ∷ later_call ∷ [] }
    ensures lines { Direct (row_clock ∷ []) (later_call ∷ earlier_call ∷ []) ≡ row_lines }
{}
