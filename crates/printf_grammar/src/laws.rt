ghost use Rattle.std.specs.Prelude.{◌≡◌, ◌⊎◌, ℕ, ◌<◌, List, [], ◌∷◌, length, replicate, Contains, codes, pos, negsuc};
ghost use Rattle.printf_grammar.specs.declared.arg_type.ArgType.TheVariants as types;
ghost use Rattle.printf_grammar.specs.declared.argument.Value.TheVariants.{Signed};
ghost use Rattle.printf_grammar.specs.declared.piece.Piece.{Piece};
ghost use Rattle.printf_grammar.specs.declared.piece.Piece.TheVariants.{Literal};
ghost use Rattle.printf_grammar.specs.declared.fault.FormatCause.{FormatCause};
ghost use Rattle.printf_grammar.specs.declared.fault.FormatCause.TheVariants.{Float, Wide, Store, BadPercent};
ghost use Rattle.printf_grammar.specs.declared.fault.FormatCause.TheVariants.{BadLength, Unknown, TooWide, Ends};
ghost use Rattle.printf_grammar.specs.declared.fault.FormatCause.TheVariants.{Nul, TooManyArgs, Long};
ghost use Rattle.printf_grammar.specs.Causes.{cause_name};
ghost use Rattle.printf_grammar.specs.Spelling.{Spells};
ghost use Rattle.printf_grammar.specs.Breaks.{FormatBreak};
ghost use Rattle.printf_grammar.specs.Rows.{padded_pieces, starred_pieces, widest_pieces, plain_ds, plain_fields};
ghost use Rattle.printf_grammar.specs.Types.{Types, FitsType, IsText};

use crate::arg_type::ArgType;
use crate::argument::{Arg, Value, Values};
use crate::bytes::Bytes;
use crate::fault::ParseFault;
use crate::format::Format;
use crate::piece::Piece;

/// Each text has one reading. It spells one list of pieces, or it breaks at one place from one cause, and not both.
pub fn one_reading()
    ensures spells_or_breaks { (bytes : List ℕ)
        → ((pieces : List Piece) × Spells bytes pieces)
        ⊎ ((cause : FormatCause) × (place : ℕ) × FormatBreak bytes cause place) }
    ensures not_both { (bytes : List ℕ) (pieces : List Piece) (cause : FormatCause) (place : ℕ)
        → Spells bytes pieces → ¬ (FormatBreak bytes cause place) }
    ensures one_list { (bytes : List ℕ) (pieces others : List Piece)
        → Spells bytes pieces → Spells bytes others → pieces ≡ others }
    ensures one_break { (bytes : List ℕ) (cause other : FormatCause) (place at : ℕ)
        → FormatBreak bytes cause place → FormatBreak bytes other at → (cause ≡ other) × (place ≡ at) }
{}

/// Worked formats: their pieces and types.
pub fn worked_formats()
    ensures empty { Spells [] [] }
    ensures padded { Spells (codes "%5d|%-5d|%05d") padded_pieces }
    ensures padded_types { Types padded_pieces ≡ types.Int ∷ types.Int ∷ types.Int ∷ [] }
    ensures starred { Spells (codes "%*.*hhx%.s%%") starred_pieces }
    ensures starred_types { Types starred_pieces ≡ types.Width ∷ types.Precision ∷ types.UInt ∷ types.Text ∷ [] }
{}

/// Worked faults: where bytes are no format, and why.
pub fn worked_faults()
    ensures float { FormatBreak (codes "%f") Float 1 }
    ensures long_float { FormatBreak (codes "%Lf") Float 2 }
    ensures wide { FormatBreak (codes "%ls") Wide 2 }
    ensures store { FormatBreak (codes "%n") Store 1 }
    ensures bad_percent { FormatBreak (codes "%5%") BadPercent 2 }
    ensures bad_length { FormatBreak (codes "%hs") BadLength 2 }
    ensures positional { FormatBreak (codes "%1$d") Unknown 2 }
    ensures ends { FormatBreak (codes "%-") Ends 2 }
    ensures nul { FormatBreak (97 ∷ 0 ∷ []) Nul 1 }
    ensures percent_after_l { FormatBreak (codes "%L%") BadPercent 2 }
    ensures l_after_l { FormatBreak (codes "%Ll") Unknown 2 }
    ensures third_h { FormatBreak (codes "%hhh") Unknown 3 }
    ensures digit_after_star { FormatBreak (codes "%*5d") Unknown 2 }
{}

/// What stands just within each limit, and what just beyond it.
pub fn worked_limits()
    ensures widest { Spells (codes "%4095d%.4095d") widest_pieces }
    ensures too_wide { FormatBreak (codes "%4096d") TooWide 4 }
    ensures too_precise { FormatBreak (codes "%.4096d") TooWide 5 }
    ensures most_args { Spells (plain_ds 64) (plain_fields 64) }
    ensures too_many_args { FormatBreak (plain_ds 65) TooManyArgs 129 }
    ensures longest { Spells (replicate 4095 97) (Literal 0 4095 ∷ []) }
    ensures long { FormatBreak (replicate 4096 97) Long 4095 }
    ensures longest_text { IsText (replicate 4000 97) }
    ensures long_text { (bytes : List ℕ) → length bytes ≡ 4001 → ¬ (IsText bytes) }
{}

/// All causes, each with its name.
pub fn causes_have_names()
    ensures { (cause : FormatCause) → Contains {X = FormatCause × List ℕ}
        ((Float, codes "Float") ∷ (Wide, codes "Wide") ∷ (Store, codes "Store") ∷ (BadPercent, codes "BadPercent")
        ∷ (BadLength, codes "BadLength") ∷ (Unknown, codes "Unknown") ∷ (TooWide, codes "TooWide")
        ∷ (Ends, codes "Ends") ∷ (Nul, codes "Nul") ∷ (TooManyArgs, codes "TooManyArgs") ∷ (Long, codes "Long") ∷ [])
        (cause, cause_name cause) }
{}

/// The numbers at both ends of what a `*` takes: a width, which may be below 0, and a precision, which is an int of
/// any size below 0.
pub fn worked_star_arguments()
    ensures widths { FitsType (Signed (pos 4095)) types.Width × FitsType (Signed (negsuc 4094)) types.Width }
    ensures too_wide { ¬ (FitsType (Signed (pos 4096)) types.Width) }
    ensures too_wide_below { ¬ (FitsType (Signed (negsuc 4095)) types.Width) }
    ensures precisions { FitsType (Signed (pos 4095)) types.Precision
        × FitsType (Signed (negsuc 2147483647)) types.Precision }
    ensures too_precise { ¬ (FitsType (Signed (pos 4096)) types.Precision) }
    ensures too_precise_below { ¬ (FitsType (Signed (negsuc 2147483648)) types.Precision) }
{}

/// Formats, arguments and faults go from thread to thread, and threads share them.
pub fn threads() {
    crosses_threads::<Bytes>();
    crosses_threads::<Value>();
    crosses_threads::<Values>();
    crosses_threads::<ArgType>();
    crosses_threads::<Arg<'static>>();
    crosses_threads::<Piece>();
    crosses_threads::<Format>();
    crosses_threads::<ParseFault>();
}

fn crosses_threads<T: Send + Sync>() {}
