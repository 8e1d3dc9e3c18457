//! Laws and worked examples of the definitions. The functions answer nothing: what they ensure is
//! proved of the definitions.

ghost use Rattle.std.specs.Prelude.{◌≡◌, ℕ, List, [], ◌∷◌, length, true, false, codes};
ghost use Rattle.source_tokens.specs.declared.token.Token.{Token};
ghost use Rattle.source_tokens.specs.declared.opening.Opening.TheVariants.{BlockComment, Identifier, Number};
ghost use Rattle.source_tokens.specs.declared.opening.Opening.TheVariants.{StringLiteral, Punctuator};
ghost use Rattle.source_tokens.specs.Splices.{past_splices};
ghost use Rattle.source_tokens.specs.Reading.{ReadsUnspliced};
ghost use Rattle.source_tokens.specs.Forms.{opening_of, is_tail, has_mark};
ghost use Rattle.source_tokens.specs.RawStrings.{opens_raw, closing_of};
ghost use Rattle.source_tokens.specs.Tokens.{Tokens};
ghost use Rattle.source_tokens.specs.Directives.{Parts};
ghost use Rattle.source_tokens.specs.Joins.{JoinsFrom};

use crate::plain::first_standing;
use crate::source::past_mark;
use crate::splice::past_splices;

/// A source has one list of tokens, comments and spaces, and one with its directives.
pub fn one_list()
    ensures tokens { (source : List ℕ) (tokens others : List Token)
        → Tokens source tokens → Tokens source others → tokens ≡ others }
    ensures parts { (source : List ℕ) (parts others : List Token)
        → Parts source parts → Parts source others → parts ≡ others }
{}

/// Each source has such a list: this goes over what stands in it, and keeps nothing.
pub fn some_list(source: &[u8])
    ensures tokens { (tokens : List Token) × Tokens source.now tokens }
    ensures parts { (parts : List Token) × Parts source.now parts }
{
    let mut rest = past_splices(past_mark(source));
    while let Some(found) = first_standing(rest) {
        rest = found.rest;
    }
}

/// A source is the join of its tokens, comments and spaces, and of these with its directives.
pub fn one_join()
    ensures tokens { (source : List ℕ) (tokens : List Token)
        → Tokens source tokens → JoinsFrom 0 tokens (length source) }
    ensures parts { (source : List ℕ) (parts : List Token)
        → Parts source parts → JoinsFrom 0 parts (length source) }
{}

/// Splices stand one behind the other, and what is left when one is removed is none.
pub fn worked_splices()
    ensures both { past_splices (92 ∷ 10 ∷ 92 ∷ 13 ∷ 10 ∷ 97 ∷ []) ≡ 97 ∷ [] }
    ensures second { past_splices (92 ∷ 92 ∷ 10 ∷ 10 ∷ []) ≡ 92 ∷ 92 ∷ 10 ∷ 10 ∷ [] }
    ensures carriage_return { past_splices (92 ∷ 13 ∷ 97 ∷ []) ≡ 92 ∷ 13 ∷ 97 ∷ [] }
    ensures inside { ReadsUnspliced (47 ∷ 92 ∷ 10 ∷ 47 ∷ 97 ∷ 92 ∷ 10 ∷ 10 ∷ []) (codes "//a") (10 ∷ []) }
{}

/// What begins with a byte.
pub fn worked_openings()
    ensures number { opening_of 46 (codes "5") ≡ Number }
    ensures period { opening_of 46 (codes "a") ≡ Punctuator }
    ensures comment { opening_of 47 (codes "*") ≡ BlockComment }
    ensures slash { opening_of 47 (codes "=") ≡ Punctuator }
    ensures high { opening_of 128 [] ≡ Identifier }
    ensures digraph { opening_of 37 (codes ":") ≡ Punctuator }
{}

/// How what begins with a byte goes on.
pub fn worked_forms()
    ensures comment { is_tail BlockComment 47 (codes "* /*/") ≡ true }
    ensures comment_opening { is_tail BlockComment 47 (codes "*/*/") ≡ true }
    ensures comment_over { is_tail BlockComment 47 (codes "**/ ") ≡ false }
    ensures number { is_tail Number 49 (codes "'000e+5.p-_x") ≡ true }
    ensures number_sign { is_tail Number 49 (codes "x+") ≡ false }
    ensures number_mark { is_tail Number 49 (codes "'") ≡ false }
    ensures literal { is_tail StringLiteral 34 (97 ∷ 92 ∷ 34 ∷ 34 ∷ []) ≡ true }
    ensures literal_over { is_tail StringLiteral 34 (92 ∷ 92 ∷ 34 ∷ 97 ∷ []) ≡ false }
    ensures literal_line { is_tail StringLiteral 34 (97 ∷ 92 ∷ 10 ∷ []) ≡ false }
    ensures whole { has_mark 34 (92 ∷ 92 ∷ 34 ∷ []) ≡ true }
    ensures broken { has_mark 34 (92 ∷ 34 ∷ []) ≡ false }
{}

/// The bytes behind the mark of a raw string.
pub fn worked_raw_strings()
    ensures none { opens_raw (codes "(") ≡ true }
    ensures longest { opens_raw (codes "0123456789abcdef()") ≡ true }
    ensures too_long { opens_raw (codes "0123456789abcdefg()") ≡ false }
    ensures space { opens_raw (codes "a b(") ≡ false }
    ensures splice { opens_raw (92 ∷ 10 ∷ 40 ∷ []) ≡ false }
    ensures closing { closing_of (codes "ab(c") ≡ 41 ∷ 97 ∷ 98 ∷ 34 ∷ [] }
{}
