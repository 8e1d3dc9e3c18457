//! Laws and worked examples of the definitions. The functions answer nothing: what they ensure is
//! proved of the definitions.

ghost use Rattle.std.specs.Prelude.{◌≡◌, ℕ, suc, ◌+◌, ◌<◌, ◌≤◌, true, List, [], ◌∷◌, length, Some, None};
ghost use Rattle.std.specs.Prelude.{take, drop, slice_index_or, map, replicate, codes};
ghost use Rattle.printf_grammar.specs.declared.fault.FormatCause.TheVariants.{Store};
ghost use Rattle.source_tokens.specs.declared.token.Token.{Token};
ghost use Rattle.source_tokens.specs.Tokens.{Tokens};
ghost use Rattle.source_tokens.specs.Directives.{Parts};
ghost use Rattle.source_scan.specs.declared.found.Found.{Found};
ghost use Rattle.source_scan.specs.declared.found.Found.TheVariants as found;
ghost use Rattle.source_scan.specs.declared.found.StatementCause.TheVariants as causes;
ghost use Rattle.source_scan.specs.declared.line_change.TheConstants.{MAX_LINE};
ghost use Rattle.source_scan.specs.declared.position.PlacedChange.{PlacedChange};
ghost use Rattle.source_scan.specs.declared.statement.TheConstants.{MAX_SOURCE};
ghost use Rattle.source_scan.specs.Texts.{unspliced, bytes_of, significant};
ghost use Rattle.source_scan.specs.Escapes.{unescaped_literal};
ghost use Rattle.source_scan.specs.PriWords.{pri_bytes};
ghost use Rattle.source_scan.specs.Items.{items_bytes};
ghost use Rattle.source_scan.specs.Severities.{last_name};
ghost use Rattle.source_scan.specs.Arguments.{is_mark, closing_from, parted_from, head_length, IsOpenTo};
ghost use Rattle.source_scan.specs.LineChanges.{directive_change};
ghost use Rattle.source_scan.specs.Positions.{Changes, in_force_at, at_front, line_number_at};
ghost use Rattle.source_scan.specs.Rising.{RiseFrom};
ghost use Rattle.source_scan.specs.Rows.{mark_at, name_at, number_at, literal_at};
ghost use Rattle.source_scan.specs.Rows.{in_braces, in_parentheses, behind_word, worked_statement, scoped};
ghost use Rattle.source_scan.specs.Rows.{worked_source, worked_found};
ghost use Rattle.source_scan.specs.Rows.{pri_words, letters, long_letters};
ghost use Rattle.source_scan.specs.Rows.{worked_words, word, error, integer, store, IsToldOf};
ghost use Rattle.source_scan.specs.Statements.{reading_of, IsFoundIn, Statements};
ghost use Rattle.source_scan.specs.Spans.{StandFrom, AreAll};

/// A source has one list of statements under each name of its file.
pub fn one_list()
    ensures { (file source : List ℕ) (found others : List Found)
        → Statements file source found → Statements file source others → found ≡ others }
{}

/// The statements of a source are all that stand in it outside directives: each `NANO_LOG` with a parenthesis
/// behind it begins one of them or stands between the parentheses of one. They stand one behind the other,
/// one that nothing closes is the last, and each has the file and the line that are in force where it begins.
pub fn all_statements()
    ensures { (file source : List ℕ) (parts : List Token) (changes : List PlacedChange) (found : List Found)
        → Parts source parts → Changes source parts changes → Statements file source found
        → AreAll (record { file = file; bytes = source; changes = changes }) (significant parts) found }
{}

/// The good statements stand one behind the other in the source, and the head of each is between its start and its end.
pub fn statements_in_order()
    ensures { (file source : List ℕ) (found : List Found) → Statements file source found
        → StandFrom 0 found (length source) }
{}

/// The head of a statement is the place of the comma behind its second argument; where nothing follows that, it is the
/// place of the parenthesis that closes the statement.
pub fn heads()
    ensures comma { (tokens : List Token) (d : Token) → 2 < length (parted_from 0 tokens)
        → is_mark 44 (slice_index_or tokens (head_length (parted_from 0 tokens)) d) ≡ true }
    ensures close { (tokens : List Token) → length (parted_from 0 tokens) ≤ 2
        → head_length (parted_from 0 tokens) ≡ length tokens }
{}

/// The parenthesis that closes a statement is the first with which more are closed than opened behind its `(`.
pub fn closing_parenthesis()
    ensures some { (tokens : List Token) (place : ℕ) → closing_from 0 tokens ≡ Some place
        → ((n : ℕ) → n ≤ place → IsOpenTo tokens n) × ¬ (IsOpenTo tokens (suc place)) }
    ensures none { (tokens : List Token) → closing_from 0 tokens ≡ None → (n : ℕ) → IsOpenTo tokens n }
{}

/// How far the numbers of a source go: no line is further behind the greatest that a directive gives
/// than the source has bytes, and the tokens among which statements are looked for rise in it.
pub fn bounds()
    ensures line { (file source : List ℕ) (parts : List Token) (changes : List PlacedChange)
        → Changes source parts changes
        → (place : ℕ) → line_number_at source (in_force_at file changes place) place ≤ MAX_LINE + length source }
    ensures tokens { (source : List ℕ) (parts : List Token) → Parts source parts
        → RiseFrom 0 (significant parts) (length source) }
{}

/// What stands at the front of a source is a source too, and has tokens.
fn fronts_have_tokens(source: &[u8])
    ensures { (length : ℕ) → (tokens : List Token) × Tokens (take length source.now) tokens }
{
    let mut front = source;
    while let [shorter @ .., _] = front {
        source_tokens::laws::some_list(front);
        front = shorter;
    }
    source_tokens::laws::some_list(front);
}

/// The bytes of each part of a source have tokens.
fn parts_have_tokens(source: &[u8])
    ensures { (part : Token) → (tokens : List Token) × Tokens (bytes_of source.now part) tokens }
{
    let mut rest = source;
    while let [_, behind @ ..] = rest {
        fronts_have_tokens(rest);
        rest = behind;
    }
    fronts_have_tokens(rest);
}

/// Each source has such a list: this goes over its parts, and keeps nothing.
pub fn some_list(source: &[u8])
    ensures { (file : List ℕ) → (found : List Found) × Statements file source.now found }
{
    source_tokens::laws::some_list(source);
    parts_have_tokens(source);
}

/// The most bytes of a source that is scanned.
pub fn limit()
    ensures { MAX_SOURCE ≡ 16777216 }
{}

/// A whole source, of whose `NANO_LOG` three begin statements.
pub fn worked_source()
    ensures { Statements (codes "t.cc") worked_source worked_found }
{}

/// Where arguments part and close, and how far their statement goes.
pub fn worked_arguments()
    ensures braces { parted_from 0 in_braces ≡ take 2 in_braces ∷ drop 3 in_braces ∷ [] }
    ensures parentheses { parted_from 0 in_parentheses ≡ in_parentheses ∷ [] }
    ensures empty { parted_from 0 (mark_at 44 0 ∷ []) ≡ [] ∷ [] ∷ [] }
    ensures closing { closing_from 0 behind_word ≡ Some 8 }
    ensures unclosed { closing_from 0 in_parentheses ≡ None }
    ensures statement { reading_of (codes "t.cc") 1 (name_at 3 11) behind_word 8 ≡ worked_statement }
{}

/// Each literal is read by itself, and then they are joined.
pub fn worked_formats()
    ensures joined { items_bytes (codes "\"\\x4\"\"1\"") (literal_at 0 5 ∷ literal_at 5 8 ∷ []) ≡ Some (4 ∷ 49 ∷ []) }
    ensures prefix { items_bytes (codes "u8\"a\"") (name_at 0 2 ∷ literal_at 2 5 ∷ []) ≡ Some (codes "a") }
    ensures prefix_apart { items_bytes (codes "u8 \"a\"") (name_at 0 2 ∷ literal_at 3 6 ∷ []) ≡ None }
{}

/// What each escape stands for, and some that are none.
pub fn worked_escapes()
    ensures letters { unescaped_literal (codes "\\'\\\"\\?\\\\\\a\\b\\f\\n\\r\\t\\v\\e")
        ≡ Some (39 ∷ 34 ∷ 63 ∷ 92 ∷ 7 ∷ 8 ∷ 12 ∷ 10 ∷ 13 ∷ 9 ∷ 11 ∷ 27 ∷ []) }
    ensures octal { unescaped_literal (codes "\\377") ≡ Some (255 ∷ []) }
    ensures octal_digits { unescaped_literal (codes "\\0017\\18") ≡ Some (1 ∷ 55 ∷ 1 ∷ 56 ∷ []) }
    ensures hexadecimal { unescaped_literal (codes "\\x00fFg") ≡ Some (255 ∷ 103 ∷ []) }
    ensures short { unescaped_literal (codes "\\u00e99") ≡ Some (195 ∷ 169 ∷ 57 ∷ []) }
    ensures long { unescaped_literal (codes "\\U000000e99") ≡ Some (195 ∷ 169 ∷ 57 ∷ []) }
    ensures greatest { unescaped_literal (codes "\\U0010ffff") ≡ Some (244 ∷ 143 ∷ 191 ∷ 191 ∷ []) }
    ensures too_great { map unescaped_literal (codes "\\400" ∷ codes "\\x100" ∷ codes "\\ud800"
        ∷ codes "\\U00110000" ∷ [])
        ≡ replicate 4 None }
    ensures too_short { map unescaped_literal (codes "\\" ∷ codes "\\xg" ∷ codes "\\u0e9" ∷ codes "\\U00000e9" ∷ [])
        ≡ replicate 4 None }
    ensures unknown { map unescaped_literal (codes "\\8" ∷ codes "\\c" ∷ codes "\\X41" ∷ codes "\\N" ∷ [])
        ≡ replicate 4 None }
{}

/// What each PRI word stands for, and some words that are none.
pub fn worked_pri_words()
    ensures of_8 { pri_words (codes "8") ≡ map Some letters }
    ensures of_16 { pri_words (codes "16") ≡ map Some letters }
    ensures of_32 { pri_words (codes "32") ≡ map Some letters }
    ensures of_64 { pri_words (codes "64") ≡ map Some long_letters }
    ensures greatest { pri_words (codes "MAX") ≡ map Some long_letters }
    ensures pointer { pri_words (codes "PTR") ≡ map Some long_letters }
    ensures widths { map pri_bytes (codes "PRId" ∷ codes "PRId7" ∷ codes "PRId128" ∷ codes "PRIdFAST8" ∷ [])
        ≡ replicate 4 None }
    ensures letters { map pri_bytes (codes "PRI8" ∷ codes "PRIc8" ∷ codes "PRID8" ∷ codes "SCNd8" ∷ [])
        ≡ replicate 4 None }
{}

/// The first cause that holds is told, in this order: Unclosed, FileName, Severity, FormatNotLiteral, Format, TooFew.
pub fn worked_causes()
    ensures unclosed { IsFoundIn worked_words [] 1 word (word ∷ []) (closing_from 0 (word ∷ []))
        (found.Bad (record { file = []; line = 1; cause = causes.Unclosed })) }
    ensures file_name { IsToldOf [] (word ∷ []) (word ∷ []) causes.FileName }
    ensures severity { IsToldOf (codes "t.cc") (word ∷ []) (word ∷ []) causes.Severity }
    ensures not_literal { IsToldOf (codes "t.cc") (error ∷ []) (integer ∷ word ∷ []) causes.FormatNotLiteral }
    ensures format { IsToldOf (codes "t.cc") (error ∷ []) (integer ∷ store ∷ []) (causes.Format Store 3) }
    ensures too_few { IsToldOf (codes "t.cc") (error ∷ []) (integer ∷ []) causes.TooFew }
{}

/// A severity behind `::`, and what line directives say.
pub fn worked_names()
    ensures scope { last_name (scoped 6) ≡ Some (name_at 8 13) }
    ensures colons { last_name (scoped 7) ≡ None }
    ensures marker { directive_change (codes "# 7 \"h\" 1") (number_at 2 3 ∷ literal_at 4 7 ∷ number_at 8 9 ∷ [])
        ≡ Some (record { number = 7; name = Some (codes "h") }) }
    ensures line { directive_change (codes "#line 020") (name_at 1 5 ∷ number_at 6 9 ∷ [])
        ≡ Some (record { number = 20; name = None }) }
    ensures line_least { directive_change (codes "#line 0") (name_at 1 5 ∷ number_at 6 7 ∷ [])
        ≡ Some (record { number = 0; name = None }) }
    ensures line_greatest { directive_change (codes "#line 2147483647") (name_at 1 5 ∷ number_at 6 16 ∷ [])
        ≡ Some (record { number = 2147483647; name = None }) }
    ensures line_over { directive_change (codes "#line 2147483648") (name_at 1 5 ∷ number_at 6 16 ∷ []) ≡ None }
    ensures splices { unspliced (97 ∷ 92 ∷ 10 ∷ 98 ∷ 92 ∷ 13 ∷ 10 ∷ []) ≡ codes "ab" }
    ensures spliced_line { line_number_at (97 ∷ 92 ∷ 10 ∷ 98 ∷ []) (at_front (codes "t.cc")) 3 ≡ 2 }
{}
